//! What answers the lines of a script.

ghost use Rattle.std.specs.Prelude.{◌≡◌, ◌⊎◌, IfOk, IsErrOf, List, OnErr, OnOk, option_map, ℕ};
ghost use Rattle.std.specs.Thread.{IsSync};
ghost use Rattle.dm_io.specs.Streams.{Rose, WritesPrefix, appended_to};
ghost use Rattle.script_loop.specs.Steps.{LineStep, Shows};

use dm_io::Sink;
use std::thread::Threads;

/// Why a line wasn't answered.
#[derive(Clone, Copy, Debug, PartialEq, Eq)]
pub enum AnswerFault {
    /// The sink failed; its count of faults rose.
    Write,
    /// There is no memory.
    NoMemory,
}

/// What answers the lines of a script, one after the other.
pub trait Answerer {
    /// All that the answers to further lines depend on.
    ghost State: { Type 0 };

    /// The state that it is in.
    ghost state: { Self → State };

    /// What a line of a number does in a state.
    ghost step: { State → ℕ → List ℕ → LineStep State };

    /// Answers a line on `out`, shown without its newline and a carriage return before it, or `None` where it was too
    /// long and is skipped; whether it is refused. After a fault a prefix of the reply was written, and any state is
    /// left. It may make threads by `rt`.
    fn answer<R: Threads + Sync, O: Sink>(
        &mut self,
        rt: &R,
        number: u64,
        line: Option<&[u8]>,
        out: &mut O,
    ) -> Result<bool, AnswerFault>
        requires { IsSync R.row }
        ensures written { OnOk result ((whole : List ℕ) → Shows whole (option_map (λ bytes. bytes.now) line.entry) → O.written out.new ≡ appended_to (O.written out.old) (step (state self.old) number whole).reply) }
        ensures leaves { OnOk result ((whole : List ℕ) → Shows whole (option_map (λ bytes. bytes.now) line.entry) → state self.new ≡ (step (state self.old) number whole).state) }
        ensures refused { IfOk result (λ refused. (whole : List ℕ) → Shows whole (option_map (λ bytes. bytes.now) line.entry) → refused ≡ (step (state self.old) number whole).refused) }
        ensures prefix { OnErr result ((whole : List ℕ) → Shows whole (option_map (λ bytes. bytes.now) line.entry) → WritesPrefix (O.written out.old) (O.written out.new) (step (state self.old) number whole).reply) }
        ensures only_on_fault { IsErrOf result AnswerFault.Write → Rose (O.faults out.old) (O.faults out.new) }
        ensures faults_stay { IsErrOf result AnswerFault.Write ⊎ (O.faults out.new ≡ O.faults out.old) };
}
