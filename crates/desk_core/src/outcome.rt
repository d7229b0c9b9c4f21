//! What came of a line.

ghost use Rattle.std.specs.Prelude.{◌≡◌};
ghost use Rattle.desk_core.specs.Outcomes.{is_refusal};

use desk_spec::DeskReason;

/// What came of a line, of which its reply is made.
#[derive(Drop)]
pub enum Outcome {
    /// Nothing was asked for, and there is no reply.
    Nothing,
    /// It is done.
    Done,
    /// The plan is to be shown.
    Plan,
    /// The notes of the watcher at this place are to be shown.
    Watch(usize),
    /// It is refused, and all is as before.
    Refused(DeskReason),
}

impl Outcome {
    /// Whether the line is refused.
    pub fn is_refusal(&self) -> bool
        ensures { result ≡ is_refusal self.now }
    {
        match self {
            Outcome::Nothing => false,
            Outcome::Done => false,
            Outcome::Plan => false,
            Outcome::Watch(_place) => false,
            Outcome::Refused(_reason) => true,
        }
    }
}
