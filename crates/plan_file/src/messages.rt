//! The line of a refused plan.

ghost use Rattle.std.specs.Prelude.{◌≡◌, ◌<◌, ◌-◌, ◌^◌, ◌++◌, List, OnErr, OnOk, option_map, ℕ};
ghost use Rattle.std.specs.List.{flat_map, join_with_byte};
ghost use Rattle.report_spec.specs.Messages.{plan_message_by};
ghost use Rattle.report_spec.specs.Replies.{reason_words};
ghost use Rattle.reports.specs.Causes.{words_in};
ghost use Rattle.dm_io.specs.Streams.{WritesPrefix, Rose, appended_to};
ghost use Rattle.plan_file.specs.Said.{IsSaid};

use dm_io::{PutFailed, Sink, put_all};
use itoa::Buffer;
use report_spec::Reason;
use reports::reason_parts;

/// Writes all the pieces, one after the other. After `PutFailed` a prefix of them was written. Takes no memory.
fn put_pieces<E: Sink>(err: &mut E, pieces: &[&[u8]]) -> Result<(), PutFailed>
    ensures all { OnOk result (E.written err.new ≡ appended_to (E.written err.old) (flat_map (λ piece. piece.now) pieces.now)) }
    ensures faults_stay { OnOk result (E.faults err.new ≡ E.faults err.old) }
    ensures prefix { OnErr result (WritesPrefix (E.written err.old) (E.written err.new) (flat_map (λ piece. piece.now) pieces.now)) }
    ensures only_on_fault { OnErr result (Rose (E.faults err.old) (E.faults err.new)) }
{
    for piece in pieces {
        put_all(err, piece)?;
    }
    Ok(())
}

/// What stands after the word of a cause: a space and what the cause is about, or nothing.
fn after_word(detail: Option<&[u8]>) -> (&[u8], &[u8])
    ensures { (word : List ℕ) → word ++ (result.0.now ++ result.1.now)
        ≡ join_with_byte 32 (words_in word (option_map (λ detail. detail.now) detail.entry)) }
{
    match detail {
        Some(detail) => (b" ", detail),
        None => (b"", b""),
    }
}

/// The words of a reason: the first of them, and what stands after it.
fn reason_text(reason: &Reason) -> (&[u8], &[u8], &[u8])
    ensures { result.0.now ++ (result.1.now ++ result.2.now) ≡ join_with_byte 32 (reason_words reason.now) }
{
    let (word, detail) = reason_parts(reason);
    let (space, detail) = after_word(detail);
    (word, space, detail)
}

/// Writes a program's line of a refused plan.
fn put_plan_message<E: Sink>(
    err: &mut E,
    program: &[u8],
    line: u32,
    reason: &Reason,
) -> Result<(), PutFailed>
    ensures all { OnOk result (E.written err.new ≡ appended_to (E.written err.old) (plan_message_by program.now line reason.now)) }
    ensures faults_stay { OnOk result (E.faults err.new ≡ E.faults err.old) }
    ensures prefix { OnErr result (WritesPrefix (E.written err.old) (E.written err.new) (plan_message_by program.now line reason.now)) }
    ensures only_on_fault { OnErr result (Rose (E.faults err.old) (E.faults err.new)) }
{
    let mut digits = Buffer::new();
    let (word, space, detail) = reason_text(reason);
    let pieces: [&[u8]; 8] = [
        program,
        b": plan line ",
        digits.format(line).as_bytes(),
        b": ",
        word,
        space,
        detail,
        b"\n",
    ];
    put_pieces(err, &pieces)
}

/// Says on which line of its file a plan is at fault, and why, in one line that begins with the program's name. What
/// becomes of it changes nothing else: where `err` fails, a prefix of the line was written. Takes no memory.
pub fn say_why<E: Sink>(err: &mut E, program: &[u8], line: u32, reason: &Reason)
    requires below { E.faults err.old < 2 ^ 64 - 1 }
    ensures { IsSaid (E.written err.old) (E.written err.new) (E.faults err.old) (E.faults err.new)
        (plan_message_by program.now line reason.now) }
{
    let _ = put_plan_message(err, program, line, reason);
}
