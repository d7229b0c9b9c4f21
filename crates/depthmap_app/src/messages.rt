//! The line of a status on standard error.

ghost use Rattle.std.specs.Prelude.{◌≡◌, ◌⊎◌, ◌<◌, ◌-◌, ◌^◌, IfNone, IfSome};
ghost use Rattle.plan_file.specs.Said.{IsSaid, IsSilent};
ghost use Rattle.depthmap_app.specs.Statuses.{message_of};

use crate::status::Status;
use dm_io::{Sink, put_all};

/// How the command is used.
const USAGE: &[u8] =
    b"depthmap: usage: depthmap -m VGA|ISOVIST|AXIAL|SEGMENT|CHECK -f FILE [--workers N] [--format text|csv] or depthmap -m TRIAL --number N [--workers N] [--format text|csv]\n";

/// Says the line of a status. Nothing is said where all was done, nor of a refused plan, of which the line at fault was
/// said where it was found. What becomes of it changes nothing else. Takes no memory.
pub fn say<E: Sink>(err: &mut E, status: Status)
    requires { (status ≡ Status.BadPlan) ⊎ (E.faults err.old < 2 ^ 64 - 1) }
    ensures said { IfSome (message_of status) (IsSaid (E.written err.old) (E.written err.new) (E.faults err.old) (E.faults err.new)) }
    ensures silent { IfNone (message_of status) (IsSilent (E.written err.old) (E.written err.new) (E.faults err.old) (E.faults err.new)) }
{
    let _ = match status {
        Status::Done => Ok(()),
        Status::DoneWithRefusals => Ok(()),
        Status::BadWords => put_all(err, USAGE),
        Status::BadPlan => Ok(()),
        Status::ReadFault => put_all(err, b"depthmap: cannot read\n"),
        Status::WriteFault => put_all(err, b"depthmap: cannot write\n"),
        Status::NoMemory => put_all(err, b"depthmap: out of memory\n"),
        Status::TooLong => put_all(err, b"depthmap: input too long\n"),
    };
}
