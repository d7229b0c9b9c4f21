//! The line of a status on standard error.

ghost use Rattle.std.specs.Prelude.{◌≡◌, ◌⊎◌, ◌<◌, ◌-◌, ◌^◌, IfNone, IfSome};
ghost use Rattle.plan_file.specs.Said.{IsSaid, IsSilent};
ghost use Rattle.walk_app.specs.Statuses.{message_of};

use crate::status::WalkStatus;
use dm_io::{Sink, put_all};

/// How the command is used.
const USAGE: &[u8] = b"depth_walk: usage: depth_walk -f FILE WALKERS STEPS SEED WORKERS\n";

/// Says the line of a status. Nothing is said where all was done, nor of a refused plan, of which the line at fault was
/// said where it was found. What becomes of it changes nothing else. Takes no memory.
pub fn say<E: Sink>(err: &mut E, status: WalkStatus)
    requires { (status ≡ WalkStatus.BadPlan) ⊎ (E.faults err.old < 2 ^ 64 - 1) }
    ensures said { IfSome (message_of status) (IsSaid (E.written err.old) (E.written err.new) (E.faults err.old) (E.faults err.new)) }
    ensures silent { IfNone (message_of status) (IsSilent (E.written err.old) (E.written err.new) (E.faults err.old) (E.faults err.new)) }
{
    let _ = match status {
        WalkStatus::Done => Ok(()),
        WalkStatus::BadWords => put_all(err, USAGE),
        WalkStatus::BadPlan => Ok(()),
        WalkStatus::ReadFault => put_all(err, b"depth_walk: cannot read\n"),
        WalkStatus::WriteFault => put_all(err, b"depth_walk: cannot write\n"),
        WalkStatus::NoMemory => put_all(err, b"depth_walk: out of memory\n"),
        WalkStatus::TooLong => put_all(err, b"depth_walk: input too long\n"),
        WalkStatus::NoOpen => put_all(err, b"depth_walk: no open point\n"),
    };
}
