//! The top call.

ghost use Rattle.std.specs.Prelude.{◌≡◌, ◌⊎◌, ◌≤◌, ◌<◌, ◌-◌, ◌^◌, IfSome, IsTrue, List, Option, ℕ};
ghost use Rattle.plan_file.specs.Said.{IsSilent, SaysWhy};
ghost use Rattle.plan_file.specs.Streams.{RoseOnceAtMost};
ghost use Rattle.walk_spec.specs.declared.TheConstants.{MAX_WALKERS, MAX_WALK_STEPS};
ghost use Rattle.walk_app.specs.Ends.{Ends, EndsOfFile, EndsOverPlan, HasOutput, IsComplete, counts_of, streams_of};
ghost use Rattle.walk_app.specs.Statuses.{Says, plan_message};
ghost use Rattle.walk_app.specs.Words.{file_of, known_file, options_given};

use crate::messages::say;
use crate::status::WalkStatus;
use dm_io::{Files, Gate, Sink};
use plan_check::Plan;
use plan_file::{PlanFault, plan_in_file, say_why};
use std::alloc::Global;
use std::thread::Threads;
use walk_plan::{WalkFault, put_walk};
use walk_spec::WalkSpec;
use walk_words::walk_options_in;

/// Prints the table of walkers over a plan.
fn walk_over<R: Threads + Sync, O: Sink, G: Gate>(
    rt: &R,
    alloc: Global,
    plan: &Plan,
    spec: &WalkSpec,
    workers: u32,
    out: &mut O,
    gate: &G,
) -> WalkStatus
    requires walkers { spec.now.walkers ≤ MAX_WALKERS }
    requires steps { spec.now.steps ≤ MAX_WALK_STEPS }
    requires some_workers { 0 < workers }
    requires few_workers { workers ≤ 64 }
    requires out_below { O.faults out.old < 2 ^ 64 - 1 }
    ensures { (before after : Option (List ℕ)) (files : ℕ) →
        EndsOverPlan plan.now spec.now (streams_of before (O.written out.old) files (O.faults out.old))
        (streams_of after (O.written out.new) files (O.faults out.new)) result }
{
    match put_walk(rt, alloc, plan, spec, workers, out, gate) {
        Ok(()) => WalkStatus::Done,
        Err(WalkFault::NoOpen) => WalkStatus::NoOpen,
        Err(WalkFault::Write) => WalkStatus::WriteFault,
        Err(WalkFault::NoMemory) => WalkStatus::NoMemory,
    }
}

/// Prints the table of walkers over the plan in the file of a name. Where the file holds none, it says why on `err`.
fn walk_over_file<R: Threads + Sync, F: Files, O: Sink, E: Sink, G: Gate>(
    rt: &R,
    alloc: Global,
    name: &str,
    spec: &WalkSpec,
    workers: u32,
    files: &mut F,
    out: &mut O,
    err: &mut E,
    gate: &G,
) -> WalkStatus
    requires walkers { spec.now.walkers ≤ MAX_WALKERS }
    requires steps { spec.now.steps ≤ MAX_WALK_STEPS }
    requires some_workers { 0 < workers }
    requires few_workers { workers ≤ 64 }
    requires files_below { F.faults files.old < 2 ^ 64 - 1 }
    requires out_below { O.faults out.old < 2 ^ 64 - 1 }
    requires err_below { E.faults err.old < 2 ^ 64 - 1 }
    requires allowed { IsTrue (F.allows files.old name.now) }
    ensures ends { EndsOfFile (F.holds files.old name.now) spec.now
        (streams_of (F.left files.old) (O.written out.old) (F.faults files.old) (O.faults out.old))
        (streams_of (F.left files.new) (O.written out.new) (F.faults files.new) (O.faults out.new))
        result }
    ensures why { result ≡ WalkStatus.BadPlan →
        SaysWhy plan_message (F.holds files.old name.now) (F.left files.new)
        (E.written err.old) (E.written err.new) (E.faults err.old) (E.faults err.new) }
    ensures silent { (result ≡ WalkStatus.BadPlan)
        ⊎ IsSilent (E.written err.old) (E.written err.new) (E.faults err.old) (E.faults err.new) }
{
    match plan_in_file(alloc, files, name) {
        Ok(plan) => walk_over(rt, alloc, &plan, spec, workers, out, gate),
        Err(PlanFault::Refused { line, reason }) => {
            say_why(err, b"depth_walk", line, &reason);
            WalkStatus::BadPlan
        }
        Err(PlanFault::Unread) => WalkStatus::ReadFault,
        Err(PlanFault::NoMemory) => WalkStatus::NoMemory,
        Err(PlanFault::TooLong) => WalkStatus::TooLong,
    }
}

/// Does what the words ask for. On `err` it says why a plan is refused, and nothing else.
fn answer<R: Threads + Sync, F: Files, O: Sink, E: Sink, G: Gate>(
    rt: &R,
    alloc: Global,
    words: &[String],
    files: &mut F,
    out: &mut O,
    err: &mut E,
    gate: &G,
) -> WalkStatus
    requires files_below { F.faults files.old < 2 ^ 64 - 1 }
    requires out_below { O.faults out.old < 2 ^ 64 - 1 }
    requires err_below { E.faults err.old < 2 ^ 64 - 1 }
    requires allowed { IfSome (file_of (options_given words.now)) (λ name. IsTrue (F.allows files.old name)) }
    ensures ends { Ends (options_given words.now) (F.holds files.old)
        (streams_of (F.left files.old) (O.written out.old) (F.faults files.old) (O.faults out.old))
        (streams_of (F.left files.new) (O.written out.new) (F.faults files.new) (O.faults out.new))
        result }
    ensures why { result ≡ WalkStatus.BadPlan →
        SaysWhy plan_message (known_file (options_given words.now) (F.holds files.old)) (F.left files.new)
        (E.written err.old) (E.written err.new) (E.faults err.old) (E.faults err.new) }
    ensures silent { (result ≡ WalkStatus.BadPlan)
        ⊎ IsSilent (E.written err.old) (E.written err.new) (E.faults err.old) (E.faults err.new) }
{
    let Some(options) = walk_options_in(words) else {
        return WalkStatus::BadWords;
    };
    walk_over_file(
        rt,
        alloc,
        options.file.as_str(),
        &options.spec,
        options.workers,
        files,
        out,
        err,
        gate,
    )
}

/// Prints how often walkers visit each open point of the grid of the plan in the file that the words name, as many walkers
/// of as many steps as they say, by their seed; and says in one line on `err` why where it can't.
///
/// `words` are the command's arguments without the program's name. `rt` lends the threads. `gate` is told each row of the
/// visibility graph that a worker claims. Each count of faults must be able to rise, and the file's name must be one that
/// `files` allows, as `DirFiles` allows all.
///
/// The first event in the order of work decides the status: words, file, plan, table. A fault of `err` changes none, nor
/// does the number of workers.
///
/// Cost: that of reading the plan, of filling its visibility graph, and of the walkers' steps; memory for the file's bytes,
/// the plan, the graph, and of each worker the visits of all nodes.
pub fn walk_run<R: Threads + Sync, F: Files, O: Sink, E: Sink, G: Gate>(
    rt: &R,
    alloc: Global,
    words: &[String],
    files: &mut F,
    out: &mut O,
    err: &mut E,
    gate: &G,
) -> WalkStatus
    requires files_below { F.faults files.old < 2 ^ 64 - 1 }
    requires out_below { O.faults out.old < 2 ^ 64 - 1 }
    requires err_below { E.faults err.old < 2 ^ 64 - 1 }
    requires allowed { IfSome (file_of (options_given words.now)) (λ name. IsTrue (F.allows files.old name)) }

    // Where the bytes of the file are known: with 0 its plan's whole table was written, and with 8 its plan has no open
    // point and nothing was.
    ensures output { HasOutput (options_given words.now) (F.holds files.old)
        (streams_of (F.left files.old) (O.written out.old) (F.faults files.old) (O.faults out.old))
        (streams_of (F.left files.new) (O.written out.new) (F.faults files.new) (O.faults out.new))
        result }

    // By the options and the status: what was taken of the plan's file, what was written, what failed.
    ensures ends { Ends (options_given words.now) (F.holds files.old)
        (streams_of (F.left files.old) (O.written out.old) (F.faults files.old) (O.faults out.old))
        (streams_of (F.left files.new) (O.written out.new) (F.faults files.new) (O.faults out.new))
        result }

    // By the status: what was said on standard error.
    ensures says { Says (known_file (options_given words.now) (F.holds files.old)) (F.left files.new)
        (E.written err.old) (E.written err.new) (E.faults err.old) (E.faults err.new) result }

    // Where nothing fails and the plan's file keeps its limit, the table is written or there is no open point, by the plan;
    // or there is no memory.
    ensures complete { IsComplete (options_given words.now) (F.holds files.old)
        (streams_of (F.left files.old) (O.written out.old) (F.faults files.old) (O.faults out.old))
        (streams_of (F.left files.new) (O.written out.new) (F.faults files.new) (O.faults out.new))
        result }

    // No count of faults rose by more than one, so that another run may follow over the same streams.
    ensures once { RoseOnceAtMost (counts_of (F.faults files.old) (O.faults out.old))
        (counts_of (F.faults files.new) (O.faults out.new)) (E.faults err.old) (E.faults err.new) }
{
    let status = answer(rt, alloc, words, files, out, err, gate);
    say(err, status);
    status
}
