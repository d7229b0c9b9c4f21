//! The top call.

ghost use Rattle.std.specs.Prelude.{◌≡◌, ◌⊎◌, ◌≤◌, ◌<◌, ◌-◌, ◌^◌, ◌||◌, IfSome, IsTrue, List, Option, ℕ};
ghost use Rattle.options_spec.specs.declared.options.TheConstants.{MAX_TRIAL_BOXES, MAX_WORKERS};
ghost use Rattle.depthmap_app.specs.Ends.{Ends, EndsAnalysis, EndsJob, EndsOverPlan, EndsTrial, HasOutput, IsComplete};
ghost use Rattle.plan_file.specs.Said.{IsSilent, SaysWhy};
ghost use Rattle.plan_file.specs.Streams.{RoseOnceAtMost, faults, streams};
ghost use Rattle.report_spec.specs.Messages.{plan_message};
ghost use Rattle.depthmap_app.specs.Statuses.{Says, done_status};
ghost use Rattle.depthmap_app.specs.Words.{file_of, file_of_job, known_file, options_given};

use crate::desk::Desk;
use crate::messages::say;
use crate::status::Status;
use crate::words::texts_of;
use command_words::options_in;
use dm_io::{Files, Gate, Sink, Source};
use grammar_spec::MAX_SCRIPT_BYTES;
use options_spec::{Form, Job, Mode, Options};
use plan_answers::{put_mode, put_trial_of};
use plan_check::Plan;
use plan_edit::Session;
use plan_file::{PlanFault, plan_in_file, say_why};
use reports::ReportFault;
use script_loop::{ScriptEnd, answer_script};
use std::alloc::Global;
use std::thread::Threads;

/// How a run ends whose output was written whole, by whether a reply is `refused` and whether the tables are.
fn done(refused: bool, mode_refused: bool) -> Status
    ensures { result ≡ done_status (refused || mode_refused) }
{
    if refused || mode_refused {
        Status::DoneWithRefusals
    } else {
        Status::Done
    }
}

/// Answers the script at a desk, and prints the tables of the mode over the plan that it leaves there.
fn answer_at<S: Source, O: Sink, G: Gate>(
    rt: &(impl Threads + Sync),
    desk: &mut Desk,
    mode: Mode,
    form: Form,
    script: &mut S,
    out: &mut O,
    gate: &G,
) -> Status
    requires form { desk.old.form ≡ form }
    requires script_below { S.faults script.old < 2 ^ 64 - 1 }
    requires out_below { O.faults out.old < 2 ^ 64 - 1 }
    ensures { (before after : Option (List ℕ)) (files : ℕ) →
        EndsOverPlan mode form desk.old.session.plan
        (streams before (S.left script.old) (O.written out.old) (faults files (S.faults script.old) (O.faults out.old)))
        (streams after (S.left script.new) (O.written out.new) (faults files (S.faults script.new) (O.faults out.new)))
        result }
{
    let refused = match answer_script(rt, desk, MAX_SCRIPT_BYTES, script, out) {
        ScriptEnd::All(refused) => refused,
        ScriptEnd::Failed => return Status::ReadFault,
        ScriptEnd::Unwritten => return Status::WriteFault,
        ScriptEnd::NoMemory => return Status::NoMemory,
        ScriptEnd::Over => return Status::TooLong,
    };
    match put_mode(rt, desk.alloc, &mut desk.session, form, mode, out, gate) {
        Ok(mode_refused) => done(refused, mode_refused),
        Err(ReportFault::Write) => Status::WriteFault,
        Err(ReportFault::NoMemory) => Status::NoMemory,
    }
}

/// Answers the script over a plan, and prints the tables of the mode over the plan that it leaves.
fn answer_over<S: Source, O: Sink, G: Gate>(
    rt: &(impl Threads + Sync),
    alloc: Global,
    plan: Plan,
    mode: Mode,
    form: Form,
    workers: u32,
    script: &mut S,
    out: &mut O,
    gate: &G,
) -> Status
    requires some_workers { 1 ≤ workers }
    requires few_workers { workers ≤ MAX_WORKERS }
    requires script_below { S.faults script.old < 2 ^ 64 - 1 }
    requires out_below { O.faults out.old < 2 ^ 64 - 1 }
    ensures { (before after : Option (List ℕ)) (files : ℕ) →
        EndsOverPlan mode form plan (streams before (S.left script.old) (O.written out.old) (faults files (S.faults script.old) (O.faults out.old)))
        (streams after (S.left script.new) (O.written out.new) (faults files (S.faults script.new) (O.faults out.new)))
        result }
{
    let Ok(session) = Session::begin(alloc, plan, workers) else {
        return Status::NoMemory;
    };
    let mut desk = Desk {
        alloc,
        session,
        form,
    };
    answer_at(rt, &mut desk, mode, form, script, out, gate)
}

/// Answers the script over the plan in the file of a name. Where the file holds none, it says why on `err`.
fn analyse<F: Files, S: Source, O: Sink, E: Sink, G: Gate>(
    rt: &(impl Threads + Sync),
    alloc: Global,
    name: &str,
    mode: Mode,
    form: Form,
    workers: u32,
    files: &mut F,
    script: &mut S,
    out: &mut O,
    err: &mut E,
    gate: &G,
) -> Status
    requires some_workers { 1 ≤ workers }
    requires few_workers { workers ≤ MAX_WORKERS }
    requires files_below { F.faults files.old < 2 ^ 64 - 1 }
    requires script_below { S.faults script.old < 2 ^ 64 - 1 }
    requires out_below { O.faults out.old < 2 ^ 64 - 1 }
    requires err_below { E.faults err.old < 2 ^ 64 - 1 }
    requires allowed { IsTrue (F.allows files.old name.now) }
    ensures ends { EndsAnalysis mode form (F.holds files.old name.now)
        (streams (F.left files.old) (S.left script.old) (O.written out.old)
        (faults (F.faults files.old) (S.faults script.old) (O.faults out.old)))
        (streams (F.left files.new) (S.left script.new) (O.written out.new)
        (faults (F.faults files.new) (S.faults script.new) (O.faults out.new)))
        result }
    ensures why { result ≡ Status.BadPlan →
        SaysWhy plan_message (F.holds files.old name.now) (F.left files.new)
        (E.written err.old) (E.written err.new) (E.faults err.old) (E.faults err.new) }
    ensures silent { (result ≡ Status.BadPlan)
        ⊎ IsSilent (E.written err.old) (E.written err.new) (E.faults err.old) (E.faults err.new) }
{
    match plan_in_file(alloc, files, name) {
        Ok(plan) => answer_over(rt, alloc, plan, mode, form, workers, script, out, gate),
        Err(PlanFault::Refused { line, reason }) => {
            say_why(err, b"depthmap", line, &reason);
            Status::BadPlan
        }
        Err(PlanFault::Unread) => Status::ReadFault,
        Err(PlanFault::NoMemory) => Status::NoMemory,
        Err(PlanFault::TooLong) => Status::TooLong,
    }
}

/// Prints the record of the trial plan of so many boxes.
fn trial<O: Sink, G: Gate>(
    rt: &(impl Threads + Sync),
    alloc: Global,
    boxes: u32,
    form: Form,
    workers: u32,
    out: &mut O,
    gate: &G,
) -> Status
    requires some_workers { 1 ≤ workers }
    requires few_workers { workers ≤ MAX_WORKERS }
    requires out_below { O.faults out.old < 2 ^ 64 - 1 }
    requires some { 1 ≤ boxes }
    requires few { boxes ≤ MAX_TRIAL_BOXES }
    ensures { (file script : Option (List ℕ)) (files scripts : ℕ) →
        EndsTrial form boxes (streams file script (O.written out.old) (faults files scripts (O.faults out.old)))
        (streams file script (O.written out.new) (faults files scripts (O.faults out.new)))
        result }
{
    match put_trial_of(rt, alloc, out, form, workers, boxes, gate) {
        Ok(()) => Status::Done,
        Err(ReportFault::Write) => Status::WriteFault,
        Err(ReportFault::NoMemory) => Status::NoMemory,
    }
}

/// Does what the words ask for. On `err` it says why a plan is refused, and nothing else.
fn answer<F: Files, S: Source, O: Sink, E: Sink, G: Gate>(
    rt: &(impl Threads + Sync),
    alloc: Global,
    words: &[String],
    files: &mut F,
    script: &mut S,
    out: &mut O,
    err: &mut E,
    gate: &G,
) -> Status
    requires files_below { F.faults files.old < 2 ^ 64 - 1 }
    requires script_below { S.faults script.old < 2 ^ 64 - 1 }
    requires out_below { O.faults out.old < 2 ^ 64 - 1 }
    requires err_below { E.faults err.old < 2 ^ 64 - 1 }
    requires allowed { IfSome (file_of (options_given words.now)) (λ name. IsTrue (F.allows files.old name)) }
    ensures ends { Ends (options_given words.now) (F.holds files.old)
        (streams (F.left files.old) (S.left script.old) (O.written out.old)
        (faults (F.faults files.old) (S.faults script.old) (O.faults out.old)))
        (streams (F.left files.new) (S.left script.new) (O.written out.new)
        (faults (F.faults files.new) (S.faults script.new) (O.faults out.new)))
        result }
    ensures why { result ≡ Status.BadPlan →
        SaysWhy plan_message (known_file (options_given words.now) (F.holds files.old)) (F.left files.new)
        (E.written err.old) (E.written err.new) (E.faults err.old) (E.faults err.new) }
    ensures silent { (result ≡ Status.BadPlan)
        ⊎ IsSilent (E.written err.old) (E.written err.new) (E.faults err.old) (E.faults err.new) }
{
    let Ok(texts) = texts_of(alloc, words) else {
        return Status::NoMemory;
    };
    let Options { job, workers, form } = match options_in(alloc, &texts) {
        Ok(Some(options)) => options,
        Ok(None) => return Status::BadWords,
        Err(_) => return Status::NoMemory,
    };
    let workers = workers as u32;
    match job {
        Job::Analyse(mode, file) => {
            analyse(
                rt,
                alloc,
                file.as_str(),
                mode,
                form,
                workers,
                files,
                script,
                out,
                err,
                gate,
            )
        }
        Job::Trial(boxes) => trial(rt, alloc, boxes, form, workers, out, gate),
    }
}

/// Answers the script line by line over the plan in the file that the words name, prints the tables of the mode over
/// the plan that the script leaves, and says in one line on `err` why where it can't. More of the script is taken
/// only once every line that was taken whole is answered. A trial takes nothing of the files and of the script.
///
/// `words` are the command's arguments without the program's name. `rt` lends the threads. `gate` is told each row of the
/// visibility graph that one of several workers claims for the tables of the mode or for a trial; workers that answer
/// the script tell none. Each count of faults must be able to rise, and the file's name must be one that `files` allows,
/// as `DirFiles` allows all.
///
/// The first event in the order of work decides the status: words, file, plan, the script's lines, tables. A fault of
/// `err` changes none, nor does the number of workers.
///
/// Cost: of each line what its edit or its question costs, and of the tables what they cost; memory for the file's
/// bytes, the plan, one line, and what the tables are made of.
pub fn run<F: Files, S: Source, O: Sink, E: Sink, G: Gate>(
    rt: &(impl Threads + Sync),
    alloc: Global,
    words: &[String],
    files: &mut F,
    script: &mut S,
    out: &mut O,
    err: &mut E,
    gate: &G,
) -> Status
    requires files_below { F.faults files.old < 2 ^ 64 - 1 }
    requires script_below { S.faults script.old < 2 ^ 64 - 1 }
    requires out_below { O.faults out.old < 2 ^ 64 - 1 }
    requires err_below { E.faults err.old < 2 ^ 64 - 1 }
    requires allowed { IfSome (file_of (options_given words.now)) (λ name. IsTrue (F.allows files.old name)) }

    // Where the bytes of the file and of the script are known: with 0 and 1 the whole output was written, and 1 tells
    // that a reply of it is `refused`.
    ensures output { HasOutput (options_given words.now) (F.holds files.old)
        (streams (F.left files.old) (S.left script.old) (O.written out.old)
        (faults (F.faults files.old) (S.faults script.old) (O.faults out.old)))
        (streams (F.left files.new) (S.left script.new) (O.written out.new)
        (faults (F.faults files.new) (S.faults script.new) (O.faults out.new)))
        result }

    // By the options and the status: what was taken of the plan's file and of the script, what was written, what failed.
    ensures ends { Ends (options_given words.now) (F.holds files.old)
        (streams (F.left files.old) (S.left script.old) (O.written out.old)
        (faults (F.faults files.old) (S.faults script.old) (O.faults out.old)))
        (streams (F.left files.new) (S.left script.new) (O.written out.new)
        (faults (F.faults files.new) (S.faults script.new) (O.faults out.new)))
        result }

    // By the status: what was said on standard error.
    ensures says { Says (known_file (options_given words.now) (F.holds files.old)) (F.left files.new)
        (E.written err.old) (E.written err.new) (E.faults err.old) (E.faults err.new) result }

    // Where nothing fails and the limits are kept, all is done or there is no memory.
    ensures complete { IsComplete (options_given words.now) (F.holds files.old)
        (streams (F.left files.old) (S.left script.old) (O.written out.old)
        (faults (F.faults files.old) (S.faults script.old) (O.faults out.old)))
        (streams (F.left files.new) (S.left script.new) (O.written out.new)
        (faults (F.faults files.new) (S.faults script.new) (O.faults out.new)))
        result }

    // No count of faults rose by more than one, so that another run may follow over the same streams.
    ensures once { RoseOnceAtMost (faults (F.faults files.old) (S.faults script.old) (O.faults out.old))
        (faults (F.faults files.new) (S.faults script.new) (O.faults out.new))
        (E.faults err.old) (E.faults err.new) }
{
    let status = answer(rt, alloc, words, files, script, out, err, gate);
    say(err, status);
    status
}
