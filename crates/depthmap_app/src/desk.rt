//! What answers the lines of a script: a session on the plan.

use dm_io::{NoGate, Sink};
use options_spec::Form;
use plan_answers::answer_line;
use plan_edit::Session;
use reports::ReportFault;
use script_loop::{AnswerFault, Answerer};
use std::alloc::Global;
use std::thread::Threads;

/// A session, and how its replies are made. Workers that answer the lines of a script tell no gate.
#[derive(Drop)]
pub struct Desk {
    pub alloc: Global,
    pub session: Session,
    pub form: Form,
}

impl Answerer for Desk {
    ghost use Rattle.depthmap_app.specs.Lines.{DeskState, desk, line_step};

    ghost State = { DeskState };

    ghost state = { λ a. desk a.session.plan a.form };

    ghost step = { line_step };

    fn answer<R: Threads + Sync, O: Sink>(
        &mut self,
        rt: &R,
        number: u64,
        line: Option<&[u8]>,
        out: &mut O,
    ) -> Result<bool, AnswerFault> {
        match answer_line(
            rt,
            self.alloc,
            &mut self.session,
            self.form,
            number,
            line,
            out,
            &NoGate,
        ) {
            Ok(refused) => Ok(refused),
            Err(ReportFault::Write) => Err(AnswerFault::Write),
            Err(ReportFault::NoMemory) => Err(AnswerFault::NoMemory),
        }
    }
}
