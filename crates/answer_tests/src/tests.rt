//! The replies to a script over a small plan, the tables of each mode, and a trial. What is expected is what an
//! independent program prints.

use dm_io::{MemSink, NoGate};
use options_spec::{Form, Mode};
use plan_answers::{answer_line, put_mode, put_trial_of};
use plan_check::check;
use plan_edit::Session;
use plan_text::read_plan;
use std::alloc::Global;
use std::process::Abort;
use std::test::Fail;
use std::thread::Threads;

/// A room with a box and two routes that cross.
const ROOM: &str = "\
    plan 1\n\
    outerbox 0 0 100 100\n\
    box A 40 40 60 60\n\
    route R 0 10 100 10\n\
    route S 50 0 50 30\n\
    grid 50 25 25 2 2\n";

/// Lines of a script, each with its reply.
const SCRIPT: [(&str, &str); 25] = [
    (
        "show edges",
        "ok 1\ntable edges\n0 1\n0 2\n1 3\n2 3\nend 4\n",
    ),
    (
        "show points",
        "\
         ok 2\n\
         table points\n\
         0 25 25 2 4 4 4/3 1/3\n\
         1 75 25 2 4 4 4/3 1/3\n\
         2 25 75 2 4 4 4/3 1/3\n\
         3 75 75 2 4 4 4/3 1/3\n\
         end 4\n",
    ),
    ("", ""),
    ("# nothing", ""),
    (
        "depth 25 25",
        "ok 5\ntable depth\n0 0\n1 1\n2 1\n3 2\nend 4\n",
    ),
    ("depth 26 25", "refused 6 nopoint\n"),
    ("isovist 50 50", "refused 7 closed\n"),
    ("isovist 200000 0", "refused 8 range\n"),
    (
        "isovist 10 10",
        "\
         ok 9\n\
         table isovist\n\
         60/1 40/1 40/1 40/1 600/1\n\
         40/1 40/1 40/1 60/1 600/1\n\
         64/1 100/1 0/1 100/1 5760/1\n\
         0/1 100/1 0/1 0/1 1000/1\n\
         0/1 0/1 100/1 0/1 1000/1\n\
         100/1 0/1 100/1 64/1 5760/1\n\
         total 14720 14720\n\
         end 6\n",
    ),
    (
        "turns R",
        "ok 10\ntable turns\n0 0\n1 0\n2 8\n3 8\ntotal 4 16 16/3\nend 4\n",
    ),
    ("turns X", "refused 11 missing\n"),
    (
        "show segments",
        "\
         ok 12\n\
         table segments\n\
         0 R 0/1 10/1 50/1 10/1 3\n\
         1 R 50/1 10/1 100/1 10/1 3\n\
         2 S 50/1 0/1 50/1 10/1 3\n\
         3 S 50/1 10/1 50/1 30/1 3\n\
         end 4\n",
    ),
    (
        "show plan",
        "\
         ok 13\n\
         table plan\n\
         plan 1\n\
         outer 0 0 100 0 100 100 0 100\n\
         grid 50 25 25 2 2\n\
         obstacle A 40 40 60 40 60 60 40 60\n\
         route R 0 10 100 10\n\
         route S 50 0 50 30\n\
         end 6\n",
    ),
    ("remove B", "refused 14 missing\n"),
    ("removeroute S", "ok 15\n"),
    ("addbox B 20 20 30 30", "ok 16\n"),
    ("depth 25 25", "refused 17 closed\n"),
    ("show edges", "ok 18\ntable edges\n1 3\n2 3\nend 2\n"),
    ("remove A", "ok 19\n"),
    ("move B 500 0", "refused 20 outside\n"),
    ("hello", "refused 21 kind\n"),
    ("show foo", "refused 22 kind\n"),
    ("remove B", "ok 23\n"),
    (
        "show axial",
        "\
         ok 24\n\
         table axial\n\
         0 0 1 0/1 0/1 100/1 0/1\n\
         1 0 2 0/1 0/1 100/1 100/1\n\
         2 0 3 0/1 0/1 0/1 100/1\n\
         3 1 2 100/1 0/1 100/1 100/1\n\
         4 1 3 100/1 0/1 0/1 100/1\n\
         5 2 3 100/1 100/1 0/1 100/1\n\
         end 6\n",
    ),
    (
        "show lines",
        "\
         ok 25\n\
         table lines\n\
         0 4 6 6 6/5 1/10\n\
         1 5 6 5 1/1 0/1\n\
         2 4 6 6 6/5 1/10\n\
         3 4 6 6 6/5 1/10\n\
         4 5 6 5 1/1 0/1\n\
         5 4 6 6 6/5 1/10\n\
         end 6\n",
    ),
];

/// A room with nothing in it.
const EMPTY: &str = "plan 1\nouterbox 0 0 100 100\n";

/// Plans with the tables of a mode, in a form.
const TABLES: [(&str, Mode, Form, &str); 5] = [
    (
        ROOM,
        Mode::Vga,
        Form::Csv,
        "\
         table,edges\n\
         0,1\n\
         0,2\n\
         1,3\n\
         2,3\n\
         end,4\n\
         table,points\n\
         0,25,25,2,4,4,4/3,1/3\n\
         1,75,25,2,4,4,4/3,1/3\n\
         2,25,75,2,4,4,4/3,1/3\n\
         3,75,75,2,4,4,4/3,1/3\n\
         end,4\n",
    ),
    (
        ROOM,
        Mode::Isovists,
        Form::Text,
        "\
         table isovists\n\
         0 6 14170 14172\n\
         1 6 14170 14172\n\
         2 6 14170 14172\n\
         3 6 14170 14172\n\
         end 4\n",
    ),
    (
        EMPTY,
        Mode::AxialMap,
        Form::Text,
        "\
         table axial\n\
         0 0 1 0/1 0/1 100/1 0/1\n\
         1 0 2 0/1 0/1 100/1 100/1\n\
         2 0 3 0/1 0/1 0/1 100/1\n\
         3 1 2 100/1 0/1 100/1 100/1\n\
         4 1 3 100/1 0/1 0/1 100/1\n\
         5 2 3 100/1 100/1 0/1 100/1\n\
         end 6\n\
         table lines\n\
         0 4 6 6 6/5 1/10\n\
         1 5 6 5 1/1 0/1\n\
         2 4 6 6 6/5 1/10\n\
         3 4 6 6 6/5 1/10\n\
         4 5 6 5 1/1 0/1\n\
         5 4 6 6 6/5 1/10\n\
         end 6\n",
    ),
    (
        ROOM,
        Mode::Segments,
        Form::Csv,
        "\
         table,segments\n\
         0,R,0/1,10/1,50/1,10/1,3\n\
         1,R,50/1,10/1,100/1,10/1,3\n\
         2,S,50/1,0/1,50/1,10/1,3\n\
         3,S,50/1,10/1,50/1,30/1,3\n\
         end,4\n",
    ),
    (
        ROOM,
        Mode::Check,
        Form::Text,
        "\
         table plan\n\
         plan 1\n\
         outer 0 0 100 0 100 100 0 100\n\
         grid 50 25 25 2 2\n\
         obstacle A 40 40 60 40 60 60 40 60\n\
         route R 0 10 100 10\n\
         route S 50 0 50 30\n\
         end 6\n",
    ),
];

fn session_of(rt: &impl Abort, alloc: Global, plan: &str) -> Session {
    let bytes = plan.as_bytes();
    assert!(rt; bytes.len() < 1000);
    let Ok(text) = read_plan(alloc, bytes) else {
        panic!(rt; "the plan is read");
    };
    let Ok(plan) = check(alloc, &text.plan) else {
        panic!(rt; "the plan is accepted");
    };
    match Session::begin(alloc, plan, 2) {
        Ok(session) => session,
        Err(_) => panic!(rt; "there is memory"),
    }
}

fn sink(alloc: Global) -> Result<MemSink, Fail> {
    Ok(MemSink::new(alloc, 8192, 8192, Vec::new(alloc))?)
}

#[test]
fn each_line_has_its_reply(rt: HostRuntime) -> Result<(), Fail> {
    let alloc = rt.alloc();
    let mut session = session_of(&rt, alloc, ROOM);
    let mut number = 1u64;
    for (line, reply) in SCRIPT {
        let mut out = sink(alloc)?;
        let shown = Some(line.as_bytes());
        let answer = answer_line(
            &rt,
            alloc,
            &mut session,
            Form::Text,
            number,
            shown,
            &mut out,
            &NoGate,
        );
        assert!(&rt; out.bytes() == reply.as_bytes(), "{line}");
        assert!(&rt; answer == Ok(reply.starts_with("refused")), "{line}");
        number = number.wrapping_add(1);
    }
    Ok(())
}

#[test]
fn each_mode_has_its_tables(rt: HostRuntime) -> Result<(), Fail> {
    let alloc = rt.alloc();
    for (plan, mode, form, tables) in TABLES {
        let mut session = session_of(&rt, alloc, plan);
        let mut out = sink(alloc)?;
        let answer = put_mode(&rt, alloc, &mut session, form, mode, &mut out, &NoGate);
        assert!(&rt; out.bytes() == tables.as_bytes());
        assert!(&rt; answer == Ok(false));
    }
    Ok(())
}

#[test]
fn a_trial_has_its_record(rt: HostRuntime) -> Result<(), Fail> {
    let alloc = rt.alloc();
    let mut out = sink(alloc)?;
    assert!(&rt; put_trial_of(&rt, alloc, &mut out, Form::Csv, 2, 3, &NoGate).is_ok());
    assert!(&rt; out.bytes() == b"trial,3,points,16,open,15,edges,65,depth,290\n".as_slice());
    Ok(())
}
