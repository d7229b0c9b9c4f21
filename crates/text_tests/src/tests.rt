//! Worked lines and plans, with what is answered of each.

use plan_text::*;

/// How a cause is printed.
fn cause(why: TextWhy) -> &'static str {
    match why {
        TextWhy::Long => "long",
        TextWhy::Kind => "kind",
        TextWhy::Words => "words",
        TextWhy::Name => "name",
        TextWhy::Number => "number",
    }
}

/// What is answered of a line, in one word.
fn told(answer: Result<Line, ReadLineFault>) -> &'static str {
    match answer {
        Ok(Line::Blank) => "blank",
        Ok(Line::Edit(_)) => "edit",
        Ok(Line::Query(_)) => "question",
        Err(ReadLineFault::Bad(why)) => cause(why),
        Err(ReadLineFault::NoMemory) => "no memory",
    }
}

#[test]
fn lines_of_scripts(rt: HostRuntime) {
    let cases = [
        ("", "blank"),
        ("#add P 2", "blank"),
        ("  # a note", "blank"),
        ("add P 2 2 4 2 6 2 4 6", "edit"),
        ("add P 2 2 4", "words"),
        ("add A! x", "words"),
        ("add P 2 2 4 x", "number"),
        ("add P! 2 2 4 2 4 4", "name"),
        ("paint P", "kind"),
        ("addbox A 4 4 6 6", "edit"),
        ("remove A", "edit"),
        ("remove", "words"),
        ("move A 3 -3", "edit"),
        ("move A 3 --3", "number"),
        ("move A 3 1234567890", "number"),
        ("addscreen S 5 2 5 8", "edit"),
        ("addroute R 1 1 2 2", "edit"),
        ("removeroute R 1", "words"),
        ("show edges", "question"),
        ("show plan", "question"),
        ("show edge", "kind"),
        ("show", "words"),
        ("show edge now", "words"),
        ("depth\t000000001 -0", "question"),
        ("isovist 100001 0", "question"),
        ("turns R", "question"),
        ("box A 4 4 6 6", "kind"),
    ];
    for (line, wanted) in cases {
        assert_eq!(rt;
            told(read_line(rt.alloc(), line.as_bytes())),
            wanted,
            "at {line}"
        );
    }
}

#[test]
fn a_line_has_at_most_20000_bytes(rt: HostRuntime) {
    let mut line = Vec::new(rt.alloc());
    for _ in 0..20000 {
        assert!(rt; line.push(b'#').is_ok());
    }
    assert_eq!(rt; told(read_line(rt.alloc(), &line)), "blank");
    assert!(rt; line.push(b'#').is_ok());
    assert_eq!(rt; told(read_line(rt.alloc(), &line)), "long");
}

/// The last number of the lines, or the line at fault, and what is answered.
fn told_of_plan(answer: Result<PlanText, ReadPlanFault>) -> (u32, &'static str) {
    match answer {
        Ok(text) => match text.lines.as_slice().last() {
            Some(last) => (*last, "plan"),
            None => (0, "plan"),
        },
        Err(ReadPlanFault::Bad { line, why }) => (line, cause(why)),
        Err(ReadPlanFault::NoMemory) => (0, "no memory"),
    }
}

#[test]
fn texts_of_plans(rt: HostRuntime) {
    let cases = [
        ("", (1, "kind")),
        ("\n# a note\n", (3, "kind")),
        ("plan 1", (2, "plan")),
        ("plan 1\n\n", (3, "plan")),
        (
            "# a flat\r\n\nplan 1\r\nouterbox 0 0 10 10\r\n\tbox A 4 4 6 6",
            (6, "plan"),
        ),
        ("plan 1\nbox A 1 1 x", (2, "words")),
        ("plan 1\n# a note\nbox A 1 1 x 3", (3, "number")),
        ("plan 1\nbox A! 1 1 x 3", (2, "name")),
        ("plan 1\nadd A 1 1 2 2", (2, "kind")),
        ("plan 1\nplan 1", (2, "kind")),
        ("plan", (1, "kind")),
        ("plan 01", (1, "kind")),
        ("plan 1 x", (1, "kind")),
        ("plan 3", (1, "kind")),
        ("plan 1\nscreen S 5 2 5 8", (2, "kind")),
        ("plan 2\nscreen S 5 2 5 8", (3, "plan")),
        ("plan 1\nouter 1 2 3\ngrid", (2, "words")),
        ("plan 1\ngrid 1 2 3 4 5\nroute R 1 1 2 2\n", (4, "plan")),
    ];
    for (text, wanted) in cases {
        assert!(rt; text.len() <= MAX_PLAN_BYTES);
        assert_eq!(rt;
            told_of_plan(read_plan(rt.alloc(), text.as_bytes())),
            wanted,
            "at {text}"
        );
    }
}

#[test]
fn plans_are_printed(rt: HostRuntime) {
    let cases = [
        (
            "plan 1\nouterbox 0 0 10 10\nbox A 1 1 3 3\nbox B 5 5 7 7",
            "plan 1\nouter 0 0 10 0 10 10 0 10\nobstacle A 1 1 3 1 3 3 1 3\nobstacle B 5 5 7 5 7 7 5 7\n",
        ),
        (
            "plan 2\n# a note\nouter -5 0 5 0 0 0009\n\ngrid 1 -2 3 4 5\nroute R-1 1 1 -0 2",
            "plan 1\nouter -5 0 5 0 0 9\ngrid 1 -2 3 4 5\nroute R-1 1 1 0 2\n",
        ),
        (
            "plan 2\nscreen S 5 2 999999999 -999999999\n",
            "plan 2\nscreen S 5 2 999999999 -999999999\n",
        ),
    ];
    for (text, wanted) in cases {
        assert!(rt; text.len() <= MAX_PLAN_BYTES);
        let printed = match read_plan(rt.alloc(), text.as_bytes()) {
            Ok(read) => print_plan(rt.alloc(), &read.plan),
            Err(_) => Err(NoMemory),
        };
        match printed {
            Ok(bytes) => assert_eq!(rt; bytes.as_slice(), wanted.as_bytes()),
            Err(_) => assert!(rt; false, "not printed: {text}"),
        }
    }
}
