//! Words of the command, and the texts that they give.

ghost use Rattle.std.specs.Prelude.{◌≡◌, ◌↔◌, IsTrue};

use crate::arguments::texts_of;
use options_spec::{Given, GivenText};
use std::test::Fail;

/// Words, and the texts that they give, if they are taken.
type Row = (&'static [&'static str], Option<Given<'static>>);

/// A mode and a file alone.
fn both(mode: &'static str, file: &'static str) -> Option<Given<'static>> {
    Some(Given {
        mode: Some(GivenText::of(mode)),
        file: Some(GivenText::of(file)),
        workers: None,
        format: None,
        number: None,
    })
}

/// Whether two texts are the same, where they were given.
fn is_same(given: &Option<GivenText<'_>>, wanted: &Option<GivenText<'_>>) -> bool
    ensures same { IsTrue result ↔ given.now ≡ wanted.now }
{
    match (given, wanted) {
        (None, None) => true,
        (Some(given), Some(wanted)) => given.as_str() == wanted.as_str(),
        _ => false,
    }
}

/// Whether the texts are the same.
fn are_same(given: &Option<Given<'_>>, wanted: &Option<Given<'_>>) -> bool
    ensures same { IsTrue result ↔ given.now ≡ wanted.now }
{
    match (given, wanted) {
        (None, None) => true,
        (Some(given), Some(wanted)) => {
            is_same(&given.mode, &wanted.mode)
                && is_same(&given.file, &wanted.file)
                && is_same(&given.workers, &wanted.workers)
                && is_same(&given.format, &wanted.format)
                && is_same(&given.number, &wanted.number)
        }
        _ => false,
    }
}

#[test]
fn words_are_taken_or_refused(rt: HostRuntime) -> Result<(), Fail> {
    let nothing = Some(Given {
        mode: None,
        file: None,
        workers: None,
        format: None,
        number: None,
    });
    let trial = Some(Given {
        mode: Some(GivenText::of("TRIAL")),
        file: None,
        workers: None,
        format: None,
        number: Some(GivenText::of("7")),
    });
    let four_workers = Some(Given {
        mode: Some(GivenText::of("VGA")),
        file: Some(GivenText::of("p")),
        workers: Some(GivenText::of("4")),
        format: Some(GivenText::of("csv")),
        number: None,
    });
    let table: [Row; 34] = [
        (&["-m", "VGA", "-f", "plan.txt"], both("VGA", "plan.txt")),
        (&["-f", "plan.txt", "--mode=VGA"], both("VGA", "plan.txt")),
        (&["--mode", "VGA", "--file", "p"], both("VGA", "p")),
        (&["-mVGA", "-fp"], both("VGA", "p")),
        (&["-m=VGA", "-f", "p"], both("VGA", "p")),
        (&["-m==VGA", "-f", "p"], both("=VGA", "p")),
        (&["-f", "-", "-m", "VGA"], both("VGA", "-")),
        (&["-f-x", "-m", "VGA"], both("VGA", "-x")),
        (&["--file=-x", "-m", "VGA"], both("VGA", "-x")),
        (&["-m", "VGA", "-f", ""], both("VGA", "")),
        (&["-m", "VGA", "-f="], both("VGA", "")),
        (&["-m", "VGA", "-f", "p", "--"], both("VGA", "p")),
        (
            &["--workers", "4", "-m", "VGA", "-f", "p", "--format=csv"],
            four_workers,
        ),
        (&["-m", "TRIAL", "--number", "7"], trial),
        (&[], nothing),
        (&["-m", "VGA", "-f", "-x"], None),
        (&["-m", "VGA", "-f", "--"], None),
        (&["-f", "a", "-f", "b"], None),
        (&["-m", "VGA", "--mode", "VGA"], None),
        (&["-f", "p", "-m", "VGA", "-m", "CHECK"], None),
        (&["--workers", "4", "--workers=4"], None),
        (&["--mod", "VGA"], None),
        (&["-mode", "VGA", "-f", "p"], None),
        (&["-m", "VGA", "-f", "p", "--", "x"], None),
        (&["VGA"], None),
        (&["-"], None),
        (&["-x"], None),
        (&["-w", "4"], None),
        (&["--help"], None),
        (&["-h"], None),
        (&["--version"], None),
        (&["help"], None),
        (&["-m"], None),
        (&["-m", "VGA", "--file"], None),
    ];
    for (words, wanted) in table {
        assert!(rt; are_same(&texts_of(rt.alloc(), words)?, &wanted));
    }
    Ok(())
}
