//! The trial plan of two boxes, by hand, and the text of the largest.

use super::*;
use plan_text::print_plan;
use std::test::Fail;

const TWO: &str =
    "plan 1\nouter 0 0 200 0 200 200 0 200\ngrid 50 25 25 4 4\nobstacle b0 10 10 50 10 50 50 10 50\nobstacle b1 127 39 167 39 167 79 127 79\n";

/// How many bytes `examples/trial-250.plan` has after its note.
const BYTES_OF_THE_LARGEST: usize = 12043;

#[test]
fn two_boxes(rt: HostRuntime) -> Result<(), Fail> {
    let plan = trial(rt.alloc(), 2)?;
    let text = print_plan(rt.alloc(), &plan)?;
    assert_eq!(rt; text.as_slice(), TWO.as_bytes());
    Ok(())
}

/// The largest trial plan has the room, the grid and 250 boxes, and as many bytes as the file of examples.
#[test]
fn two_hundred_and_fifty_boxes(rt: HostRuntime) -> Result<(), Fail> {
    let plan = trial(rt.alloc(), MAX_TRIAL_BOXES)?;
    assert_eq!(rt; plan.items.as_slice().len(), 252);
    let text = print_plan(rt.alloc(), &plan)?;
    assert_eq!(rt; text.len(), BYTES_OF_THE_LARGEST);
    Ok(())
}
