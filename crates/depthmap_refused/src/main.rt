//! The program again, stored with a run on a plan that is refused: it writes nothing and ends with 3.
#![tactic(auto)]

use depthmap_app::start;
use std::process::ExitCode;

fn main(rt: HostRuntime) -> ExitCode {
    start(&rt, rt)
}
