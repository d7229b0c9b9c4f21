//! The command `depthmap`: all that it does is `start` of `depthmap_app`.
#![tactic(auto)]

use depthmap_app::start;
use std::process::ExitCode;

fn main(rt: HostRuntime) -> ExitCode {
    start(&rt, rt)
}
