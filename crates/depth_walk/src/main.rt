//! The command `depth_walk`: all that it does is `start` of `walk_app`.
#![tactic(auto)]

use std::process::ExitCode;
use walk_app::start;

fn main(rt: HostRuntime) -> ExitCode {
    start(&rt, rt)
}
