// Performs a script of calls on boards, and prints what came of each.
#![tactic(auto)]

use std::process::ExitCode;

fn main(rt: HostRuntime) -> ExitCode {
    console::program::main(&rt)
}
