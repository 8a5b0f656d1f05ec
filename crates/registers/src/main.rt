// The program `panel` on a script that goes through the registers of both devices.
#![tactic(auto)]

use std::process::ExitCode;

fn main(rt: HostRuntime) -> ExitCode {
    console::program::main(&rt)
}
