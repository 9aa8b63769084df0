//! The command `hdt`, which hdt_tool implements.
#![tactic(auto)]

use hdt_tool::{collect_arguments, process_status};
use std::env;
use std::process::ExitCode;

fn main(rt: HostRuntime) -> ExitCode {
    let arguments = collect_arguments(rt.alloc(), env::args(&rt));
    ExitCode::from(process_status(&rt, arguments))
}
