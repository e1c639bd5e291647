//! Reads a floor's table from standard input, plans it, checks the plan and lists it.
#![tactic(auto)]

use desk::failures::Failure;
use desk::floors::LONGEST_TABLE;
use desk::input::read_input;
use desk::listings::list_floor;
use std::io::Write;
use std::process::ExitCode;

fn main(rt: HostRuntime) -> anyhow::Result<ExitCode> {
    // by one byte more than the longest table has, a longer input shows
    let bytes = read_input(&rt, LONGEST_TABLE + 1)?;
    match list_floor(rt.alloc(), bytes.as_slice()) {
        Ok(lines) => {
            rt.stdout().write_all(lines.as_slice())?;
            Ok(ExitCode::SUCCESS)
        }
        Err(Failure::Refused(fault)) => {
            println!(rt; "{fault}")?;
            Ok(ExitCode::FAILURE)
        }
        Err(failure) => Err(failure.into()),
    }
}
