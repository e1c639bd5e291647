//! Reads a floor's table and then a book from standard input, and checks the book as a reader does before it loads it.
#![tactic(auto)]

use desk::books::LONGEST_BOOK;
use desk::failures::Failure;
use desk::floors::LONGEST_TABLE;
use desk::input::read_input;
use desk::verdicts::check_floor_book;
use std::process::ExitCode;

fn main(rt: HostRuntime) -> anyhow::Result<ExitCode> {
    // by one byte more than the longest table and the longest book have, a longer input shows
    let bytes = read_input(&rt, LONGEST_TABLE + LONGEST_BOOK + 1)?;
    match check_floor_book(rt.alloc(), bytes.as_slice()) {
        Ok(counts) => {
            println!(rt; "accepted, covered {} open {}", counts.covered, counts.open)?;
            Ok(ExitCode::SUCCESS)
        }
        Err(Failure::Refused(fault)) => {
            println!(rt; "{fault}")?;
            Ok(ExitCode::FAILURE)
        }
        Err(failure) => Err(failure.into()),
    }
}
