//! Reads a floor's table from standard input, plans it, and writes the book's bytes to standard output.
#![tactic(auto)]

use desk::books::book_floor;
use desk::failures::Failure;
use desk::floors::LONGEST_TABLE;
use desk::input::read_input;
use std::io::Write;
use std::process::ExitCode;

// `plan` has a `main` of this shape: one for both, lent the call as a closure, would be a public function with a condition
// on its caller and no promise of its own.
fn main(rt: HostRuntime) -> anyhow::Result<ExitCode> {
    // by one byte more than the longest table has, a longer input shows
    let bytes = read_input(&rt, LONGEST_TABLE + 1)?;
    match book_floor(rt.alloc(), bytes.as_slice()) {
        Ok(book) => {
            rt.stdout().write_all(book.as_slice())?;
            Ok(ExitCode::SUCCESS)
        }
        Err(Failure::Refused(fault)) => {
            println!(rt; "{fault}")?;
            Ok(ExitCode::FAILURE)
        }
        Err(failure) => Err(failure.into()),
    }
}
