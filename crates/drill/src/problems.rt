// Why a drill cannot be played: what failed below, a bad script, or want of a floor or of input.
ghost use Rattle.std.specs.Prelude.{◌≡◌, Some};
ghost use Rattle.drill.specs.Problems.{problem_text, refuses};
ghost use Rattle.desk.specs.declared.failures.Failure.TheVariants as failure;
ghost use Rattle.drill.specs.declared.problems.Problem.TheVariants.{Failed, NoInput};

use desk::failures::Failure;
use site::faults::Fault;
use std::alloc::AllocError;
use std::error::Error;
use std::{fmt, io};

#[derive(Clone, Copy, PartialEq, Eq, Debug)]
pub enum Problem {
    Failed(Failure),
    // the script has no call in this line
    BadLine(usize),
    // no floor was named
    NoFloor,
    NoInput,
}

impl Problem {
    // Whether the floor or the script is at fault, and not the way the program was started or the machine.
    pub fn is_refusal(self) -> bool
        ensures { result ≡ refuses self }
    {
        matches!(
            self,
            Problem::Failed(Failure::Refused(_)) | Problem::BadLine(_)
        )
    }
}

impl fmt::Display for Problem {
    ghost output = { λ problem. Some (problem_text problem) };

    fn fmt<W: fmt::Write>(&self, f: &mut fmt::Formatter<W>) -> fmt::Result {
        match self {
            Problem::Failed(failure) => write!(f, "{failure}"),
            Problem::BadLine(line) => {
                write!(
                    f,
                    "line {line} is no call: write place, book or objection and a number"
                )
            }
            Problem::NoFloor => f.write_str("usage: drill FLOOR < SCRIPT"),
            Problem::NoInput => f.write_str("the floor or the script cannot be read"),
        }
    }
}

impl Error for Problem {}

impl From<Failure> for Problem {
    ghost from_gives = { λ f r. r ≡ Failed f };

    fn from(failure: Failure) -> Problem {
        Problem::Failed(failure)
    }
}

impl From<Fault> for Problem {
    ghost from_gives = { λ f r. r ≡ Failed (failure.Refused f) };

    fn from(fault: Fault) -> Problem {
        Problem::Failed(fault.into())
    }
}

impl From<AllocError> for Problem {
    ghost from_gives = { λ _ r. r ≡ Failed failure.NoMemory };

    fn from(error: AllocError) -> Problem {
        Problem::Failed(error.into())
    }
}

impl From<io::Error> for Problem {
    ghost from_gives = { λ _ r. r ≡ NoInput };

    fn from(_e: io::Error) -> Problem {
        Problem::NoInput
    }
}
