// The grade of a state: whether it confirms the certificate, puts it in doubt, or does neither.
ghost use Rattle.std.specs.Prelude.{◌≡◌, Some};
ghost use Rattle.site.specs.Grades.{grade_number, grade_numbered, no_grade_text};

use std::error::Error;
use std::fmt;

// The variants stand in the order of their numbers, 0, 1 and 2.
#[derive(Clone, Copy, PartialEq, Eq, Debug, Default)]
pub enum Grade {
    Confirmed,
    Doubted,
    #[default]
    Ordinary,
}

// A number that is no grade's.
#[derive(Clone, Copy, PartialEq, Eq, Debug)]
pub struct NoGrade {
    pub number: u8,
}

impl From<Grade> for u8 {
    ghost from_gives = { λ grade number. number ≡ grade_number grade };

    fn from(grade: Grade) -> u8 {
        grade as u8
    }
}

impl TryFrom<u8> for Grade {
    type Error = NoGrade;

    ghost try_from_gives = { λ number answer. answer ≡ grade_numbered number };

    fn try_from(number: u8) -> Result<Grade, NoGrade> {
        match number {
            0 => Ok(Grade::Confirmed),
            1 => Ok(Grade::Doubted),
            2 => Ok(Grade::Ordinary),
            _ => Err(NoGrade { number }),
        }
    }
}

impl fmt::Display for NoGrade {
    ghost output = { λ none. Some (no_grade_text none) };

    fn fmt<W: fmt::Write>(&self, f: &mut fmt::Formatter<W>) -> fmt::Result {
        write!(f, "no grade has the number {}", self.number)
    }
}

impl Error for NoGrade {}
