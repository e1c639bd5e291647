// Why a call says no: one case for each refusal, with its number and its place.
ghost use Rattle.std.specs.Prelude.{◌≡◌, ◌≤◌, Some, IfOk};
ghost use Rattle.site.specs.Refusals.{number_of, place_of, told, refusal_text, long_enough};

use std::error::Error;
use std::fmt;

// The place is what the case holds, or 0 where it holds nothing.
#[derive(Clone, Copy, PartialEq, Eq, Debug)]
pub enum Fault {
    // bytes end before or inside the record that begins at `at`
    BytesEnd { at: usize },
    // the record at `at` has another kind than was due
    OtherKind { at: usize },
    // a table's number of states is out of range, or a book's is not the site's
    StateCount,
    // the row at `at` has no grade from 0 to 2
    GradeRange { at: usize },
    // the row at `at` has no command or event, or more than 16
    MoveCount { at: usize },
    // with the row at `at` the arrows would pass 16,384
    ArrowCount { at: usize },
    // the arrow at `at` leads to no state
    ArrowRange { at: usize },
    // bytes follow the last record, from `at` on
    SurplusBytes { at: usize },
    // a slice that was lent is shorter than `needed`
    TooShort { needed: usize },
    // the leaf or a reply of `state` names a move that the state lacks
    LeafMove { state: usize },
    // a number in the leaf of `state` is above its bound
    LeafBound { state: usize },
    // a move that the leaf of `state` allows leaves its part
    LeavesPart { state: usize },
    // a move that the leaf of `state` allows does not lower the numbers as it must
    NoDescent { state: usize },
    // the run record is blank
    Blank,
    // the site has no such state
    NoState { state: usize },
    // the state has no such event or command
    NoMove { number: usize },
    // a book round in an open state, or an objection round in a covered one
    OtherPart { state: usize },
    // a watch outside its ranges
    WatchRange,
    // a watch above a site that has too many states for it
    WatchFit { states: usize },
    // a drift site's step or loss bound outside its range
    DriftRange,
    // a site that is too large to be written as a table
    TableSize { states: usize },
}

impl Fault {
    pub fn number(&self) -> usize
        ensures { result ≡ number_of self.now }
    {
        match self {
            Fault::BytesEnd { .. } => 1,
            Fault::OtherKind { .. } => 2,
            Fault::StateCount => 3,
            Fault::GradeRange { .. } => 4,
            Fault::MoveCount { .. } => 5,
            Fault::ArrowCount { .. } => 6,
            Fault::ArrowRange { .. } => 7,
            Fault::SurplusBytes { .. } => 8,
            Fault::TooShort { .. } => 9,
            Fault::LeafMove { .. } => 10,
            Fault::LeafBound { .. } => 11,
            Fault::LeavesPart { .. } => 12,
            Fault::NoDescent { .. } => 13,
            Fault::Blank => 14,
            Fault::NoState { .. } => 15,
            Fault::NoMove { .. } => 16,
            Fault::OtherPart { .. } => 17,
            Fault::WatchRange => 18,
            Fault::WatchFit { .. } => 19,
            Fault::DriftRange => 20,
            Fault::TableSize { .. } => 21,
        }
    }

    pub fn place(&self) -> usize
        ensures { result ≡ place_of self.now }
    {
        match *self {
            Fault::BytesEnd { at }
            | Fault::OtherKind { at }
            | Fault::GradeRange { at }
            | Fault::MoveCount { at }
            | Fault::ArrowCount { at }
            | Fault::ArrowRange { at }
            | Fault::SurplusBytes { at } => at,
            Fault::TooShort { needed } => needed,
            Fault::LeafMove { state }
            | Fault::LeafBound { state }
            | Fault::LeavesPart { state }
            | Fault::NoDescent { state }
            | Fault::NoState { state }
            | Fault::OtherPart { state } => state,
            Fault::NoMove { number } => number,
            Fault::WatchFit { states } | Fault::TableSize { states } => states,
            Fault::StateCount | Fault::Blank | Fault::WatchRange | Fault::DriftRange => 0,
        }
    }
}

// A refusal is told to the reader by its number and its place.
impl fmt::Display for Fault {
    ghost output = { λ fault. Some (refusal_text (told fault)) };

    fn fmt<W: fmt::Write>(&self, f: &mut fmt::Formatter<W>) -> fmt::Result {
        write!(f, "refused {} at {}", self.number(), self.place())
    }
}

impl Error for Fault {}

// Refuses a slice of `len` entries where a call needs more.
pub fn enough(len: usize, needed: usize) -> Result<(), Fault>
    ensures answer { result ≡ long_enough len needed }
    ensures enough { IfOk result (λ _. needed ≤ len) }
{
    if len < needed {
        return Err(Fault::TooShort { needed });
    }
    Ok(())
}
