// The record of a run: where it stands, and what its states have counted up to.
ghost use Rattle.std.specs.Prelude.{◌≡◌};
ghost use Rattle.site.specs.Grades.{grade_number};
ghost use Rattle.checker.specs.Rounds.{counted};

use site::grades::Grade;

// No `Option`: `Blank` says in a reader's words what `None` would not, and both variants take part in one match.
#[derive(Clone, Copy, PartialEq, Eq, Debug)]
pub enum Run {
    // nothing was placed yet
    Blank,
    // the present state, the confirmations since placing, the doubts since the last confirmed state and
    // the ordinary states in a row; each count stays at 65,535
    Placed {
        state: usize,
        confirmations: u16,
        doubts: u16,
        row: u16,
    },
}

impl Run {
    // Counts a state of the grade that was reached.
    pub(crate) fn count(&mut self, grade: Grade)
        ensures { self.new ≡ counted (grade_number grade) self.old }
    {
        match (self, grade) {
            (Run::Blank, _) => {}
            (
                Run::Placed {
                    confirmations,
                    doubts,
                    row,
                    ..
                },
                Grade::Confirmed,
            ) => {
                *confirmations = confirmations.saturating_add(1);
                *doubts = 0;
                *row = 0;
            }
            (Run::Placed { doubts, row, .. }, Grade::Doubted) => {
                *doubts = doubts.saturating_add(1);
                *row = 0;
            }
            (Run::Placed { row, .. }, Grade::Ordinary) => *row = row.saturating_add(1),
        }
    }
}
