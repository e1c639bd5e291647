// One arrow of a state's leaf, tested: it stays in its part, and the numbers fall as they must.
ghost use Rattle.std.specs.Prelude.{◌≡◌};
ghost use Rattle.site.specs.Refusals.{answered};
ghost use Rattle.site.specs.Grades.{grade_number};
ghost use Rattle.checker.specs.Checked.{covered_arrow, open_arrow};

use crate::descents::{keeps_numbers, keeps_rank};
use crate::leaves::Leaf;
use site::faults::Fault;
use site::grades::Grade;

// An arrow from the covered state `s` to the state whose leaf is `after`.
pub(crate) fn covered_arrow(s: usize, grade: Grade, rank: u16, after: Leaf) -> Result<(), Fault>
    ensures { answered result ≡ covered_arrow s (grade_number grade) rank after }
{
    let Leaf::Covered { rank: reached, .. } = after else {
        return Err(Fault::LeavesPart { state: s });
    };
    if keeps_rank(grade, rank, reached) {
        Ok(())
    } else {
        Err(Fault::NoDescent { state: s })
    }
}

// An arrow from the open state `s` to the state whose leaf is `after`.
pub(crate) fn open_arrow(s: usize, grade: Grade, here: (u16, u16), after: Leaf) -> Result<(), Fault>
    ensures { answered result ≡ open_arrow s (grade_number grade) here.0 here.1 after }
{
    let Leaf::Open { first, second } = after else {
        return Err(Fault::LeavesPart { state: s });
    };
    if keeps_numbers(grade, here, (first, second)) {
        Ok(())
    } else {
        Err(Fault::NoDescent { state: s })
    }
}
