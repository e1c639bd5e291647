// How ranks and numbers fall along an arrow: the rules by which a pair is made and checked.
ghost use Rattle.std.specs.Prelude.{◌≡◌};
ghost use Rattle.site.specs.Grades.{grade_number};
ghost use Rattle.checker.specs.Checked.{rank_kept, numbers_kept};

use site::grades::Grade;

// Whether the rank after `rank` keeps the rule of a state of this grade.
pub fn keeps_rank(grade: Grade, rank: u16, after: u16) -> bool
    ensures { result ≡ rank_kept (grade_number grade) rank after }
{
    match grade {
        Grade::Confirmed => true,
        Grade::Doubted => after < rank,
        Grade::Ordinary => after <= rank,
    }
}

// Whether the numbers `after` keep the rule of a state of this grade with the numbers `here`.
pub fn keeps_numbers(grade: Grade, here: (u16, u16), after: (u16, u16)) -> bool
    ensures { result ≡ numbers_kept (grade_number grade) here.0 here.1 after.0 after.1 }
{
    match grade {
        Grade::Confirmed => after.0 < here.0,
        Grade::Doubted => after.0 <= here.0,
        Grade::Ordinary => after < here,
    }
}
