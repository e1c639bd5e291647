// Reading a watch: where it turns and what it shows.
ghost use Rattle.std.specs.Prelude.{◌≡◌, ◌+◌, ◌*◌, ◌<◌};
ghost use Rattle.watch.specs.Dials.{dial};
ghost use Rattle.site.specs.Grades.{grade_number};
ghost use Rattle.watch.specs.Watches.{turn as turning, show as showing};

use crate::watches::Watch;
use site::grades::Grade;

// The place of the entry for a position and a grade.
fn place_of(position: usize, grade: Grade) -> usize
    requires { position < 8 }
    ensures { result ≡ position * 3 + grade_number grade }
{
    position * 3 + usize::from(u8::from(grade))
}

impl Watch {
    // The position after `position`, over a state of this grade.
    pub(crate) fn turn(&self, position: usize, grade: Grade) -> usize
        requires { position < self.now.positions }
        ensures { result ≡ turning (dial self.now) position (grade_number grade) }
    {
        self.turns[place_of(position, grade)] as usize
    }

    // The grade shown in a position, over a state of this grade.
    pub(crate) fn show(&self, position: usize, grade: Grade) -> Grade
        requires { position < self.now.positions }
        ensures { grade_number result ≡ showing (dial self.now) position (grade_number grade) }
    {
        Grade::try_from(self.shows[place_of(position, grade)]).unwrap()
    }
}
