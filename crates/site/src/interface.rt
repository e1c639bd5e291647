// The interface of every site: five questions, each promised to answer from the site's meaning.
ghost use Rattle.std.specs.Prelude.{◌≡◌};
ghost use Rattle.site.specs.Arena.{Arena, Lawful};
ghost use Rattle.site.specs.Grades.{grade_number};

use crate::grades::Grade;

// How many states a site can have.
pub const MOST_STATES: usize = 8192;

// A site is whatever answers these questions. Its writer gives the meaning, an arena, and shows that
// the arena keeps every range; no question is refused, and none alters the site.
pub trait Site {
    // what the site means
    ghost arena: { Self → Arena };

    // the meaning keeps the ranges of sites, and is 0 at every number out of range
    ghost lawful: { (x : Self) → Lawful (arena x) };

    // How many states there are.
    fn states(&self) -> usize
        ensures { result ≡ (arena self.now).states };

    // The grade of state `s`; grade 0 where there is no such state.
    fn grade(&self, s: usize) -> Grade
        ensures { grade_number result ≡ (arena self.now).grade s };

    // How many commands state `s` has; 0 where there is no such state.
    fn commands(&self, s: usize) -> usize
        ensures { result ≡ (arena self.now).commands s };

    // How many events state `s` has; 0 where there is no such state.
    fn events(&self, s: usize) -> usize
        ensures { result ≡ (arena self.now).events s };

    // Where command `a` and event `b` lead from state `s`; 0 where `s` has no such command or event.
    fn next(&self, s: usize, a: usize, b: usize) -> usize
        ensures { result ≡ (arena self.now).next s a b };
}
