// How many states of each grade a site has: the bounds of the numbers in leaves.
ghost use Rattle.std.specs.Prelude.{◌≡◌};
ghost use Rattle.checker.specs.Bounded.{Bounded};

use site::grades::Grade;
use site::interface::Site;

#[derive(Clone, Copy, Default)]
pub(crate) struct Bounds {
    pub(crate) confirmed: usize,
    pub(crate) doubted: usize,
    pub(crate) ordinary: usize,
}

// The grades of the states, counted.
pub(crate) fn bounds_of<S: Site>(site: &S) -> Bounds
    ensures { Bounded (S.Site.arena site.now) result }
{
    let mut bounds = Bounds::default();
    for s in 0..site.states() {
        match site.grade(s) {
            Grade::Confirmed => bounds.confirmed += 1,
            Grade::Doubted => bounds.doubted += 1,
            Grade::Ordinary => bounds.ordinary += 1,
        }
    }
    bounds
}
