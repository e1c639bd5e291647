// The open states, phase by phase: each phase takes out the states that cannot keep to the rest.
ghost use Rattle.std.specs.Prelude.{◌≡◌, ℕ, ◌<◌, ◌≤◌, true, false, length, if◌then◌else◌, ◌&&◌, ◌==◌};
ghost use Rattle.site.specs.Arena.{graded};
ghost use Rattle.site.specs.Counting.{some};
ghost use Rattle.parts.specs.Lifting.{at, none};
ghost use Rattle.parts.specs.Rows.{FirstRow, RankRow};
ghost use Rattle.parts.specs.Written.{lost};

use crate::lifting::{Lift, NONE};
use site::grades::Grade;
use site::interface::Site;

// How many states are doubted.
fn doubted<S: Site>(site: &S) -> usize
    ensures { result ≡ graded (S.Site.arena site.now) 1 }
{
    (0..site.states())
        .filter(|s| site.grade(*s) == Grade::Doubted)
        .count()
}

// Whether a state has no first number yet and its rank is `top`.
fn is_lost(top: u16, rank: u16, first: u16) -> bool
    ensures { result ≡ (first == none && rank == top) }
{
    first == NONE && rank == top
}

// Gives the number `i` to every state without a number whose rank is `top`; says whether there was one. The rows are not
// zipped: of a row that is written in a `zip` a proof knows its length alone.
fn mark(top: u16, i: u16, ranks: &[u16], firsts: &mut [u16]) -> bool
    requires { length ranks.now ≡ length firsts.old }
    ensures marked { (s : ℕ) → at firsts.new s ≡ (if lost top ranks.now firsts.old s then i else at firsts.old s) }
    ensures any { result ≡ some (lost top ranks.now firsts.old) (length firsts.old) }
{
    let mut any = false;
    for (s, first) in firsts.iter_mut().enumerate() {
        if is_lost(top, ranks[s], *first) {
            *first = i;
            any = true;
        }
    }
    any
}

// Works out first numbers and ranks from nothing, phase by phase; returns how many phases found open states. The marks
// are memory for lifting.
pub(crate) fn phases<S: Site>(
    site: &S,
    firsts: &mut [u16],
    ranks: &mut [u16],
    marks: &mut [u16],
) -> usize
    requires firsts { length firsts.old ≡ (S.Site.arena site.now).states }
    requires ranks { length ranks.old ≡ (S.Site.arena site.now).states }
    ensures firsts { FirstRow (S.Site.arena site.now) result firsts.new }
    ensures ranks { RankRow (S.Site.arena site.now) ranks.new }
{
    firsts.fill(NONE);
    ranks.fill(0);
    let n = site.states();
    let top = doubted(site) as u16 + 1;
    for i in 0..n + 1 {
        let lift = Lift { site, firsts, top };
        lift.settle(ranks, marks);
        if !mark(top, i as u16, ranks, firsts) {
            return i;
        }
    }
    n + 1
}
