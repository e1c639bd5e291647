// The check of leaves and replies against a site.
ghost use Rattle.std.specs.Prelude.{◌≡◌, is_ok, Decides};
ghost use Rattle.site.specs.Refusals.{answered};
ghost use Rattle.checker.specs.Witness.{Accepted};
ghost use Rattle.checker.specs.Checked.{checked};
ghost use Rattle.checker.specs.RunLaws.{RunLaw, SameCover};

use crate::leaves::{Counts, Leaf};
use crate::rules::Check;
use site::faults::Fault;
use site::interface::Site;

// Tests every state's leaf from state 0 on, and says how many states are covered and how many open, or
// what is wrong at the first that fails. Its yes means that the leaves and replies are accepted; then every
// run by them keeps the promises of its part, and whatever else is accepted covers the same states.
pub fn check<S: Site>(site: &S, leaves: &[Leaf], replies: &[u8]) -> Result<Counts, Fault>
    ensures outcome { answered result ≡ checked (S.Site.arena site.now) leaves.now replies.now }
    ensures law { Decides (is_ok result) (Accepted (S.Site.arena site.now) leaves.now replies.now) }
    ensures runs { RunLaw (S.Site.arena site.now) }
    ensures cover { SameCover (S.Site.arena site.now) }
{
    let check = Check::lent(site, leaves, replies)?;
    let mut counts = Counts::default();
    for (s, leaf) in leaves[..site.states()].iter().enumerate() {
        check.keeps_rule(s, *leaf)?;
        match leaf {
            Leaf::Covered { .. } => counts.covered += 1,
            Leaf::Open { .. } => counts.open += 1,
        }
    }
    Ok(counts)
}
