// A pair: a site's leaves and replies, lent for reading.
ghost use Rattle.std.specs.Prelude.{◌≡◌, ◌*◌, ◌<◌, ◌≤◌, length, Err, MatchResult};
ghost use Rattle.site.specs.Refusals.{told};
ghost use Rattle.checker.specs.Leaves.{leaf_at, reply_at, lending};

use crate::leaves::{Leaf, PLACES};
use site::faults::{Fault, enough};
use site::interface::Site;

// There are leaves and replies for every state of the site whenever a pair exists.
#[derive(Drop)]
pub(crate) struct Pair<'a, S: Site> {
    pub(crate) site: &'a S,
    pub(crate) leaves: &'a [Leaf],
    pub(crate) replies: &'a [u8],
    ghost enough_leaves: { (S.Site.arena site.now).states ≤ length leaves.now },
    ghost enough_replies: { 16 * (S.Site.arena site.now).states ≤ length replies.now },
}

impl<'a, S: Site> Pair<'a, S> {
    // Takes leaves and replies for a site, and refuses those that are too few.
    pub(crate) fn lent(
        site: &'a S,
        leaves: &'a [Leaf],
        replies: &'a [u8],
    ) -> Result<Pair<'a, S>, Fault>
        ensures { MatchResult result (λ pair. (pair.site.now ≡ site.now) × (pair.leaves.now ≡ leaves.now) × (pair.replies.now ≡ replies.now)) (λ fault. lending (S.Site.arena site.now).states leaves.now replies.now ≡ Err (told fault)) }
    {
        let states = site.states();
        enough(leaves.len(), states)?;
        enough(replies.len(), PLACES * states)?;
        Ok(Pair {
            site,
            leaves,
            replies,
        })
    }

    // The leaf of the state to which command `a` and event `b` lead.
    pub(crate) fn leaf_after(&self, s: usize, a: usize, b: usize) -> Leaf
        ensures { result ≡ leaf_at self.now.leaves.now ((S.Site.arena self.now.site.now).next s a b) }
    {
        let after = self.site.next(s, a, b);
        self.leaves[after]
    }

    // The reply of state `s` to command `a`.
    pub(crate) fn reply(&self, s: usize, a: usize) -> usize
        requires state { s < (S.Site.arena self.now.site.now).states }
        requires command { a < (S.Site.arena self.now.site.now).commands s }
        ensures { result ≡ reply_at self.now.replies.now s a }
    {
        self.replies[PLACES * s + a] as usize
    }
}
