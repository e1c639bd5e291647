// The rule of one leaf at its state, tested arrow by arrow.
ghost use Rattle.std.specs.Prelude.{◌≡◌, ◌<◌, Err, MatchResult};
ghost use Rattle.site.specs.Refusals.{told, answered};
ghost use Rattle.checker.specs.Checked.{covered_tested, open_tested, leaf_tested};
ghost use Rattle.checker.specs.Bounded.{Bounded};
ghost use Rattle.checker.specs.Leaves.{lending};

use crate::arrows::{covered_arrow, open_arrow};
use crate::bounding::{Bounds, bounds_of};
use crate::leaves::Leaf;
use crate::pairs::Pair;
use site::faults::Fault;
use site::interface::Site;

// A pair that is tested, with the bounds of its numbers.
#[derive(Drop)]
pub(crate) struct Check<'a, S: Site> {
    pair: Pair<'a, S>,
    bounds: Bounds,
    ghost bounded: { Bounded (S.Site.arena pair.site.now) bounds },
}

impl<'a, S: Site> Check<'a, S> {
    // Takes leaves and replies for a site to test them, and refuses those that are too few.
    pub(crate) fn lent(
        site: &'a S,
        leaves: &'a [Leaf],
        replies: &'a [u8],
    ) -> Result<Check<'a, S>, Fault>
        ensures { MatchResult result (λ check. (check.pair.site.now ≡ site.now) × (check.pair.leaves.now ≡ leaves.now) × (check.pair.replies.now ≡ replies.now)) (λ fault. lending (S.Site.arena site.now).states leaves.now replies.now ≡ Err (told fault)) }
    {
        let pair = Pair::lent(site, leaves, replies)?;
        let bounds = bounds_of(site);
        Ok(Check { pair, bounds })
    }

    // The covered leaf of state `s`: one command against every event.
    fn covered_leaf(&self, s: usize, command: u8, rank: u16) -> Result<(), Fault>
        ensures { answered result ≡ covered_tested (S.Site.arena self.now.pair.site.now) self.now.pair.leaves.now s command rank }
    {
        let site = self.pair.site;
        let command = command as usize;
        if command >= site.commands(s) {
            return Err(Fault::LeafMove { state: s });
        }
        if rank as usize > self.bounds.doubted {
            return Err(Fault::LeafBound { state: s });
        }
        let grade = site.grade(s);
        for event in 0..site.events(s) {
            covered_arrow(s, grade, rank, self.pair.leaf_after(s, command, event))?;
        }
        Ok(())
    }

    // The open leaf of state `s`, with its two numbers: every command against the one event of its reply.
    fn open_leaf(&self, s: usize, numbers: (u16, u16)) -> Result<(), Fault>
        requires { s < (S.Site.arena self.now.pair.site.now).states }
        ensures { answered result ≡ open_tested (S.Site.arena self.now.pair.site.now) self.now.pair.leaves.now self.now.pair.replies.now s numbers.0 numbers.1 }
    {
        let (first, second) = numbers;
        if first as usize > self.bounds.confirmed || second as usize > self.bounds.ordinary {
            return Err(Fault::LeafBound { state: s });
        }
        let site = self.pair.site;
        let grade = site.grade(s);
        let events = site.events(s);
        for command in 0..site.commands(s) {
            let event = self.pair.reply(s, command);
            if event >= events {
                return Err(Fault::LeafMove { state: s });
            }
            open_arrow(s, grade, numbers, self.pair.leaf_after(s, command, event))?;
        }
        Ok(())
    }

    // The leaf of state `s`, by its part.
    pub(crate) fn keeps_rule(&self, s: usize, leaf: Leaf) -> Result<(), Fault>
        requires { s < (S.Site.arena self.now.pair.site.now).states }
        ensures { answered result ≡ leaf_tested (S.Site.arena self.now.pair.site.now) self.now.pair.leaves.now self.now.pair.replies.now s leaf }
    {
        match leaf {
            Leaf::Covered { command, rank } => self.covered_leaf(s, command, rank),
            Leaf::Open { first, second } => self.open_leaf(s, (first, second)),
        }
    }
}
