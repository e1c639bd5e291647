// The leaves and replies that go with the numbers, written into the caller's slices.
ghost use Rattle.std.specs.Prelude.{◌≡◌, ◌+◌, ◌*◌, ◌<◌, ◌≤◌, length, if◌then◌else◌, slice_set};
ghost use Rattle.site.specs.Laid.{laid};
ghost use Rattle.planner.specs.Choices.{chosen_leaf, chosen_replies, leaves_written, replies_written};
ghost use Rattle.planner.specs.Planned.{parts_counted};
ghost use Rattle.planner.specs.Rows.{numbers_in};

use crate::numbered::Numbered;
use checker::leaves::{Counts, Leaf, PLACES};
use site::interface::Site;

impl<'a, S: Site> Numbered<'a, S> {
    // The leaf of state `s`.
    fn leaf(&self, s: usize) -> Leaf
        requires { s < (S.Site.arena self.now.site.now).states }
        ensures { result ≡ chosen_leaf (S.Site.arena self.now.site.now) (numbers_in self.now.rows) s }
    {
        match self.first(s) {
            Some(first) => Leaf::Open {
                first,
                second: self.second(s),
            },
            None => Leaf::Covered {
                command: self.lowest_command(s) as u8,
                rank: self.rank(s),
            },
        }
    }

    // Writes the replies of the open state `s` over the front of its part of the reply slice.
    fn write_replies(&self, s: usize, replies: &mut [u8])
        requires state { s < (S.Site.arena self.now.site.now).states }
        requires room { 16 ≤ length replies.old }
        ensures { replies.new ≡ laid 0 (chosen_replies (S.Site.arena self.now.site.now) (numbers_in self.now.rows) s) replies.old }
    {
        let commands = self.site.commands(s);
        let own = &mut replies[..commands];
        for (a, reply) in own.iter_mut().enumerate() {
            *reply = self.lowest_event(s, a) as u8;
        }
    }

    // Writes the leaf of state `s`, and its replies where it is open; says whether it is covered.
    fn write_state(&self, s: usize, leaves: &mut [Leaf], replies: &mut [u8]) -> bool
        requires state { s < (S.Site.arena self.now.site.now).states }
        requires leaves { s < length leaves.old }
        requires replies { 16 * s + 16 ≤ length replies.old }
        ensures covered { result ≡ (numbers_in self.now.rows).covered s }
        ensures leaves { leaves.new ≡ slice_set leaves.old s (chosen_leaf (S.Site.arena self.now.site.now) (numbers_in self.now.rows) s) }
        ensures replies { replies.new ≡ (if (numbers_in self.now.rows).covered s then replies.old else laid (16 * s) (chosen_replies (S.Site.arena self.now.site.now) (numbers_in self.now.rows) s) replies.old) }
    {
        leaves[s] = self.leaf(s);
        if self.first(s).is_none() {
            return true;
        }
        self.write_replies(s, &mut replies[PLACES * s..]);
        false
    }

    // Writes the leaves and replies of all states, and counts the covered and the open ones.
    pub(crate) fn write_states(&self, leaves: &mut [Leaf], replies: &mut [u8]) -> Counts
        requires leaves { (S.Site.arena self.now.site.now).states ≤ length leaves.old }
        requires replies { 16 * (S.Site.arena self.now.site.now).states ≤ length replies.old }
        ensures counts { result ≡ parts_counted (numbers_in self.now.rows) (S.Site.arena self.now.site.now).states }
        ensures leaves { leaves.new ≡ leaves_written (S.Site.arena self.now.site.now) (numbers_in self.now.rows) (S.Site.arena self.now.site.now).states leaves.old }
        ensures replies { replies.new ≡ replies_written (S.Site.arena self.now.site.now) (numbers_in self.now.rows) (S.Site.arena self.now.site.now).states replies.old }
    {
        let mut covered: usize = 0;
        let mut open: usize = 0;
        for s in 0..self.site.states() {
            if self.write_state(s, leaves, replies) {
                covered += 1;
            } else {
                open += 1;
            }
        }
        Counts { covered, open }
    }
}
