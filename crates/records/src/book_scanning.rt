// The scan of a book's bytes: it lays what it reads over the slices as far as there is room.
ghost use Rattle.std.specs.Prelude.{◌≡◌, MatchResult, Err};
ghost use Rattle.site.specs.Refusals.{told};
ghost use Rattle.records.specs.BookBytes.{leaves_in};
ghost use Rattle.records.specs.BookScanning.{LeavesDone, BookScanned};

use crate::book_records::{Reply, read_book_head, read_leaf};
use crate::laying::lay;
use crate::leaf_sizes::replies_due;
use crate::several::read_several;
use crate::unread::Unread;
use checker::leaves::{Leaf, PLACES};
use site::faults::Fault;
use site::interface::Site;

// The leaves of all states with their replies; what is left after them.
fn read_leaves<'a, S: Site>(
    site: &S,
    from: Unread<'a>,
    leaves: &mut [Leaf],
    replies: &mut [u8],
) -> Result<Unread<'a>, Fault>
    requires { from.at ≡ 3 }
    ensures { MatchResult result
        (λ end. LeavesDone (S.Site.arena site.now) from.entry.bytes.now leaves.old replies.old (S.Site.arena site.now).states end leaves.new replies.new)
        (λ f. leaves_in (S.Site.arena site.now) (S.Site.arena site.now).states from.entry.bytes.now ≡ Err (told f)) }
{
    let mut unread = from;
    for state in 0..site.states() {
        let (leaf, body) = read_leaf(unread)?;
        let count = replies_due(leaf, site.commands(state));
        unread = read_several(&Reply, count, body, PLACES * state, replies)?;
        lay(leaf, state, leaves);
    }
    Ok(unread)
}

// A whole book, and nothing after it. A refusal may leave a part of it on the slices.
pub(crate) fn scan_book<S: Site>(
    site: &S,
    bytes: &[u8],
    leaves: &mut [Leaf],
    replies: &mut [u8],
) -> Result<usize, Fault>
    ensures { BookScanned (S.Site.arena site.now) bytes.now leaves.old replies.old result leaves.new replies.new }
{
    let states = site.states();
    let from = read_book_head(states, bytes)?;
    let left = read_leaves(site, from, leaves, replies)?;
    if !left.bytes.is_empty() {
        return Err(Fault::SurplusBytes { at: left.at });
    }
    Ok(states)
}
