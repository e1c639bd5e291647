// Planning a site: its leaves and replies, written into slices that the caller lends.
ghost use Rattle.std.specs.Prelude.{◌≡◌, ◌*◌, ◌≤◌, length, Ok};
ghost use Rattle.site.specs.Refusals.{answered};
ghost use Rattle.planner.specs.Choices.{leaves_written, replies_written};
ghost use Rattle.planner.specs.Planned.{numbers, parts_counted, planned_answer, planned_leaves, planned_replies, WorkKept};

use crate::numbered::Numbered;
use crate::rows::Rows;
use checker::leaves::{Counts, Leaf, PLACES};
use parts::numbering::number_states;
use site::faults::{Fault, enough};
use site::interface::Site;

// How many rows of numbers planning works with, each with a number for each state.
pub const ROWS: usize = 4;

// Plans in slices that are long enough, with exactly 4 N numbers of work.
fn plan_roomy<S: Site>(
    site: &S,
    leaves: &mut [Leaf],
    replies: &mut [u8],
    work: &mut [u16],
) -> Result<Counts, Fault>
    requires leaves { (S.Site.arena site.now).states ≤ length leaves.old }
    requires replies { 16 * (S.Site.arena site.now).states ≤ length replies.old }
    requires work { length work.old ≡ 4 * (S.Site.arena site.now).states }
    ensures answer { answered result ≡ Ok (parts_counted (numbers (S.Site.arena site.now)) (S.Site.arena site.now).states) }
    ensures leaves { leaves.new ≡ leaves_written (S.Site.arena site.now) (numbers (S.Site.arena site.now)) (S.Site.arena site.now).states leaves.old }
    ensures replies { replies.new ≡ replies_written (S.Site.arena site.now) (numbers (S.Site.arena site.now)) (S.Site.arena site.now).states replies.old }
{
    let n = site.states();
    let (firsts, rest) = work.split_at_mut(n);
    let (ranks, rest) = rest.split_at_mut(n);
    let (seconds, labels) = rest.split_at_mut(n);
    number_states(site, firsts, ranks, seconds, labels)?;
    let rows = Rows {
        firsts,
        ranks,
        seconds,
    };
    Ok(Numbered::new(site, rows).write_states(leaves, replies))
}

// Plans the site: N leaves, the replies of the open states, and how many states are covered and open.
// The work slice lends 4 N numbers of memory.
pub fn plan<S: Site>(
    site: &S,
    leaves: &mut [Leaf],
    replies: &mut [u8],
    work: &mut [u16],
) -> Result<Counts, Fault>
    ensures outcome { answered result ≡ planned_answer (S.Site.arena site.now) (length leaves.old) (length replies.old) (length work.old) }
    ensures leaves { leaves.new ≡ planned_leaves (S.Site.arena site.now) leaves.old (length replies.old) (length work.old) }
    ensures replies { replies.new ≡ planned_replies (S.Site.arena site.now) (length leaves.old) replies.old (length work.old) }
    ensures work { WorkKept (S.Site.arena site.now) (length leaves.old) (length replies.old) work.old work.new }
{
    let n = site.states();
    enough(leaves.len(), n)?;
    enough(replies.len(), PLACES * n)?;
    enough(work.len(), ROWS * n)?;
    plan_roomy(site, leaves, replies, &mut work[..ROWS * n])
}
