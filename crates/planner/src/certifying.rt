// The certified call: plans a site and checks the plan, with the whole promise in its contract.
ghost use Rattle.std.specs.Prelude.{◌≡◌, length};
ghost use Rattle.site.specs.Refusals.{answered};
ghost use Rattle.planner.specs.Certificate.{Certificate};
ghost use Rattle.planner.specs.Planned.{planned_answer, planned_leaves, planned_replies, WorkKept};

use crate::planning::plan;
use checker::checks::check;
use checker::leaves::{Counts, Leaf};
use site::faults::Fault;
use site::interface::Site;

// Plans the site in the slices that are lent, and checks what was planned; the check says yes to it, with the counts
// that planning gave.
pub fn certify<S: Site>(
    site: &S,
    leaves: &mut [Leaf],
    replies: &mut [u8],
    work: &mut [u16],
) -> Result<Counts, Fault>
    ensures outcome { answered result ≡ planned_answer (S.Site.arena site.now) (length leaves.old) (length replies.old) (length work.old) }
    ensures leaves { leaves.new ≡ planned_leaves (S.Site.arena site.now) leaves.old (length replies.old) (length work.old) }
    ensures replies { replies.new ≡ planned_replies (S.Site.arena site.now) (length leaves.old) replies.old (length work.old) }
    ensures work { WorkKept (S.Site.arena site.now) (length leaves.old) (length replies.old) work.old work.new }
    ensures promise { Certificate (S.Site.arena site.now) }
{
    plan(site, leaves, replies, work)?;
    check(site, leaves, replies)
}
