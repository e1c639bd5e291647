// A site's plan, in memory of its own.
ghost use Rattle.std.specs.Prelude.{◌≡◌};
ghost use Rattle.desk.specs.PlannedSites.{PlanOf};

use crate::failures::Failure;
use crate::pairs::blank_pair;
use checker::leaves::{Counts, Leaf};
use planner::certifying::certify;
use planner::planning::ROWS;
use site::interface::Site;
use std::alloc::Global;

// The leaves and replies of a site, and how many states are covered and open.
#[derive(Drop)]
pub struct Plan {
    pub leaves: Vec<Leaf>,
    pub replies: Vec<u8>,
    pub counts: Counts,
}

// Plans a site and checks the plan.
pub fn plan_site<S: Site>(heap: Global, site: &S) -> Result<Plan, Failure>
    ensures { PlanOf (S.Site.arena site.now) result }
{
    let (mut leaves, mut replies) = blank_pair(heap, site)?;
    let mut work = vec![in heap; 0u16; ROWS * site.states()]?;
    let counts = certify(
        site,
        leaves.as_mut_slice(),
        replies.as_mut_slice(),
        work.as_mut_slice(),
    )?;
    Ok(Plan {
        leaves,
        replies,
        counts,
    })
}
