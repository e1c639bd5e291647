// Leaves and replies for a site, in memory of their own and still to be filled.
ghost use Rattle.std.specs.Prelude.{◌≡◌, ◌*◌, replicate, IfOk, vec_items};
ghost use Rattle.checker.specs.declared.leaves.Leaf.TheVariants.{Open};

use checker::leaves::{Leaf, PLACES};
use site::interface::Site;
use std::alloc::{AllocError, Global};

// A leaf for each state, and sixteen replies.
pub(crate) fn blank_pair<S: Site>(
    heap: Global,
    site: &S,
) -> Result<(Vec<Leaf>, Vec<u8>), AllocError>
    ensures leaves { IfOk result (λ pair. vec_items pair.0 ≡ replicate (S.Site.arena site.now).states (Open 0 0)) }
    ensures replies { IfOk result (λ pair. vec_items pair.1 ≡ replicate (16 * (S.Site.arena site.now).states) 0) }
{
    let states = site.states();
    let blank = Leaf::Open {
        first: 0,
        second: 0,
    };
    let leaves = vec![in heap; blank; states]?;
    let replies = vec![in heap; 0u8; PLACES * states]?;
    Ok((leaves, replies))
}
