// A site's plan as the lines of a listing, in memory of its own.
ghost use Rattle.std.specs.Prelude.{◌≡◌, ◌*◌, ◌<◌, ◌≤◌, ◌++◌, length};
ghost use Rattle.records.specs.Lines.{head_text, state_text};
ghost use Rattle.desk.specs.Listings.{AddedTo, listing};
ghost use Rattle.desk.specs.Made.{Makes, Gives};
ghost use Rattle.desk.specs.ReadFloors.{of_floor};

use crate::failures::Failure;
use crate::floors::read_floor;
use crate::planned::plan_site;
use checker::leaves::{Counts, Leaf};
use records::listing::{LINE_ROOM, head_line, state_line};
use site::interface::Site;
use std::alloc::Global;

// Adds the first line, with the number of states and of each part. It and `add_line` are not one function that takes the
// call as a closure: their contracts name the text, and a closure's would name what the closure promises.
fn add_head(out: &mut Vec<u8>, states: usize, counts: Counts) -> Result<(), Failure>
    ensures { AddedTo out.old.items (head_text states counts.covered counts.«open») out.new.items result }
{
    let mut buffer = [0u8; LINE_ROOM];
    let len = head_line(states, counts.covered, counts.open, &mut buffer)?;
    out.extend_from_slice(&buffer[0..len])?;
    Ok(())
}

// Adds the line of state `s`.
fn add_line<S: Site>(
    out: &mut Vec<u8>,
    site: &S,
    leaves: &[Leaf],
    replies: &[u8],
    s: usize,
) -> Result<(), Failure>
    requires leaves { (S.Site.arena site.now).states ≤ length leaves.now }
    requires replies { 16 * (S.Site.arena site.now).states ≤ length replies.now }
    requires state { s < (S.Site.arena site.now).states }
    ensures { AddedTo out.old.items (state_text (S.Site.arena site.now) leaves.now replies.now s) out.new.items result }
{
    let mut buffer = [0u8; LINE_ROOM];
    let len = state_line(site, leaves, replies, s, &mut buffer)?;
    out.extend_from_slice(&buffer[0..len])?;
    Ok(())
}

// Plans a site, checks the plan and lists it.
pub fn list_site<S: Site>(heap: Global, site: &S) -> Result<Vec<u8>, Failure>
    ensures { Makes (listing (S.Site.arena site.now)) result }
{
    let states = site.states();
    let plan = plan_site(heap, site)?;
    let mut out = Vec::new(heap);
    add_head(&mut out, states, plan.counts)?;
    for s in 0..states {
        add_line(
            &mut out,
            site,
            plan.leaves.as_slice(),
            plan.replies.as_slice(),
            s,
        )?;
    }
    Ok(out)
}

// Reads a floor's table, plans it, checks the plan and lists it; the first refusal is the answer.
pub fn list_floor(heap: Global, bytes: &[u8]) -> Result<Vec<u8>, Failure>
    ensures { Gives (of_floor bytes.now listing) result }
{
    let floor = read_floor(heap, bytes)?;
    list_site(heap, &floor.table())
}
