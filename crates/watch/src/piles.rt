// A watch above a site, and the question whether it fits.
ghost use Rattle.std.specs.Prelude.{◌≡◌};
ghost use Rattle.watch.specs.Dials.{dial};
ghost use Rattle.site.specs.Refusals.{answered};
ghost use Rattle.watch.specs.Piles.{ByPairs, RunsAreBelow, RunsAreSeen, ClearChangesNothing, UnfitChangesNothing, OwnEntriesCount};
ghost use Rattle.watch.specs.Watched.{fitted, worn as wearing, watched};

use crate::watches::Watch;
use site::faults::Fault;
use site::interface::{MOST_STATES, Site};

// A site with a watch above it, which is a site again and may carry another watch.
#[derive(Drop)]
pub struct Watched<S> {
    pub(crate) below: S,
    pub(crate) watch: Watch,
}

// Whether a watch fits above a site: how many states they have together.
pub fn fits<S: Site>(site: &S, watch: &Watch) -> Result<usize, Fault>
    ensures { answered result ≡ fitted (S.Site.arena site.now) (dial watch.now) }
{
    let states = site.states() * watch.positions;
    if states <= MOST_STATES {
        Ok(states)
    } else {
        Err(Fault::WatchFit { states })
    }
}

impl<S: Site> Watched<S> {
    // Sets a watch above a site. Together they are told by pairs of a state and a position, and their
    // runs are those of the site; a watch that is clear, or does not fit, changes nothing.
    pub fn new(site: S, watch: Watch) -> Watched<S>
        ensures below { result.below ≡ site }
        ensures watch { dial result.watch ≡ dial watch }
        ensures pairs { ByPairs (S.Site.arena site) (wearing (S.Site.arena site) (dial watch)) (watched (S.Site.arena site) (dial watch)) }
        ensures runs { RunsAreBelow (S.Site.arena site) (dial watch) }
        ensures seen { RunsAreSeen (S.Site.arena site) (dial watch) }
        ensures clear { ClearChangesNothing (S.Site.arena site) (dial watch) }
        ensures unfit { UnfitChangesNothing (S.Site.arena site) (dial watch) }
        ensures entries { OwnEntriesCount (S.Site.arena site) (dial watch) }
    {
        Watched { below: site, watch }
    }

    // The watch that the site below wears, which has so many states: a clear one in place of one that
    // does not fit. The caller asks for the states once, so that a high pile stays cheap.
    pub(crate) fn worn(&self, states: usize) -> Watch
        requires { states ≡ (S.Site.arena self.now.below).states }
        ensures { dial result ≡ wearing (S.Site.arena self.now.below) (dial self.now.watch) }
    {
        if states * self.watch.positions > MOST_STATES {
            return Watch::new();
        }
        self.watch
    }
}
