// A site with the numbers of all its states, lent for reading.
ghost use Rattle.std.specs.Prelude.{◌≡◌, ◌<◌, if◌then◌else◌, Some, None};
ghost use Rattle.planner.specs.Rows.{numbers_in, Full};

use crate::rows::Rows;
use parts::lifting::NONE;
use site::interface::Site;

// Every row has a number for every state of the site. That a state is one of the site stays a condition of each method: a
// type for such states would carry the site along with every number.
#[derive(Drop)]
pub(crate) struct Numbered<'a, S: Site> {
    pub(crate) site: &'a S,
    pub(crate) rows: Rows<'a>,
    ghost full: { Full (S.Site.arena site.now) rows },
}

impl<'a, S: Site> Numbered<'a, S> {
    // The site with rows that have a number for every state of it.
    pub(crate) fn new(site: &'a S, rows: Rows<'a>) -> Numbered<'a, S>
        requires { Full (S.Site.arena site.now) rows }
        ensures site { result.site.now ≡ site.now }
        ensures rows { result.rows ≡ rows.entry }
    {
        Numbered { site, rows }
    }

    // The first number of state `s`; a covered state has none.
    pub(crate) fn first(&self, s: usize) -> Option<u16>
        requires { s < (S.Site.arena self.now.site.now).states }
        ensures { result ≡ (if (numbers_in self.now.rows).covered s then None else Some ((numbers_in self.now.rows).first s)) }
    {
        let first = self.rows.firsts[s];
        if first == NONE { None } else { Some(first) }
    }

    // The rank of state `s`, if it is covered.
    pub(crate) fn rank(&self, s: usize) -> u16
        requires { s < (S.Site.arena self.now.site.now).states }
        ensures { result ≡ (numbers_in self.now.rows).rank s }
    {
        self.rows.ranks[s]
    }

    // The second number of state `s`, if it is open.
    pub(crate) fn second(&self, s: usize) -> u16
        requires { s < (S.Site.arena self.now.site.now).states }
        ensures { result ≡ (numbers_in self.now.rows).second s }
    {
        self.rows.seconds[s]
    }
}
