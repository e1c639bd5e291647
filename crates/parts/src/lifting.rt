// Ranks by lifting: every state's number is raised to what the state asks for, until none asks for more.
ghost use Rattle.std.specs.Prelude.{◌≡◌, ℕ, ◌<◌, ◌≤◌, true, false, length, if◌then◌else◌, nat_lt, slice_set};
ghost use Rattle.parts.specs.Moves.{holds};
ghost use Rattle.parts.specs.Lifting.{at, unnumbered, value, Calm, Backed, Raised, slack};

use crate::directions::Direction;
use crate::gaps::close_gap;
use crate::row::Row;
use site::grades::Grade;
use site::interface::Site;

// The mark of a state that has no number; the rows are memory that the caller lends, so there is no `Option` in them.
pub const NONE: u16 = u16::MAX;

// What ranks are lifted by: states without a first number are there to stay in, and no rank goes above `top`. The ranks
// are a parameter of its methods: were they a field, each method that raises them would have to promise that the other
// fields stay.
#[derive(Drop)]
pub(crate) struct Lift<'a, S: Site> {
    pub(crate) site: &'a S,
    pub(crate) firsts: &'a [u16],
    pub(crate) top: u16,
    ghost long: { length firsts.now ≡ (S.Site.arena site.now).states },
    ghost limited: { top ≤ 8193 },
}

impl<'a, S: Site> Lift<'a, S> {
    // Whether `s` has a command under which every event leads to a state without a first number.
    fn stays(&self, s: usize) -> bool
        ensures { result ≡ holds (S.Site.arena self.now.site.now) (unnumbered self.now.firsts.now) s }
    {
        let firsts = Row {
            site: self.site,
            numbers: self.firsts,
        };
        firsts.holds(s, |first| first == NONE)
    }

    // The number that `s` asks for, given those of the others.
    fn asked(&self, ranks: &[u16], s: usize) -> u16
        requires { length ranks.now ≡ (S.Site.arena self.now.site.now).states }
        ensures { result ≡ value (S.Site.arena self.now.site.now) self.now.top (unnumbered self.now.firsts.now) (at ranks.now) s }
    {
        let ranks = Row {
            site: self.site,
            numbers: ranks,
        };
        match self.site.grade(s) {
            Grade::Confirmed => { if self.stays(s) { 0 } else { self.top } }
            Grade::Doubted => self.top.min(ranks.best_of(self.top, s) + 1),
            Grade::Ordinary => ranks.best_of(self.top, s),
        }
    }

    // Raises `s` to the number that it asks for; says whether it rose. A state at `top` asks for no more.
    fn raise(&self, ranks: &mut [u16], s: usize) -> bool
        requires ranks { length ranks.old ≡ (S.Site.arena self.now.site.now).states }
        requires state { s < (S.Site.arena self.now.site.now).states }
        ensures rose { result ≡ nat_lt (at ranks.old s) (value (S.Site.arena self.now.site.now) self.now.top (unnumbered self.now.firsts.now) (at ranks.old) s) }
        ensures ranks { ranks.new ≡ (if result then slice_set ranks.old s (value (S.Site.arena self.now.site.now) self.now.top (unnumbered self.now.firsts.now) (at ranks.old) s) else ranks.old) }
    {
        if ranks[s] >= self.top {
            return false;
        }
        let wanted = self.asked(ranks, s);
        if ranks[s] >= wanted {
            return false;
        }
        ranks[s] = wanted;
        true
    }

    // Raises every state once to what it asks for, upwards or downwards; says whether any rose. The loop counts the
    // states, since all ranks are read while one is written.
    fn sweep(&self, direction: Direction, ranks: &mut [u16]) -> bool
        requires ranks { length ranks.old ≡ (S.Site.arena self.now.site.now).states }
        requires capped { (s : ℕ) → at ranks.old s ≤ self.now.top }
        ensures raised { Raised (S.Site.arena self.now.site.now) self.now.top (unnumbered self.now.firsts.now) ranks.old ranks.new }
        ensures rose { result ≡ true → slack self.now.top ranks.new < slack self.now.top ranks.old }
        ensures calm { result ≡ false → Calm (S.Site.arena self.now.site.now) self.now.top (unnumbered self.now.firsts.now) (at ranks.new) }
    {
        let n = self.site.states();
        let mut rose = false;
        for k in 0..n {
            if self.raise(ranks, direction.state(n, k)) {
                rose = true;
            }
        }
        rose
    }

    // Raises the ranks until no state asks for more. Sweeps go up and down in turn, so that numbers travel fast both
    // ways, and after each one the ranks are cut at a gap. The marks are memory for that.
    pub(crate) fn settle(&self, ranks: &mut [u16], marks: &mut [u16])
        requires ranks { length ranks.old ≡ (S.Site.arena self.now.site.now).states }
        requires capped { (s : ℕ) → at ranks.old s ≤ self.now.top }
        requires backed { Backed (S.Site.arena self.now.site.now) self.now.top (unnumbered self.now.firsts.now) (at ranks.old) }
        ensures raised { Raised (S.Site.arena self.now.site.now) self.now.top (unnumbered self.now.firsts.now) ranks.old ranks.new }
        ensures calm { Calm (S.Site.arena self.now.site.now) self.now.top (unnumbered self.now.firsts.now) (at ranks.new) }
    {
        let mut direction = Direction::Up;
        'sweeps: while self.sweep(direction, ranks) {
            close_gap(self.top, ranks, marks);
            direction = direction.reversed();
        }
    }
}
