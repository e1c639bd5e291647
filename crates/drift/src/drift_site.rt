// A drift site answers as a site.
ghost use Rattle.std.specs.Prelude.{◌≡◌, ◌+◌, ◌*◌, true};
ghost use Rattle.drift.specs.Drifts.{offsets, drift, place_number, numbered, agrees, arrived as arriving, drifted, commanded, moved, Kept};
ghost use Rattle.drift.specs.DriftLaws.{drift_lawful};
ghost use Rattle.drift.specs.declared.places.Place.TheVariants.{Offset};

use crate::drifts::Drift;
use crate::places::Place;
use site::grades::Grade;
use site::interface::Site;

// The farthest offset that still agrees, in quarters of a second.
const FARTHEST: i64 = 8;

// How many offsets agree.
const OFFSETS: usize = 17;

const COMMANDS: usize = 2;

const WAIT: usize = 0;

// Event b and event b + 3 move the clock alike.
const EVENTS: usize = 6;

const MOVES: usize = 3;

// The place of a clock at an offset, which is apart where the offset does not agree.
fn arrived(offset: i64, lost: usize) -> Place
    ensures { result ≡ arriving offset lost }
{
    if (-FARTHEST..=FARTHEST).contains(&offset) {
        Place::Offset { offset, lost }
    } else {
        Place::Apart
    }
}

impl Drift {
    // The number of the state that is apart; those before it have an offset.
    fn apart(&self) -> usize
        ensures { result ≡ offsets * (self.now.losses + 1) }
    {
        OFFSETS * (self.losses + 1)
    }

    // The place that has the number `s`.
    fn place(&self, s: usize) -> Place
        ensures place { result ≡ numbered self.now.losses s }
        ensures kept { Kept self.now.losses result }
    {
        let apart = self.apart();
        if s < apart {
            let width = self.losses + 1;
            Place::Offset {
                offset: (s / width) as i64 - FARTHEST,
                lost: s % width,
            }
        } else if s == apart {
            Place::Apart
        } else {
            Place::Confirmed
        }
    }

    // The number of a place.
    fn number(&self, place: Place) -> usize
        requires { Kept self.now.losses place }
        ensures { result ≡ place_number self.now.losses place }
    {
        match place {
            Place::Offset { offset, lost } => {
                (offset + FARTHEST) as usize * (self.losses + 1) + lost
            }
            Place::Apart => self.apart(),
            Place::Confirmed => self.apart() + 1,
        }
    }

    // The offset to which event `b` moves the clock: by a step back, not at all, or by a step on.
    fn drifted(&self, offset: i64, b: usize) -> i64
        requires { agrees offset ≡ true }
        ensures { result ≡ drifted self.now.step b offset }
    {
        match b % MOVES {
            0 => offset - self.step as i64,
            1 => offset,
            _ => offset + self.step as i64,
        }
    }

    // The place that command `a` and event `b` lead to from an offset.
    fn commanded(&self, offset: i64, lost: usize, a: usize, b: usize) -> Place
        requires { Kept self.now.losses (Offset offset lost) }
        ensures { result ≡ commanded self.now.step self.now.losses a b offset lost }
    {
        let offset = self.drifted(offset, b);
        if a == WAIT {
            return arrived(offset, lost);
        }
        if b >= MOVES && lost < self.losses {
            return arrived(offset, lost + 1);
        }
        Place::Confirmed
    }

    // The place that command `a` and event `b` lead to.
    fn moved(&self, place: Place, a: usize, b: usize) -> Place
        requires { Kept self.now.losses place }
        ensures place { result ≡ moved self.now.step self.now.losses a b place }
        ensures kept { Kept self.now.losses result }
    {
        match place {
            Place::Offset { offset, lost } => self.commanded(offset, lost, a, b),
            Place::Apart => Place::Apart,
            Place::Confirmed => self.commanded(0, 0, a, b),
        }
    }
}

impl Site for Drift {
    ghost arena = { λ t. drift t.step t.losses };

    ghost lawful = { λ t. drift_lawful t.step t.losses t.ok };

    fn states(&self) -> usize {
        self.apart() + 2
    }

    fn grade(&self, s: usize) -> Grade {
        if s >= self.states() {
            return Grade::Confirmed;
        }
        match self.place(s) {
            Place::Offset { .. } => Grade::Ordinary,
            Place::Apart => Grade::Doubted,
            Place::Confirmed => Grade::Confirmed,
        }
    }

    fn commands(&self, s: usize) -> usize {
        if s < self.states() { COMMANDS } else { 0 }
    }

    fn events(&self, s: usize) -> usize {
        if s < self.states() { EVENTS } else { 0 }
    }

    fn next(&self, s: usize, a: usize, b: usize) -> usize {
        if s >= self.states() || a >= COMMANDS || b >= EVENTS {
            return 0;
        }
        self.number(self.moved(self.place(s), a, b))
    }
}
