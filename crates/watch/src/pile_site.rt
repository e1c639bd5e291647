// A watch above a site answers as a site.
ghost use Rattle.watch.specs.Dials.{dial};
ghost use Rattle.watch.specs.Watched.{watched};
ghost use Rattle.watch.specs.WatchLaws.{watched_lawful};

use crate::piles::Watched;
use site::grades::Grade;
use site::interface::Site;

impl<S: Site> Site for Watched<S> {
    ghost arena = { λ t. watched (S.Site.arena t.below) (dial t.watch) };

    ghost lawful = { λ t. watched_lawful (S.Site.arena t.below) (dial t.watch) (S.Site.lawful t.below) t.watch.ok };

    fn states(&self) -> usize {
        let states = self.below.states();
        states * self.worn(states).positions
    }

    fn grade(&self, s: usize) -> Grade {
        let states = self.below.states();
        let watch = self.worn(states);
        if s >= states * watch.positions {
            return Grade::Confirmed;
        }
        let below = self.below.grade(s / watch.positions);
        watch.show(s % watch.positions, below)
    }

    fn commands(&self, s: usize) -> usize {
        let watch = self.worn(self.below.states());
        self.below.commands(s / watch.positions)
    }

    fn events(&self, s: usize) -> usize {
        let watch = self.worn(self.below.states());
        self.below.events(s / watch.positions)
    }

    fn next(&self, s: usize, a: usize, b: usize) -> usize {
        let watch = self.worn(self.below.states());
        let v = s / watch.positions;
        if a >= self.below.commands(v) || b >= self.below.events(v) {
            return 0;
        }
        let turn = watch.turn(s % watch.positions, self.below.grade(v));
        self.below.next(v, a, b) * watch.positions + turn
    }
}
