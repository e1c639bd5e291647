// Second numbers: labels of the ordinary states of a stage, round by round.
ghost use Rattle.std.specs.Prelude.{◌≡◌, ℕ, ◌<◌, ◌≤◌, length, replicate, if◌then◌else◌, nat_eq, nat_lt};
ghost use Rattle.site.specs.Counting.{some};
ghost use Rattle.parts.specs.Lifting.{at, none};
ghost use Rattle.parts.specs.Moves.{blocks};
ghost use Rattle.parts.specs.Regions.{second};
ghost use Rattle.parts.specs.Rows.{FirstRow, SecondRow};
ghost use Rattle.parts.specs.Written.{ready, waiting, due};

use crate::lifting::NONE;
use crate::row::Row;
use site::grades::Grade;
use site::interface::Site;

// A stage of the open states: those whose first number is at most its own. The labels are a parameter of its methods:
// were they a field, each method that writes them would have to promise that the other fields stay.
#[derive(Drop)]
struct Stage<'a, S: Site> {
    site: &'a S,
    firsts: &'a [u16],
    number: u16,
    ghost long: { length firsts.now ≡ (S.Site.arena site.now).states },
}

impl<'a, S: Site> Stage<'a, S> {
    // The label with which state `s` begins: 0 for a confirmed or doubted state of the stage, none for any other.
    fn first_label(&self, s: usize) -> u16
        requires { s < (S.Site.arena self.now.site.now).states }
        ensures { result ≡ (if ready (S.Site.arena self.now.site.now) self.now.number self.now.firsts.now s then 0 else none) }
    {
        if self.site.grade(s) != Grade::Ordinary && self.firsts[s] <= self.number {
            0
        } else {
            NONE
        }
    }

    // Begins the labels of the stage.
    fn begin(&self, labels: &mut [u16])
        requires { length labels.old ≡ (S.Site.arena self.now.site.now).states }
        ensures { (s : ℕ) → s < (S.Site.arena self.now.site.now).states → at labels.new s ≡ (if ready (S.Site.arena self.now.site.now) self.now.number self.now.firsts.now s then 0 else none) }
    {
        for (s, label) in labels.iter_mut().enumerate() {
            *label = self.first_label(s);
        }
    }

    // Whether a state with the stage's number waits for its label.
    fn waits(&self, labels: &[u16]) -> bool
        requires { length labels.now ≡ (S.Site.arena self.now.site.now).states }
        ensures { result ≡ some (waiting self.now.number self.now.firsts.now labels.now) (S.Site.arena self.now.site.now).states }
    {
        self.firsts
            .iter()
            .zip(labels)
            .any(|(first, label)| *first == self.number && *label == NONE)
    }

    // Whether for every command of `s` some event leads to a state with a label below `j`.
    fn is_blocked(&self, j: u16, labels: &[u16], s: usize) -> bool
        requires { length labels.now ≡ (S.Site.arena self.now.site.now).states }
        ensures { result ≡ blocks (S.Site.arena self.now.site.now) (λ t. nat_lt (at labels.now t) j) s }
    {
        let labels = Row {
            site: self.site,
            numbers: labels,
        };
        !labels.holds(s, |label| label >= j)
    }

    // Whether state `s` gets its label in round `j`.
    fn is_due(&self, j: u16, labels: &[u16], s: usize) -> bool
        requires labels { length labels.now ≡ (S.Site.arena self.now.site.now).states }
        requires state { s < (S.Site.arena self.now.site.now).states }
        ensures { result ≡ due (S.Site.arena self.now.site.now) self.now.number j self.now.firsts.now labels.now s }
    {
        self.firsts[s] <= self.number && labels[s] == NONE && self.is_blocked(j, labels, s)
    }

    // Round `j`: every state that is due by the labels below `j` gets the label `j`. The loop counts the states, since
    // all labels are read while one is written.
    fn round(&self, j: u16, labels: &mut [u16])
        requires number { j < none }
        requires labels { length labels.old ≡ (S.Site.arena self.now.site.now).states }
        ensures { (s : ℕ) → s < (S.Site.arena self.now.site.now).states → at labels.new s ≡ (if due (S.Site.arena self.now.site.now) self.now.number j self.now.firsts.now labels.old s then j else at labels.old s) }
    {
        for s in 0..self.site.states() {
            if self.is_due(j, labels, s) {
                labels[s] = j;
            }
        }
    }

    // Labels the stage, round by round, until every state with its number has a label.
    fn label(&self, labels: &mut [u16])
        requires row { FirstRow (S.Site.arena self.now.site.now) (S.Site.arena self.now.site.now).states self.now.firsts.now }
        requires number { self.now.number < (S.Site.arena self.now.site.now).states }
        requires labels { length labels.old ≡ (S.Site.arena self.now.site.now).states }
        ensures { (s : ℕ) → s < (S.Site.arena self.now.site.now).states → at self.now.firsts.now s ≡ self.now.number → at labels.new s ≡ second (S.Site.arena self.now.site.now) s }
    {
        self.begin(labels);
        for j in 1..self.site.states() + 1 {
            if !self.waits(labels) {
                return;
            }
            self.round(j as u16, labels);
        }
    }

    // Keeps the labels of the states with the stage's number. The rows are not zipped: of a row that is written in a `zip`
    // a proof knows its length alone.
    fn keep(&self, labels: &[u16], seconds: &mut [u16])
        requires labels { length labels.now ≡ (S.Site.arena self.now.site.now).states }
        requires seconds { length seconds.old ≡ (S.Site.arena self.now.site.now).states }
        ensures { (s : ℕ) → s < (S.Site.arena self.now.site.now).states → at seconds.new s ≡ (if nat_eq (at self.now.firsts.now s) self.now.number then at labels.now s else at seconds.old s) }
    {
        for (s, second) in seconds.iter_mut().enumerate() {
            if self.firsts[s] == self.number {
                *second = labels[s];
            }
        }
    }
}

// The second numbers of all open states, stage by stage; `count` stages have states. The labels are cleared in the end.
pub(crate) fn stages<S: Site>(
    site: &S,
    count: usize,
    firsts: &[u16],
    labels: &mut [u16],
    seconds: &mut [u16],
)
    requires row { FirstRow (S.Site.arena site.now) count firsts.now }
    requires firsts { length firsts.now ≡ (S.Site.arena site.now).states }
    requires labels { length labels.old ≡ (S.Site.arena site.now).states }
    requires seconds { length seconds.old ≡ (S.Site.arena site.now).states }
    ensures seconds { SecondRow (S.Site.arena site.now) seconds.new }
    ensures labels { labels.new ≡ replicate (S.Site.arena site.now).states 0 }
{
    seconds.fill(0);
    for number in 0..count {
        let stage = Stage {
            site,
            firsts,
            number: number as u16,
        };
        stage.label(labels);
        stage.keep(labels, seconds);
    }
    labels.fill(0);
}
