// A list of calls, played from a blank record on one site by one pair of leaves and replies.
ghost use Rattle.std.specs.Prelude.{◌≡◌, ℕ, ◌<◌, ◌≤◌, map, length, take, drop};
ghost use Rattle.site.specs.Refusals.{answered};
ghost use Rattle.checker.specs.Rounds.{state_of, answer, after_call};
ghost use Rattle.checker.specs.Runs.{answers_to};
ghost use Rattle.checker.specs.RunLaws.{Kept};
ghost use Rattle.checker.specs.Played.{played};
ghost use Rattle.checker.specs.Witness.{Accepted};

use crate::calls::Call;
use crate::leaves::Leaf;
use crate::runs::Run;
use site::faults::{Fault, enough};
use site::interface::Site;

impl Run {
    // Makes one call on the record.
    fn make<S: Site>(
        &mut self,
        site: &S,
        leaves: &[Leaf],
        replies: &[u8],
        call: Call,
    ) -> Result<usize, Fault>
        ensures outcome { answered result ≡ answer (S.Site.arena site.now) leaves.now replies.now (state_of self.old) call }
        ensures after { self.new ≡ after_call (S.Site.arena site.now) (answer (S.Site.arena site.now) leaves.now replies.now (state_of self.old) call) self.old call }
    {
        match call {
            Call::Place { state } => self.place(site, state),
            Call::Book { event } => self.book_round(site, leaves, event),
            Call::Objection { command } => self.objection_round(site, leaves, replies, command),
        }
    }
}

// Makes every call of the list in turn, writes each answer to its place and returns the record that they
// leave. The answers and the record are those of the run that the calls make.
pub fn play<S: Site>(
    site: &S,
    leaves: &[Leaf],
    replies: &[u8],
    calls: &[Call],
    answers: &mut [Result<usize, Fault>],
) -> Result<Run, Fault>
    ensures outcome { answered result ≡ played (S.Site.arena site.now) leaves.now replies.now calls.now answers.old }
    ensures written { length calls.now ≤ length answers.old → map answered (take (length calls.now) answers.new) ≡ answers_to (S.Site.arena site.now) leaves.now replies.now calls.now }
    ensures beyond { drop (length calls.now) answers.new ≡ drop (length calls.now) answers.old }
    ensures refused { length answers.old < length calls.now → answers.new ≡ answers.old }
    ensures law { Accepted (S.Site.arena site.now) leaves.now replies.now → (k : ℕ) → Kept (S.Site.arena site.now) leaves.now replies.now (take k calls.now) }
{
    enough(answers.len(), calls.len())?;
    let mut run = Run::Blank;
    // of a `zip` with `iter_mut` a proof knows no entry that was written, so the answer is found by the call's index
    for (i, call) in calls.iter().enumerate() {
        answers[i] = run.make(site, leaves, replies, *call);
    }
    Ok(run)
}
