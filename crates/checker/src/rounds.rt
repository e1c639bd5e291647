// Placing a run, and its two rounds: by the book against an event, by the objection against a command.
ghost use Rattle.std.specs.Prelude.{◌≡◌};
ghost use Rattle.site.specs.Refusals.{answered};
ghost use Rattle.checker.specs.Rounds.{state_of, standing, placing, book_round, objection_round, after_placing, after_round, moved};

use crate::leaves::{Leaf, consult};
use crate::pairs::Pair;
use crate::runs::Run;
use site::faults::{Fault, enough};
use site::interface::Site;

impl Run {
    // Begins a run at `s`, with its counts anew, and returns `s`.
    pub fn place<S: Site>(&mut self, site: &S, s: usize) -> Result<usize, Fault>
        ensures outcome { answered result ≡ placing (S.Site.arena site.now) s }
        ensures after { self.new ≡ after_placing (S.Site.arena site.now) (placing (S.Site.arena site.now) s) self.old }
    {
        if s >= site.states() {
            return Err(Fault::NoState { state: s });
        }
        *self = Run::Placed {
            state: s,
            confirmations: 0,
            doubts: 0,
            row: 0,
        };
        self.count(site.grade(s));
        Ok(s)
    }

    // The state that a round starts from.
    fn standing<S: Site>(&self, site: &S) -> Result<usize, Fault>
        ensures { answered result ≡ standing (S.Site.arena site.now) (state_of self.now) }
    {
        let Run::Placed { state, .. } = *self else {
            return Err(Fault::Blank);
        };
        if state >= site.states() {
            return Err(Fault::NoState { state });
        }
        Ok(state)
    }

    // The run goes on to the state `t`, which is counted.
    fn reach<S: Site>(&mut self, site: &S, t: usize)
        ensures { self.new ≡ moved (S.Site.arena site.now) t self.old }
    {
        if let Run::Placed { state, .. } = self {
            *state = t;
        }
        self.count(site.grade(t));
    }

    // Plays the command of the present state's leaf against `event`, and returns the state reached.
    pub fn book_round<S: Site>(
        &mut self,
        site: &S,
        leaves: &[Leaf],
        event: usize,
    ) -> Result<usize, Fault>
        ensures outcome { answered result ≡ book_round (S.Site.arena site.now) leaves.now (state_of self.old) event }
        ensures after { self.new ≡ after_round (S.Site.arena site.now) (book_round (S.Site.arena site.now) leaves.now (state_of self.old) event) self.old }
    {
        enough(leaves.len(), site.states())?;
        let state = self.standing(site)?;
        let Some(command) = consult(leaves, state) else {
            return Err(Fault::OtherPart { state });
        };
        if event >= site.events(state) {
            return Err(Fault::NoMove { number: event });
        }
        let command = command as usize;
        if command >= site.commands(state) {
            return Err(Fault::LeafMove { state });
        }
        let t = site.next(state, command, event);
        self.reach(site, t);
        Ok(t)
    }

    // Plays the present state's reply against `command`, and returns the state reached.
    pub fn objection_round<S: Site>(
        &mut self,
        site: &S,
        leaves: &[Leaf],
        replies: &[u8],
        command: usize,
    ) -> Result<usize, Fault>
        ensures outcome { answered result ≡ objection_round (S.Site.arena site.now) leaves.now replies.now (state_of self.old) command }
        ensures after { self.new ≡ after_round (S.Site.arena site.now) (objection_round (S.Site.arena site.now) leaves.now replies.now (state_of self.old) command) self.old }
    {
        let pair = Pair::lent(site, leaves, replies)?;
        let state = self.standing(site)?;
        let Leaf::Open { .. } = leaves[state] else {
            return Err(Fault::OtherPart { state });
        };
        if command >= site.commands(state) {
            return Err(Fault::NoMove { number: command });
        }
        let reply = pair.reply(state, command);
        if reply >= site.events(state) {
            return Err(Fault::LeafMove { state });
        }
        let t = site.next(state, command, reply);
        self.reach(site, t);
        Ok(t)
    }
}
