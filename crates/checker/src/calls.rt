// The calls that make up a run.
ghost use Rattle.std.specs.Prelude.{Some};
ghost use Rattle.checker.specs.Calls.{call_text};

use std::fmt;

#[derive(Clone, Copy, PartialEq, Eq, Debug)]
pub enum Call {
    // begin a run at a state
    Place { state: usize },
    // let the leaf's command meet this event
    Book { event: usize },
    // let the state's reply meet this command
    Objection { command: usize },
}

impl fmt::Display for Call {
    ghost output = { λ call. Some (call_text call) };

    fn fmt<W: fmt::Write>(&self, f: &mut fmt::Formatter<W>) -> fmt::Result {
        match *self {
            Call::Place { state } => write!(f, "place {state}"),
            Call::Book { event } => write!(f, "book {event}"),
            Call::Objection { command } => write!(f, "objection {command}"),
        }
    }
}
