// Leaves, one for each state: what a plan says of the state; and how to look a command up in them.
ghost use Rattle.std.specs.Prelude.{◌≡◌};
ghost use Rattle.checker.specs.Leaves.{consulted};

#[derive(Clone, Copy, PartialEq, Eq, Debug)]
pub enum Leaf {
    // the certificate can be kept from here: the command to give, and the rank r, which falls with
    // every doubted state until one is confirmed
    Covered { command: u8, rank: u16 },
    // it cannot be kept from here: the first number u bounds the confirmed states to come, and the second
    // number w the ordinary states in a row
    Open { first: u16, second: u16 },
}

// How many reply places each state has, one for each command that a state may have.
pub const PLACES: usize = 16;

// How many states are covered and how many are open.
#[derive(Clone, Copy, PartialEq, Eq, Debug, Default)]
pub struct Counts {
    pub covered: usize,
    pub open: usize,
}

// The command that the leaf of `state` gives; none where there is no such leaf or it is open.
pub fn consult(leaves: &[Leaf], state: usize) -> Option<u8>
    ensures { result ≡ consulted leaves.now state }
{
    match leaves.get(state) {
        Some(Leaf::Covered { command, .. }) => Some(*command),
        Some(Leaf::Open { .. }) | None => None,
    }
}
