// The two ways to go over the states of a site.
ghost use Rattle.std.specs.Prelude.{◌≡◌, ◌<◌};
ghost use Rattle.parts.specs.Directions.{visit};

// Upwards from the first state, or downwards from the last one.
#[derive(Clone, Copy)]
pub(crate) enum Direction {
    Up,
    Down,
}

impl Direction {
    // The other way.
    pub(crate) fn reversed(self) -> Direction {
        match self {
            Direction::Up => Direction::Down,
            Direction::Down => Direction::Up,
        }
    }

    // The state that comes after `k` others of `n`.
    pub(crate) fn state(self, n: usize, k: usize) -> usize
        requires { k < n }
        ensures { result ≡ visit self n k }
    {
        match self {
            Direction::Up => k,
            Direction::Down => n - 1 - k,
        }
    }
}
