// How large a table is, and can be.

// How many states a table of bytes can have.
pub const MOST_STATES: usize = 1024;

// How many arrows it can have.
pub const MOST_ARROWS: usize = 16384;

#[derive(Clone, Copy, PartialEq, Eq, Debug)]
pub struct TableSize {
    pub states: usize,
    pub arrows: usize,
}
