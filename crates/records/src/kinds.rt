// The first byte of each kind of record.

// A table: its number of states, the row of a state, and an arrow.
pub(crate) const TABLE: u8 = 0x01;

pub(crate) const ROW: u8 = 0x02;

pub(crate) const ARROW: u8 = 0x03;

// A book: its number of states, a covered and an open leaf, and a reply.
pub(crate) const BOOK: u8 = 0x11;

pub(crate) const COVERED: u8 = 0x12;

pub(crate) const OPEN: u8 = 0x13;

pub(crate) const REPLY: u8 = 0x14;
