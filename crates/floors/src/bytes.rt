// Sample floors as bytes.

// One confirmed, one ordinary and two doubted states; all but the last can be covered.
pub(crate) const FLOOR_B: [u8; 43] = [
    0x01, 0, 4, 0x02, 0, 1, 1, 0x03, 0, 1, 0x02, 2, 2, 2, 0x03, 0, 1, 0x03, 0, 2, 0x03, 0, 0, 0x03,
    0, 1, 0x02, 1, 1, 2, 0x03, 0, 0, 0x03, 0, 1, 0x02, 1, 1, 1, 0x03, 0, 3,
];

// Floor B without its last state, and with one arrow turned: nothing can be covered.
pub(crate) const FLOOR_A: [u8; 36] = [
    0x01, 0, 3, 0x02, 0, 1, 1, 0x03, 0, 1, 0x02, 2, 2, 2, 0x03, 0, 1, 0x03, 0, 2, 0x03, 0, 0, 0x03,
    0, 2, 0x02, 1, 1, 2, 0x03, 0, 0, 0x03, 0, 1,
];

// A doubted state that is left only where command and event are alike.
pub(crate) const FLOOR_C: [u8; 26] = [
    0x01, 0, 2, 0x02, 1, 2, 2, 0x03, 0, 1, 0x03, 0, 0, 0x03, 0, 0, 0x03, 0, 1, 0x02, 0, 1, 1, 0x03,
    0, 1,
];

// The resting site.
pub(crate) const RESTING: [u8; 10] = [0x01, 0, 1, 0x02, 2, 1, 1, 0x03, 0, 0];

// A floor whose last state has a second number that is not the least which the check accepts.
pub(crate) const LATE: [u8; 34] = [
    0x01, 0, 4, 0x02, 1, 1, 1, 0x03, 0, 0, 0x02, 2, 1, 1, 0x03, 0, 0, 0x02, 0, 1, 1, 0x03, 0, 0,
    0x02, 2, 2, 1, 0x03, 0, 1, 0x03, 0, 2,
];
