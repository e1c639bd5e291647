// Where a drift site stands.
#[derive(Clone, Copy, PartialEq, Eq, Debug)]
pub enum Place {
    // the clock's offset in quarters of a second, after so many lost settings in a row
    Offset { offset: i64, lost: usize },
    // the clocks no longer agree
    Apart,
    // a setting was heard
    Confirmed,
}
