// The sheets of a table: a row for each state, and arrows in the order of state, command and event.
use crate::grades::Grade;

// One state: its grade, how many commands and events it has, and the number of its first arrow. A sheet that is still to
// be filled has default rows.
#[derive(Clone, Copy, PartialEq, Eq, Debug, Default)]
pub struct Row {
    pub grade: Grade,
    pub commands: u8,
    pub events: u8,
    pub first: u32,
}
