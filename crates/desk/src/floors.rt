// A floor that was read from bytes, in memory of its own.
ghost use Rattle.std.specs.Prelude.{◌≡◌, length};
ghost use Rattle.site.specs.Tables.{table};
ghost use Rattle.desk.specs.ReadFloors.{FloorOf, floor_site};

use crate::failures::Failure;
use records::reading::read_table;
use records::table_size::{MOST_ARROWS, MOST_STATES};
use site::sheets::Row;
use site::tables::Table;
use std::alloc::Global;

// How many bytes the longest table has: a head, a row for each state, and the arrows.
pub const LONGEST_TABLE: usize = 3 + 4 * MOST_STATES + 3 * MOST_ARROWS;

// The sheets of a floor, which have room for every table: the first `states` rows and their arrows make its own. The
// number stands beside them, since what reading leaves on the whole of both sheets is promised.
#[derive(Drop)]
pub struct Floor {
    pub states: usize,
    pub rows: Vec<Row>,
    pub arrows: Vec<u16>,
}

impl Floor {
    // The table that the sheets make.
    pub fn table(&self) -> Table<'_>
        ensures { table (length result.rows.now) result.rows.now result.arrows.now ≡ floor_site self.now }
    {
        Table::new(self.states, self.rows.as_slice(), self.arrows.as_slice())
    }
}

// Reads a floor's table.
pub fn read_floor(heap: Global, bytes: &[u8]) -> Result<Floor, Failure>
    ensures { FloorOf bytes.now result }
{
    let mut rows = vec![in heap; Row::default(); MOST_STATES]?;
    let mut arrows = vec![in heap; 0u16; MOST_ARROWS]?;
    let size = read_table(bytes, rows.as_mut_slice(), arrows.as_mut_slice())?;
    Ok(Floor {
        states: size.states,
        rows,
        arrows,
    })
}
