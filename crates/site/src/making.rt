// Making a table: sheets that break the rules give the resting site.
ghost use Rattle.std.specs.Prelude.{◌≡◌, ◌≤◌, Bool, true, false, length, nat_lt, if◌then◌else◌, Some, None, MatchOption};
ghost use Rattle.std.specs.List.{list_all};
ghost use Rattle.site.specs.Counting.{every};
ghost use Rattle.site.specs.Tables.{fair, row_ok, row_fair, arrows_before, table, made_from, NothingBeyond};
ghost use Rattle.site.specs.Trimmed.{Stands};

use crate::grades::Grade;
use crate::interface::MOST_STATES;
use crate::sheets::Row;
use crate::tables::Table;

// The sheets of the resting site.
static RESTING_ROWS: [Row; 1] = [Row {
    grade: Grade::Ordinary,
    commands: 1,
    events: 1,
    first: 0,
}];

static RESTING_ARROWS: [u16; 1] = [0];

// Whether a row is in order, with arrows that begin at `at`.
fn row_ok(row: &Row, at: usize) -> bool
    ensures { result ≡ row_ok row.now at }
{
    row.first as usize == at && (1..=16).contains(&row.commands) && (1..=16).contains(&row.events)
}

// The number of arrows of all rows, if each of them is in order.
fn arrows_of(rows: &[Row]) -> Option<usize>
    requires { length rows.now ≤ 8192 }
    ensures { result ≡ (if every (row_fair rows.now) (length rows.now) then Some (arrows_before rows.now (length rows.now)) else None) }
{
    let mut total: usize = 0;
    for row in rows {
        if !row_ok(row, total) {
            return None;
        }
        total += row.commands as usize * row.events as usize;
    }
    Some(total)
}

// Whether all arrows lead to one of `n` states.
fn arrows_fair(n: usize, arrows: &[u16]) -> bool
    ensures { result ≡ list_all (λ to. nat_lt to n) arrows.now }
{
    arrows.iter().all(|arrow| (*arrow as usize) < n)
}

impl<'a> Table<'a> {
    // The table that fair sheets stand for: the rows of its states and their arrows, and nothing beyond.
    fn of_fair(states: usize, rows: &'a [Row], arrows: &'a [u16]) -> Option<Table<'a>>
        ensures { MatchOption result (fair states rows.now arrows.now ≡ false) (λ t. Stands t states rows.now arrows.now) }
    {
        let rows = rows.get(..states)?;
        if rows.is_empty() || rows.len() > MOST_STATES {
            return None;
        }
        let total = arrows_of(rows)?;
        let arrows = arrows.get(..total)?;
        if !arrows_fair(states, arrows) {
            return None;
        }
        Some(Table { rows, arrows })
    }

    // A table of `states` states. It is never refused: broken sheets give the resting site.
    pub fn new(states: usize, rows: &'a [Row], arrows: &'a [u16]) -> Table<'a>
        ensures meaning { table (length result.rows.now) result.rows.now result.arrows.now ≡ made_from states rows.now arrows.now }
        ensures beyond { NothingBeyond states rows.now arrows.now }
    {
        Table::of_fair(states, rows, arrows).unwrap_or(Table {
            rows: &RESTING_ROWS,
            arrows: &RESTING_ARROWS,
        })
    }
}
