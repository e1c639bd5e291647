// The scan of a table's bytes: it lays what it reads over the sheets as far as there is room.
ghost use Rattle.std.specs.Prelude.{◌≡◌, MatchResult, Err};
ghost use Rattle.site.specs.Refusals.{told};
ghost use Rattle.records.specs.TableBytes.{states_in};
ghost use Rattle.records.specs.Scanning.{StatesDone, Scanned};

use crate::laying::lay;
use crate::record_bytes::{Arrow, read_head, read_row};
use crate::several::read_several;
use crate::table_size::TableSize;
use crate::unread::Unread;
use site::faults::Fault;
use site::sheets::Row;

// All states with their arrows; the number of arrows, and what is left after them.
fn read_states<'a>(
    states: usize,
    from: Unread<'a>,
    rows: &mut [Row],
    arrows: &mut [u16],
) -> Result<(usize, Unread<'a>), Fault>
    requires { from.at ≡ 3 }
    ensures { MatchResult result
        (λ p. StatesDone states from.entry.bytes.now rows.old arrows.old states p.0 p.1 rows.new arrows.new)
        (λ f. states_in states states from.entry.bytes.now ≡ Err (told f)) }
{
    let mut total = 0;
    let mut unread = from;
    for state in 0..states {
        let (row, body) = read_row(unread, total)?;
        let count = usize::from(row.commands) * usize::from(row.events);
        unread = read_several(&Arrow { states }, count, body, total, arrows)?;
        lay(row, state, rows);
        total += count;
    }
    Ok((total, unread))
}

// A whole table, and nothing after it. A refusal may leave a part of it on the sheets.
pub(crate) fn scan(bytes: &[u8], rows: &mut [Row], arrows: &mut [u16]) -> Result<TableSize, Fault>
    ensures { Scanned bytes.now rows.old arrows.old result rows.new arrows.new }
{
    let (states, from) = read_head(bytes)?;
    let (arrows, left) = read_states(states, from, rows, arrows)?;
    if !left.bytes.is_empty() {
        return Err(Fault::SurplusBytes { at: left.at });
    }
    Ok(TableSize { states, arrows })
}
