// The three kinds of record of a table: each reader takes one off the front and hands on what is left.
ghost use Rattle.std.specs.Prelude.{◌≡◌, ◌+◌, ◌*◌, ◌≤◌, MatchResult, Ok, Err};
ghost use Rattle.site.specs.Refusals.{told, answered};
ghost use Rattle.records.specs.Readings.{Reads};
ghost use Rattle.records.specs.TableBytes.{head_in, bad_count, row_of, row_in, arrow_in};

use crate::kinds::{ARROW, ROW, TABLE};
use crate::several::Record;
use crate::table_size::{MOST_ARROWS, MOST_STATES};
use crate::unread::Unread;
use site::faults::Fault;
use site::grades::Grade;
use site::sheets::Row;

const MOST_MOVES: u8 = 16;

// An arrow to one of `states` states.
#[derive(Clone, Copy)]
pub(crate) struct Arrow {
    pub(crate) states: usize,
}

impl Record for Arrow {
    type Item = u16;

    ghost width = { 3 };

    ghost taken = { λ arrow. arrow_in arrow.states };

    fn read<'a>(&self, from: Unread<'a>) -> Result<(u16, Unread<'a>), Fault> {
        let at = from.at;
        match from.bytes {
            [ARROW, hi, lo, bytes @ ..] => {
                let next = u16::from_be_bytes([*hi, *lo]);
                if self.states <= usize::from(next) {
                    return Err(Fault::ArrowRange { at });
                }
                Ok((next, Unread { at: at + 3, bytes }))
            }
            [] | [ARROW, ..] => Err(Fault::BytesEnd { at }),
            _ => Err(Fault::OtherKind { at }),
        }
    }
}

// The number of states, at the very front.
pub(crate) fn read_head(bytes: &[u8]) -> Result<(usize, Unread<'_>), Fault>
    ensures { MatchResult result
        (λ p. (head_in bytes.now ≡ Ok (record { what = p.0; left = p.1.bytes.now })) × (p.1.at ≡ 3))
        (λ f. head_in bytes.now ≡ Err (told f)) }
{
    match bytes {
        [TABLE, hi, lo, bytes @ ..] => {
            let states = usize::from(u16::from_be_bytes([*hi, *lo]));
            if states == 0 || states > MOST_STATES {
                return Err(Fault::StateCount);
            }
            Ok((states, Unread { at: 3, bytes }))
        }
        [] | [TABLE, ..] => Err(Fault::BytesEnd { at: 0 }),
        _ => Err(Fault::OtherKind { at: 0 }),
    }
}

// Whether a state may not have so many commands or events.
fn bad_count(count: u8) -> bool
    ensures { result ≡ bad_count count }
{
    count == 0 || count > MOST_MOVES
}

// The row whose bytes these are, if its values are in range; its arrows begin at `first`.
fn row_of(at: usize, first: usize, number: u8, commands: u8, events: u8) -> Result<Row, Fault>
    requires { first ≤ 16384 }
    ensures { answered result ≡ row_of at first number commands events }
{
    let Ok(grade) = Grade::try_from(number) else {
        return Err(Fault::GradeRange { at });
    };
    if bad_count(commands) || bad_count(events) {
        return Err(Fault::MoveCount { at });
    }
    if first + usize::from(commands) * usize::from(events) > MOST_ARROWS {
        return Err(Fault::ArrowCount { at });
    }
    Ok(Row {
        grade,
        commands,
        events,
        first: first as u32,
    })
}

// A row, after `first` arrows.
pub(crate) fn read_row(from: Unread<'_>, first: usize) -> Result<(Row, Unread<'_>), Fault>
    requires { first ≤ 16384 }
    ensures { Reads (λ _. 4) (λ at. row_in at first) from.entry result }
{
    let at = from.at;
    match from.bytes {
        [ROW, number, commands, events, bytes @ ..] => {
            let row = row_of(at, first, *number, *commands, *events)?;
            Ok((row, Unread { at: at + 4, bytes }))
        }
        [] | [ROW, ..] => Err(Fault::BytesEnd { at }),
        _ => Err(Fault::OtherKind { at }),
    }
}
