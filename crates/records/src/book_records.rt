// The kinds of record of a book: each reader takes one off the front and hands on what is left.
ghost use Rattle.std.specs.Prelude.{◌≡◌, MatchResult, Ok, Err};
ghost use Rattle.site.specs.Refusals.{told};
ghost use Rattle.records.specs.BookBytes.{book_head_in, leaf_in, leaf_width, reply_in};
ghost use Rattle.records.specs.Readings.{Reads};

use crate::kinds::{BOOK, COVERED, OPEN, REPLY};
use crate::several::Record;
use crate::unread::Unread;
use checker::leaves::Leaf;
use site::faults::Fault;

// The number of states, at the very front: it is that of the site.
pub(crate) fn read_book_head(states: usize, bytes: &[u8]) -> Result<Unread<'_>, Fault>
    ensures { MatchResult result
        (λ left. (book_head_in states bytes.now ≡ Ok left.bytes.now) × (left.at ≡ 3))
        (λ f. book_head_in states bytes.now ≡ Err (told f)) }
{
    match bytes {
        [BOOK, hi, lo, bytes @ ..] => {
            if usize::from(u16::from_be_bytes([*hi, *lo])) != states {
                return Err(Fault::StateCount);
            }
            Ok(Unread { at: 3, bytes })
        }
        [] | [BOOK, ..] => Err(Fault::BytesEnd { at: 0 }),
        _ => Err(Fault::OtherKind { at: 0 }),
    }
}

// The leaf of a state.
pub(crate) fn read_leaf(from: Unread<'_>) -> Result<(Leaf, Unread<'_>), Fault>
    ensures { Reads leaf_width leaf_in from.entry result }
{
    let at = from.at;
    match from.bytes {
        [COVERED, command, hi, lo, bytes @ ..] => {
            let command = *command;
            let rank = u16::from_be_bytes([*hi, *lo]);
            Ok((
                Leaf::Covered { command, rank },
                Unread { at: at + 4, bytes },
            ))
        }
        [OPEN, first_hi, first_lo, second_hi, second_lo, bytes @ ..] => {
            let first = u16::from_be_bytes([*first_hi, *first_lo]);
            let second = u16::from_be_bytes([*second_hi, *second_lo]);
            Ok((Leaf::Open { first, second }, Unread { at: at + 5, bytes }))
        }
        [] | [COVERED, ..] | [OPEN, ..] => Err(Fault::BytesEnd { at }),
        _ => Err(Fault::OtherKind { at }),
    }
}

// A reply.
#[derive(Clone, Copy)]
pub(crate) struct Reply;

impl Record for Reply {
    type Item = u8;

    ghost width = { 2 };

    ghost taken = { λ _. reply_in };

    fn read<'a>(&self, from: Unread<'a>) -> Result<(u8, Unread<'a>), Fault> {
        let at = from.at;
        match from.bytes {
            [REPLY, event, bytes @ ..] => Ok((*event, Unread { at: at + 2, bytes })),
            [] | [REPLY, ..] => Err(Fault::BytesEnd { at }),
            _ => Err(Fault::OtherKind { at }),
        }
    }
}
