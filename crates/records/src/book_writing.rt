// Writing leaves and replies as the bytes of a book.
ghost use Rattle.std.specs.Prelude.{◌≡◌, length, take, IfOk};
ghost use Rattle.site.specs.Refusals.{answered};
ghost use Rattle.records.specs.BookTrip.{BookBack};
ghost use Rattle.records.specs.BookWritten.{book_answer};
ghost use Rattle.records.specs.Buffers.{counted, buffer_after};

use crate::book_puts::{leaves_room, put_leaves};
use crate::kinds::BOOK;
use crate::pen::Pen;
use checker::leaves::{Leaf, PLACES};
use site::faults::{Fault, enough};
use site::interface::Site;

// The book of a site, onto the buffer's front; how many bytes it has. Any leaves and replies are written.
pub fn write_book<S: Site>(
    site: &S,
    leaves: &[Leaf],
    replies: &[u8],
    buffer: &mut [u8],
) -> Result<usize, Fault>
    ensures answer { answered result ≡ counted (book_answer (S.Site.arena site.now) leaves.now replies.now (length buffer.old)) }
    ensures bytes { buffer.new ≡ buffer_after (book_answer (S.Site.arena site.now) leaves.now replies.now (length buffer.old)) buffer.old }
    ensures trip { IfOk result (λ n. BookBack (S.Site.arena site.now) leaves.now replies.now (take n buffer.new)) }
{
    let states = site.states();
    enough(leaves.len(), states)?;
    enough(replies.len(), PLACES * states)?;
    let needed = 3 + leaves_room(site, leaves);
    enough(buffer.len(), needed)?;
    let mut pen = Pen::new(buffer);
    pen.numbered(BOOK, states);
    put_leaves(site, leaves, replies, &mut pen);
    Ok(pen.written())
}
