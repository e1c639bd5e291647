// Reading leaves and replies from the bytes of a book.
ghost use Rattle.std.specs.Prelude.{◌≡◌, length, OnOk};
ghost use Rattle.site.specs.Refusals.{answered};
ghost use Rattle.records.specs.BookRead.{book_read, states_read, leaves_after, replies_after};
ghost use Rattle.records.specs.BookWritten.{book_bytes};

use crate::book_scanning::scan_book;
use checker::leaves::{Leaf, PLACES};
use site::faults::{Fault, enough};
use site::interface::Site;

// Reads a site's book onto leaves and replies. The bytes are scanned twice: everything is tested before the
// first entry is written, so a refusal writes nothing.
pub fn read_book<S: Site>(
    site: &S,
    bytes: &[u8],
    leaves: &mut [Leaf],
    replies: &mut [u8],
) -> Result<usize, Fault>
    ensures answer { answered result ≡ states_read (book_read (S.Site.arena site.now) bytes.now (length leaves.old) (length replies.old)) }
    ensures leaf_sheet { leaves.new ≡ leaves_after (book_read (S.Site.arena site.now) bytes.now (length leaves.old) (length replies.old)) leaves.old }
    ensures reply_sheet { replies.new ≡ replies_after (book_read (S.Site.arena site.now) bytes.now (length leaves.old) (length replies.old)) replies.old }
    ensures trip { OnOk result (book_bytes (S.Site.arena site.now) leaves.new replies.new ≡ bytes.now) }
{
    let states = scan_book(site, bytes, &mut [], &mut [])?;
    enough(leaves.len(), states)?;
    enough(replies.len(), PLACES * states)?;
    scan_book(site, bytes, leaves, replies)
}
