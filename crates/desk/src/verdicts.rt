// A book checked as a reader does before it loads it.
ghost use Rattle.std.specs.Prelude.{◌≡◌, ◌≤◌, length, IfOk};
ghost use Rattle.desk.specs.Made.{Answers};
ghost use Rattle.desk.specs.Verdicts.{book_verdict, table_end, verdict};

use crate::failures::Failure;
use crate::floors::read_floor;
use crate::pairs::blank_pair;
use checker::checks::check;
use checker::leaves::Counts;
use records::book_reading::read_book;
use site::faults::Fault;
use site::interface::Site;
use std::alloc::Global;

// Reads a site's book and checks it.
pub fn check_book<S: Site>(heap: Global, site: &S, book: &[u8]) -> Result<Counts, Failure>
    ensures { Answers (book_verdict (S.Site.arena site.now) book.now) result }
{
    let (mut leaves, mut replies) = blank_pair(heap, site)?;
    read_book(site, book, leaves.as_mut_slice(), replies.as_mut_slice())?;
    let counts = check(site, leaves.as_slice(), replies.as_slice())?;
    Ok(counts)
}

// Where the table ends with which the bytes begin: bytes behind it are what reading it alone refuses as surplus.
fn table_end(heap: Global, bytes: &[u8]) -> Result<usize, Failure>
    ensures answer { Answers (table_end bytes.now) result }
    ensures within { IfOk result (λ end. end ≤ length bytes.now) }
{
    match read_floor(heap, bytes) {
        Ok(_) => Ok(bytes.len()),
        Err(Failure::Refused(Fault::SurplusBytes { at })) => Ok(at.min(bytes.len())),
        Err(failure) => Err(failure),
    }
}

// Reads a floor's table and the book behind it, and checks the book on the floor; the first refusal is the answer. A
// refusal of the book has its place counted from the book's first byte.
pub fn check_floor_book(heap: Global, bytes: &[u8]) -> Result<Counts, Failure>
    ensures { Answers (verdict bytes.now) result }
{
    let end = table_end(heap, bytes)?;
    let floor = read_floor(heap, &bytes[..end])?;
    check_book(heap, &floor.table(), &bytes[end..])
}
