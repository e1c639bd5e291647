// A site's plan as the bytes of a book, in memory of its own.
ghost use Rattle.std.specs.Prelude.{◌≡◌};
ghost use Rattle.desk.specs.Made.{Makes, Gives};
ghost use Rattle.desk.specs.PlannedSites.{own_book};
ghost use Rattle.desk.specs.ReadFloors.{of_floor};

use crate::failures::Failure;
use crate::floors::read_floor;
use crate::planned::plan_site;
use records::book_writing::write_book;
use records::table_size::MOST_STATES;
use site::interface::Site;
use std::alloc::Global;

// The bytes of a book's head, and of the longest leaf with its replies: an open one with 16 commands.
const HEAD: usize = 3;

const LONGEST_LEAF: usize = 37;

// How many bytes the book of a floor that was read can have.
pub const LONGEST_BOOK: usize = HEAD + LONGEST_LEAF * MOST_STATES;

// Plans a site, checks the plan and writes its book.
pub fn book_site<S: Site>(heap: Global, site: &S) -> Result<Vec<u8>, Failure>
    ensures { Makes (own_book (S.Site.arena site.now)) result }
{
    let plan = plan_site(heap, site)?;
    let mut book = vec![in heap; 0u8; HEAD + LONGEST_LEAF * site.states()]?;
    let written = write_book(
        site,
        plan.leaves.as_slice(),
        plan.replies.as_slice(),
        book.as_mut_slice(),
    )?;
    book.truncate(written);
    Ok(book)
}

// Reads a floor's table, plans it, checks the plan and writes its book; the first refusal is the answer.
pub fn book_floor(heap: Global, bytes: &[u8]) -> Result<Vec<u8>, Failure>
    ensures { Gives (of_floor bytes.now own_book) result }
{
    let floor = read_floor(heap, bytes)?;
    book_site(heap, &floor.table())
}
