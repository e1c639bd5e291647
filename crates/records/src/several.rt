// Reading several records of one kind, one after the other.
ghost use Rattle.std.specs.Prelude.{ℕ, ◌+◌, ◌^◌, ◌<◌, List, Result};
ghost use Rattle.site.specs.Refusals.{Refusal};
ghost use Rattle.records.specs.Readings.{Reads, ReadsSeveral};
ghost use Rattle.records.specs.Taken.{Found};

use crate::laying::lay;
use crate::unread::Unread;
use site::faults::Fault;

// A kind of record: how many bytes one takes, and what is taken off the front of bytes at an offset.
pub(crate) trait Record {
    type Item: Copy;

    ghost width: { ℕ };

    ghost taken: { Self → ℕ → List ℕ → Result (Found Self.Item) Refusal };

    // Takes a record off the front, and hands on what is left.
    fn read<'a>(&self, from: Unread<'a>) -> Result<(Self::Item, Unread<'a>), Fault>
        ensures { Reads (λ _. width) (taken self.now) from.entry result };
}

// Reads `count` records and lays them over a sheet from the place `first` on; hands on what is left after them.
pub(crate) fn read_several<'a, R: Record>(
    kind: &R,
    count: usize,
    from: Unread<'a>,
    first: usize,
    sheet: &mut [R::Item],
) -> Result<Unread<'a>, Fault>
    requires { first + count < 2 ^ 64 }
    ensures { ReadsSeveral (R.taken kind.now) R.width from.entry first sheet.old count result sheet.new }
{
    let mut unread = from;
    for i in 0..count {
        let (item, left) = kind.read(unread)?;
        lay(item, first + i, sheet);
        unread = left;
    }
    Ok(unread)
}
