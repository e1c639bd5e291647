// How much a leaf takes in the bytes of a book.
ghost use Rattle.std.specs.Prelude.{◌≡◌};
ghost use Rattle.records.specs.BookBytes.{leaf_width, replies_due};

use checker::leaves::Leaf;

// How many bytes its own record takes.
pub(crate) fn width_of(leaf: Leaf) -> usize
    ensures { result ≡ leaf_width leaf }
{
    match leaf {
        Leaf::Covered { .. } => 4,
        Leaf::Open { .. } => 5,
    }
}

// How many replies follow it, at a state with so many commands.
pub(crate) fn replies_due(leaf: Leaf, commands: usize) -> usize
    ensures { result ≡ replies_due leaf commands }
{
    match leaf {
        Leaf::Covered { .. } => 0,
        Leaf::Open { .. } => commands,
    }
}
