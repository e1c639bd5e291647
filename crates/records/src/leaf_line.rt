// What the line of a state says of its leaf.
ghost use Rattle.std.specs.Prelude.{◌+◌, ◌*◌, ◌≤◌, length};
ghost use Rattle.records.specs.Lines.{replies_text, leaf_text};
ghost use Rattle.records.specs.Pens.{Fits, Wrote};

use crate::pen::Pen;
use checker::leaves::Leaf;

// Each reply after a blank.
fn put_replies(replies: &[u8], pen: &mut Pen<'_>)
    requires { Fits (4 * length replies.now + 20) pen.old }
    ensures short { pen.new.at ≤ pen.old.at + 4 * length replies.now }
    ensures put { Wrote (replies_text replies.now) pen.old pen.new }
{
    for reply in replies {
        pen.field(b" ", usize::from(*reply));
    }
}

// What a state's line says of its leaf, with the state's replies.
pub(crate) fn put_leaf(leaf: Leaf, replies: &[u8], pen: &mut Pen<'_>)
    requires { Fits (4 * length replies.now + 49) pen.old }
    ensures short { pen.new.at ≤ pen.old.at + 4 * length replies.now + 31 }
    ensures put { Wrote (leaf_text leaf replies.now) pen.old pen.new }
{
    match leaf {
        Leaf::Covered { command, rank } => {
            pen.field(b" covered command ", usize::from(command));
            pen.field(b" rank ", usize::from(rank));
        }
        Leaf::Open { first, second } => {
            pen.field(b" open pair ", usize::from(first));
            pen.field(b" ", usize::from(second));
            pen.text(b" events");
            put_replies(replies, pen);
        }
    }
}
