// The lines of a listing: the numbers of states, and a line for each state.
ghost use Rattle.std.specs.Prelude.{◌≡◌, ◌+◌, ◌*◌, ◌<◌, ◌≤◌, length, IfOk};
ghost use Rattle.site.specs.Refusals.{answered};
ghost use Rattle.records.specs.Buffers.{counted, buffer_after};
ghost use Rattle.records.specs.Lines.{head_answer, state_answer};

use crate::leaf_line::put_leaf;
use crate::own_replies::own_replies;
use crate::pen::Pen;
use checker::leaves::{Leaf, PLACES};
use site::faults::{Fault, enough};
use site::interface::Site;

// The room that every line has.
pub const LINE_ROOM: usize = 128;

// The first line, into the buffer's front; how many bytes it has.
pub fn head_line(
    states: usize,
    covered: usize,
    open: usize,
    buffer: &mut [u8],
) -> Result<usize, Fault>
    ensures answer { answered result ≡ counted (head_answer states covered «open» (length buffer.old)) }
    ensures room { IfOk result (λ n. n ≤ 128) }
    ensures line { buffer.new ≡ buffer_after (head_answer states covered «open» (length buffer.old)) buffer.old }
{
    enough(buffer.len(), LINE_ROOM)?;
    let mut pen = Pen::new(buffer);
    pen.field(b"states ", states);
    pen.field(b" covered ", covered);
    pen.field(b" open ", open);
    pen.text(b"\n");
    Ok(pen.written())
}

// The line of a state, into the buffer's front; how many bytes it has.
pub fn state_line<S: Site>(
    site: &S,
    leaves: &[Leaf],
    replies: &[u8],
    state: usize,
    buffer: &mut [u8],
) -> Result<usize, Fault>
    ensures answer { answered result ≡ counted (state_answer (S.Site.arena site.now) leaves.now replies.now state (length buffer.old)) }
    ensures room { IfOk result (λ n. n ≤ 128) }
    ensures line { buffer.new ≡ buffer_after (state_answer (S.Site.arena site.now) leaves.now replies.now state (length buffer.old)) buffer.old }
{
    let states = site.states();
    enough(leaves.len(), states)?;
    enough(replies.len(), PLACES * states)?;
    enough(buffer.len(), LINE_ROOM)?;
    if states <= state {
        return Err(Fault::NoState { state });
    }
    let mut pen = Pen::new(buffer);
    pen.number(state);
    put_leaf(leaves[state], own_replies(site, replies, state), &mut pen);
    pen.text(b"\n");
    Ok(pen.written())
}
