// Gaps in a row of ranks. Where no state has some number, no state above it can keep to any: those go to the top at once.
ghost use Rattle.std.specs.Prelude.{◌≡◌, ℕ, ◌<◌, length, if◌then◌else◌, nat_lt};
ghost use Rattle.parts.specs.Gaps.{in_use, unmarked, Cut};
ghost use Rattle.parts.specs.Lifting.{at};
ghost use Rattle.parts.specs.Regions.{lowest};

// Marks with 1 the numbers that some state has, as far as there are places for marks.
fn mark_used(ranks: &[u16], marks: &mut [u16])
    ensures { (v : ℕ) → v < length marks.old → at marks.new v ≡ (if in_use ranks.now v then 1 else 0) }
{
    marks.fill(0);
    for rank in ranks {
        let number = usize::from(*rank);
        if number < marks.len() {
            marks[number] = 1;
        }
    }
}

// Whether `number` has a mark, which says that no state has the number.
fn is_unused(marks: &[u16], number: u16) -> bool
    ensures { result ≡ unmarked marks.now number }
{
    marks
        .get(usize::from(number))
        .is_some_and(|mark| *mark == 0)
}

// The lowest number below `top` whose mark says that no state has it; `top` where there is none.
fn lowest_unused(top: u16, marks: &[u16]) -> u16
    ensures { result ≡ lowest (unmarked marks.now) top }
{
    (0..top)
        .find(|number| is_unused(marks, *number))
        .unwrap_or(top)
}

// Raises every state above `gap` to `top`.
fn raise_above(gap: u16, top: u16, ranks: &mut [u16])
    ensures { (s : ℕ) → at ranks.new s ≡ (if nat_lt gap (at ranks.old s) then top else at ranks.old s) }
{
    for rank in ranks.iter_mut() {
        if gap < *rank {
            *rank = top;
        }
    }
}

// Looks for the lowest number that no state has, and raises the states above it to `top`. The marks are memory for it.
pub(crate) fn close_gap(top: u16, ranks: &mut [u16], marks: &mut [u16])
    ensures { Cut top ranks.old ranks.new }
{
    mark_used(ranks, marks);
    let gap = lowest_unused(top, marks);
    raise_above(gap, top, ranks);
}
