// Laying an entry over a sheet as far as there is room.
ghost use Rattle.std.specs.Prelude.{◌≡◌, slice_set};

// The entry, where the sheet has the place.
pub(crate) fn lay<T: Copy>(entry: T, place: usize, sheet: &mut [T])
    ensures { sheet.new ≡ slice_set sheet.old place entry }
{
    if place < sheet.len() {
        sheet[place] = entry;
    }
}
