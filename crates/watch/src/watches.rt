// A watch: it turns with the grades of a site and shows other grades in their place.
ghost use Rattle.std.specs.Prelude.{◌≡◌, true};
ghost use Rattle.watch.specs.Watches.{watch_range, entries};

// The entry for position p and grade g stands at p × 3 + g. The ranges hold whenever a watch exists. Two sheets of bytes,
// as they are lent when the watch is set: entries past those of the positions are kept as they came, whatever they are.
#[derive(Clone, Copy)]
pub struct Watch {
    pub(crate) positions: usize,
    pub(crate) turns: [u8; 24],
    pub(crate) shows: [u8; 24],
    ghost ok: { watch_range (entries positions turns shows) ≡ true },
}
