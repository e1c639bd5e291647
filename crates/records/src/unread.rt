// The bytes that are still to be read.
ghost use Rattle.std.specs.Prelude.{◌+◌, ◌^◌, ◌<◌, length};

// The bytes, and the offset of the first of them.
#[derive(Clone, Copy)]
pub(crate) struct Unread<'a> {
    pub(crate) at: usize,
    pub(crate) bytes: &'a [u8],
    ghost fits: { at + length bytes.now < 2 ^ 64 },
}
