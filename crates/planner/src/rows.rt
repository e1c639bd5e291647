// The rows of numbers that planning works out: slices of the work that the caller lends.
#[derive(Clone, Copy)]
pub(crate) struct Rows<'a> {
    // first numbers, with a mark where the state is covered
    pub(crate) firsts: &'a [u16],
    pub(crate) ranks: &'a [u16],
    pub(crate) seconds: &'a [u16],
}
