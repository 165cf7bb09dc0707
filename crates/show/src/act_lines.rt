// The act lines of a file.

// A cursor over the section of acts: `rest` is what is not read yet, `first` the line of the first act, and `count` how
// many acts are read. The small types keep line numbers from overflowing.
#[derive(Clone, Copy, PartialEq, Eq, Debug)]
pub struct Acts<'a> {
    pub(crate) rest: &'a [u8],
    pub(crate) first: u32,
    pub(crate) count: u16,
}
