// What the tables of a container say of its marks: how many pieces there are, where the marks begin, and whether a mark takes eight bytes
// or four.
#[derive(Clone, Copy)]
pub(crate) struct Head {
    pub(crate) pieces: usize,
    pub(crate) begin: usize,
    pub(crate) wide: bool,
}
