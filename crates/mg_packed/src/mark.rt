// Where a piece of a container begins: the place of the byte before it in the container's text, and that of its tables in the container's
// tables.
#[derive(Clone, Copy)]
pub(crate) struct Mark {
    pub(crate) at: usize,
    pub(crate) deep: usize,
}
