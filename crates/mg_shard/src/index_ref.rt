/// Names an index of a shard, by its design document and its name.
#[derive(Clone, Copy, Debug)]
pub struct IndexRef<'a> {
    pub ddoc: &'a str,
    pub name: &'a str,
    /// Where the index is looked for first: its place in the catalog, from 0. A wrong place costs a look-up by name, and changes no result.
    pub place: usize,
}
