use mg_shard::IndexRef;

/// What a `Search` reads in each shard.
#[derive(Clone, Copy, Debug)]
pub enum TargetRef<'a> {
    /// All documents that are served, each with its id as its key.
    AllDocs,
    /// The index of this name.
    Index(IndexRef<'a>),
}
