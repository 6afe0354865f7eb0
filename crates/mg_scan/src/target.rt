ghost use Rattle.std.specs.Prelude.{◌≡◌, List};
ghost use Rattle.mg_index.specs.Definition.{IndexDefinition};
ghost use Rattle.mg_scan.specs.Found.{target_columns};
ghost use Rattle.mg_scan.specs.Named.{named_columns};

use crate::target_ref::TargetRef;
use mg_shard::IndexRef;

/// What `scan` reads in each shard.
#[derive(Debug, Drop)]
pub enum Target {
    /// All documents that are served, each with its id as its key.
    AllDocs,
    /// The index of this design document and name.
    Index { ddoc: String, name: String },
}

impl Target {
    /// Lends the target to a `Search`, which looks for the index at the first place of the catalog, and then by name. Takes no memory.
    pub fn lend(&self) -> TargetRef<'_>
        ensures { (ds : List IndexDefinition) → target_columns result ds ≡ named_columns self.now ds }
    {
        match self {
            Target::AllDocs => TargetRef::AllDocs,
            Target::Index { ddoc, name } => TargetRef::Index(IndexRef {
                ddoc: ddoc.as_str(),
                name: name.as_str(),
                place: 0,
            }),
        }
    }
}
