// The sort and the hint of a query.
ghost use Rattle.std.specs.Prelude.{◌≡◌};
ghost use Rattle.mg_index.specs.Choice.{is_hinted};
ghost use Rattle.mg_index.specs.View.{hint_of};

use crate::definition::IndexDef;
use mg_collate::Direction;
use mg_path::Path;

/// The sort of a query: its paths and their direction. Without a sort, there are no paths, and the
/// direction is ascending.
#[derive(Debug, Drop)]
pub struct Sort {
    pub paths: Vec<Path>,
    pub direction: Direction,
}

/// Which indexes a query prefers: no index, those of a design document, or the one with this design document
/// and this name. The name of a design document begins with `_design/`.
#[derive(Debug, Drop)]
pub enum Hint {
    None,
    Ddoc(String),
    Both(String, String),
}

impl Hint {
    /// Whether the hint names the index, or the index's design document alone. Takes no memory.
    pub fn names(&self, definition: &IndexDef) -> bool
        ensures { result ≡ is_hinted (hint_of self.now) definition.now }
    {
        match self {
            Hint::None => false,
            Hint::Ddoc(ddoc) => ddoc.as_str() == definition.ddoc(),
            Hint::Both(ddoc, name) => definition.is_named(ddoc.as_str(), name.as_str()),
        }
    }
}
