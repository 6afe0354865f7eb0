//! The library's surface, for callers other than this program: revisions with bodies that are values.
ghost use Rattle.std.specs.Prelude.{◌≡◌, Err, IfOk, IsOkUnless, Ok, OnErr, OnOk, false, option_copied, string_bytes, true};
ghost use Rattle.mg_value.specs.View.{view};
ghost use Rattle.mg_revtree.specs.History.{Paths, fits, is_known_whole};
ghost use Rattle.mg_revtree.specs.Tree.{StandsFor};
ghost use Rattle.mg_revtree.specs.Changes.{Decides, extension, found_of, path_of, refusal_of, with_path};

use crate::body::Body;
use crate::error::{MergeError, Merged, TreeError};
use crate::history::History;
use crate::leaf::Leaf;
use crate::rev_id::RevId;
use crate::revision::Rev;
use crate::tree::RevTree;
use mg_value::{Json, NoMemory};
use std::alloc::Global;

impl RevTree {
    /// Makes a new revision as `extend_with` does, with a `Json` as the body, which is packed into a block.
    ///
    /// Errors: those of `extend_with`, and `NoMemory` if the body cannot be packed. Cost: that of `extend_with`, and the size of the body.
    pub fn extend(
        &mut self,
        parent: Option<&Rev>,
        id: String,
        deleted: bool,
        body: Json,
    ) -> Result<(), TreeError>
        ensures accepted { OnOk result ((h : Paths) → StandsFor self.old h
            → StandsFor self.new
            (with_path h (extension (option_copied parent.entry) (string_bytes id) deleted (view body)))) }
        ensures decided { (h : Paths) → StandsFor self.old h
            → Decides (refusal_of h (option_copied parent.entry) (string_bytes id)) result }
        ensures err { OnErr result (self.new ≡ self.old) }
    {
        let pos = self.open_position(parent, &id)?;
        let body = Body::of_json(self.alloc, &body)?;
        self.make_revision(pos, parent, id, deleted, body)?;
        Ok(())
    }

    /// Accepts a path as `merge_with` does, with a `Json` as the body, which is packed into a block.
    ///
    /// Errors: those of `merge_with`, and `NoMemory` if the body cannot be packed. Cost: that of `merge_with`, and the size of the body.
    pub fn merge(&mut self, path: &History, deleted: bool, body: Json) -> Result<Merged, MergeError>
        ensures accepted { OnOk result ((h : Paths) → StandsFor self.old h
            → StandsFor self.new (with_path h (path_of path.now deleted (view body)))) }
        ensures found { IfOk result (λ m. (h : Paths) → StandsFor self.old h → m ≡ found_of h path.now) }
        ensures fitting { (h : Paths) → StandsFor self.old h → fits h path.now ≡ true
            → IsOkUnless result MergeError.NoMemory }
        ensures refused { (h : Paths) → StandsFor self.old h → fits h path.now ≡ false
            → result ≡ Err MergeError.BadHistory }
        ensures whole { (h : Paths) → StandsFor self.old h → is_known_whole h path.now ≡ true
            → (result ≡ Ok Merged.Known) × (self.new ≡ self.old) }
        ensures err { OnErr result (self.new ≡ self.old) }
    {
        if self.is_merged(path)? {
            return Ok(Merged::Known);
        }
        let body = Body::of_json(self.alloc, &body)?;
        let (start, ids) = path.run();
        Ok(self.accept(start, ids, deleted, body)?)
    }
}

impl Leaf {
    /// Copies the body into a `Json` that owns its memory. Errors and cost: those of `Body::copy`.
    pub fn json(&self, alloc: Global) -> Result<Json, NoMemory>
        ensures { IfOk result (λ value. view value ≡ self.now.body) }
    {
        self.body.copy(alloc)
    }
}

impl Rev {
    /// Makes the revision of this position and this id, which should be one that `is_rev_id` allows; this is not checked. Takes no memory.
    pub fn new(pos: u32, id: String) -> Rev
        ensures { result ≡ (pos, string_bytes id) }
    {
        Rev {
            pos,
            id: RevId::of(id),
        }
    }
}
