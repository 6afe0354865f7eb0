ghost use Rattle.std.specs.Prelude.{◌≡◌, ◌↔◌, ℕ, List, map, string_bytes, Some, None, Err, IfOk, is_some, option_map, option_and_then};
ghost use Rattle.std.specs.Coded.{coded_ℕ, coded_list};
ghost use Rattle.mg_value.specs.View.{view as json_view};
ghost use Rattle.mg_path.specs.Part.{steps_of, part_of};

use crate::error::PathError;
use crate::part::part_of;
use crate::pieces::{has_empty_piece, pieces};
use mg_value::{Json, LentValue, NoMemory, copy_texts};
use std::alloc::Global;
use std::marker::Model;

/// A way into a JSON value: one or more steps, none of them empty.
#[derive(Debug, Drop)]
pub struct Path {
    steps: Vec<String>,
}

impl Model for Path {
    ghost Value = { List (List ℕ) };

    ghost coded = { coded_list (coded_list coded_ℕ) };

    ghost view = { λ path. map string_bytes path.steps.items };
}

impl PartialEq for Path {
    ghost use Rattle.mg_path.specs.Equal.{path_eq, path_eq_laws};

    ghost eq = { path_eq };

    ghost laws = { path_eq_laws };

    fn eq(&self, other: &Path) -> bool {
        self.steps == other.steps
    }
}

impl Eq for Path {
    ghost use Rattle.mg_path.specs.Equal.{path_eq_equivalence};

    ghost laws = { path_eq_equivalence };
}

impl Path {
    /// Reads a text such as `a.b.0`, with dots between the steps. `\.` is a dot within a step; a
    /// backslash before anything else is a backslash.
    ///
    /// Errors: `Empty` if and only if the text has an empty step (then no memory was taken); `NoMemory` if an
    /// allocation fails.
    /// Cost: the length of the text. Source: the field syntax of CouchDB's `_find`.
    pub fn parse(alloc: Global, text: &str) -> Result<Path, PathError>
        ensures ok { IfOk result (λ path. steps_of text.now ≡ Some path) }
        ensures empty { (result ≡ Err PathError.Empty) ↔ (steps_of text.now ≡ None) }
    {
        if !is_path(text) {
            return Err(PathError::Empty);
        }
        Ok(Path {
            steps: pieces(alloc, text)?,
        })
    }

    /// Lends the steps, in order.
    pub fn steps(&self) -> &[String]
        ensures { map string_bytes result.now ≡ self.now }
    {
        &self.steps
    }

    /// Turns the path into its steps, in order. Takes no memory.
    pub fn into_steps(self) -> Vec<String>
        ensures { map string_bytes result.items ≡ self }
    {
        self.steps
    }

    /// Finds the part of the value at this path, and borrows it. In an object a step is the name of a member; in
    /// an array it is the place of an item, from 0 and without leading zeros. `None` if the part is missing.
    /// Takes no memory.
    ///
    /// Cost: for each step a look-up in an object or an array.
    pub fn get<'a>(&self, value: &'a Json) -> Option<&'a Json>
        ensures { option_map (λ part. json_view part.now) result
            ≡ part_of self.now (json_view value.now) }
    {
        part_of(&self.steps, value)
    }

    /// Finds the part at this path in a lent part, as `get` does; `None` also if the lent part is missing. Cost: that of
    /// `get`.
    pub fn get_in<L: LentValue>(&self, part: Option<L>) -> Option<L>
        ensures { option_map L.value result
            ≡ option_and_then (part_of self.now) (option_map L.value part) }
    {
        part_of(&self.steps, part?)
    }

    /// Copies the path. Errors: `NoMemory` if an allocation fails. Cost: the size of the path.
    pub fn copy(&self, alloc: Global) -> Result<Path, NoMemory>
        ensures { IfOk result (λ path. path ≡ self.now) }
    {
        let steps = copy_texts(alloc, &self.steps)?;
        Ok(Path { steps })
    }
}

/// Whether a text is a path, which means that it has no empty step. Takes no memory. Cost: the length of the text.
pub fn is_path(text: &str) -> bool
    ensures { result ≡ is_some (steps_of text.now) }
{
    !has_empty_piece(text)
}
