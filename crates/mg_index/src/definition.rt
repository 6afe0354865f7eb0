ghost use Rattle.std.specs.Prelude.{◌≡◌, Err, IfOk, map, string_bytes, unwrap_or};
ghost use Rattle.std.specs.Result.{result_err};
ghost use Rattle.mg_value.specs.View.{view as json_view};
ghost use Rattle.mg_path.specs.Equal.{path_eq};
ghost use Rattle.mg_index.specs.Catalog.{is_named, definition_order};
ghost use Rattle.mg_index.specs.Definition.{listed_of};
ghost use Rattle.mg_index.specs.Same.{is_same_definition};
ghost use Rattle.mg_index.specs.Reading.{ReadsAs, definition_of};

use crate::error::IndexError;
use crate::fault::fault_of;
use crate::listing::fields_json;
use crate::reader;
use mg_collate::Direction;
use mg_path::Path;
use mg_value::{Json, NoMemory};
use std::alloc::Global;
use std::cmp::Ordering;
use std::marker::Model;
use std::sync::Arc;

/// An index definition: the design document and the name that identify it, its columns (at least one), and
/// the direction that was given for them. An index can be read in both directions. Copies of a definition share
/// its block of memory.
#[derive(Debug, Drop)]
pub struct IndexDef {
    parts: Arc<Parts>,
}

// What the block of a definition holds.
#[derive(Debug, Drop)]
pub(crate) struct Parts {
    pub(crate) ddoc: String,
    pub(crate) name: String,
    // the texts of the columns' paths, as they were given
    pub(crate) texts: Vec<String>,
    pub(crate) columns: Vec<Path>,
    pub(crate) direction: Direction,
}

impl Model for IndexDef {
    ghost use Rattle.std.specs.Arc.{arc_value};
    ghost use Rattle.mg_index.specs.Definition.{IndexDefinition, definition_code};

    ghost Value = { IndexDefinition };

    ghost coded = { definition_code };

    ghost view = { λ d. arc_value d.parts };
}

impl Model for Parts {
    ghost use Rattle.std.specs.Prelude.{map, string_bytes};
    ghost use Rattle.mg_index.specs.Definition.{IndexDefinition, definition_code};

    ghost Value = { IndexDefinition };

    ghost coded = { definition_code };

    ghost view = { λ p. record {
      ddoc = string_bytes p.ddoc;
      name = string_bytes p.name;
      texts = map string_bytes p.texts.items;
      columns = p.columns.items;
      direction = p.direction;
    } };
}

impl IndexDef {
    /// Reads the body of `POST _index`, an object with these members:
    ///
    /// - `index`, an object whose `fields` is an array of one or more columns, each `{path: "asc"}`,
    ///   `{path: "desc"}`, or the text of a path, which stands for an ascending column.
    /// - `ddoc` and `name`, texts that are not empty; either may be absent. `_design/` is put before a `ddoc`
    ///   that does not begin with it. Without `name`, the name is the MD5, in lower-case hexadecimal, of the compact
    ///   text of `{"fields":[{path: direction},..]}`; without `ddoc`, the design document is `_design/` and that MD5.
    /// - `type`, which has to be `json`; `partial_filter_selector`, in the body or in `index`, which has to be
    ///   `{}`; `partitioned`, which has to be false. Each may be absent. Other members are ignored.
    ///
    /// Errors: `Shape` for any other body, or for a path with an empty step; `Mixed` for a body of this shape with
    /// columns in both directions; `NoMemory` if an allocation fails and the body has no fault. Cost: the size of
    /// the body. Source: `_index` of CouchDB's API reference.
    pub fn read(alloc: Global, body: &Json) -> Result<IndexDef, IndexError>
        ensures reading { ReadsAs (λ d. d) result (definition_of (json_view body.now)) }
        ensures refused { (e : IndexError) → definition_of (json_view body.now) ≡ Err e → result ≡ Err e }
    {
        match reader::read_definition(alloc, body) {
            Err(IndexError::NoMemory) => Err(fault_or_no_memory(body)),
            read => read,
        }
    }

    // Puts the parts of a definition into a block. Errors: `NoMemory` if the allocation fails.
    pub(crate) fn of(alloc: Global, parts: Parts) -> Result<IndexDef, NoMemory>
        ensures { IfOk result (λ d. d ≡ parts) }
    {
        let parts = Arc::new(alloc, parts)?;
        Ok(IndexDef { parts })
    }

    /// Returns the name of the design document, which begins with `_design/`. Takes no memory.
    pub fn ddoc(&self) -> &str
        ensures { result.now ≡ self.now.ddoc }
    {
        &self.parts.ddoc
    }

    /// Returns the name of the index. Takes no memory.
    pub fn name(&self) -> &str
        ensures { result.now ≡ self.now.name }
    {
        &self.parts.name
    }

    /// Returns the columns, in order. Takes no memory.
    pub fn columns(&self) -> &[Path]
        ensures { result.now ≡ self.now.columns }
    {
        &self.parts.columns
    }

    /// Returns the direction that was given for the columns. Takes no memory.
    pub fn direction(&self) -> Direction
        ensures { result ≡ self.now.direction }
    {
        self.parts.direction
    }

    /// Makes the JSON in which the index is listed, with the texts of its paths as they were given:
    /// `{"ddoc":..,"def":{"fields":[{path: direction},..]},"name":..,"type":"json"}`.
    ///
    /// Errors: `NoMemory` if an allocation fails. Cost: the size of the definition.
    pub fn listed(&self, alloc: Global) -> Result<Json, NoMemory>
        ensures { IfOk result (λ v. json_view v ≡ listed_of self.now) }
    {
        let fields = fields_json(alloc, self.parts.direction, &self.parts.texts)?;
        let mut listed = Json::empty_object(alloc);
        listed.insert(alloc, "type", Json::Text(String::from_str(alloc, "json")?))?;
        listed.insert(alloc, "name", Json::Text(self.parts.name.clone()?))?;
        listed.insert(alloc, "def", fields)?;
        listed.insert(alloc, "ddoc", Json::Text(self.parts.ddoc.clone()?))?;
        Ok(listed)
    }

    /// Copies the definition: the copy shares its block. Takes no memory. Cost: constant.
    ///
    /// Errors: `NoMemory` if the definition has 2^63 - 1 copies already.
    pub fn copy(&self) -> Result<IndexDef, NoMemory>
        ensures { IfOk result (λ d. d ≡ self.now) }
    {
        let parts = self.parts.clone()?;
        Ok(IndexDef { parts })
    }

    /// Whether the definition has this design document and name. Takes no memory. Cost: the length of both texts.
    pub fn is_named(&self, ddoc: &str, name: &str) -> bool
        ensures { result ≡ is_named ddoc.now name.now self.now }
    {
        name == self.name() && ddoc == self.ddoc()
    }

    /// Compares two definitions in the order of a catalog: by design document, then name. Takes no memory. Cost:
    /// the length of the shorter texts.
    pub fn order(&self, other: &IndexDef) -> Ordering
        ensures { result ≡ definition_order self.now other.now }
    {
        let by_ddoc = self.ddoc().cmp(other.ddoc());
        by_ddoc.then(self.name().cmp(other.name()))
    }

    /// Whether the definitions are equal: in design document, name, path texts, columns and direction. Takes no
    /// memory. Cost: the size of the smaller definition.
    pub fn is_same(&self, other: &IndexDef) -> bool
        ensures { result ≡ is_same_definition self.now other.now }
    {
        self.is_named(other.ddoc(), other.name())
            && self.direction() == other.direction()
            && are_same_texts(&self.parts.texts, &other.parts.texts)
            && self.columns() == other.columns()
    }
}

// Finds the error to return after an allocation failed: the fault of the body, or `NoMemory` if it has no fault.
fn fault_or_no_memory(body: &Json) -> IndexError
    ensures { result ≡ unwrap_or (result_err (definition_of (json_view body.now))) IndexError.NoMemory }
{
    fault_of(body).unwrap_or(IndexError::NoMemory)
}

fn are_same_texts(texts: &[String], others: &[String]) -> bool
    ensures { result ≡ path_eq (map string_bytes texts.now) (map string_bytes others.now) }
{
    texts == others
}
