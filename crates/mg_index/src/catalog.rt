ghost use Rattle.std.specs.Prelude.{◌≡◌, ◌≢◌, List, [], ◌∷◌, IfOk, OnOk, OnErr, Ok, None, Some, true, option_map, is_some};
ghost use Rattle.mg_index.specs.Catalog.{IsCatalog, definition_at, with_definition, without_definition};
ghost use Rattle.mg_index.specs.Places.{IsSlotOf, name_order};
ghost use Rattle.mg_index.specs.Same.{is_there};

use crate::definition::IndexDef;
use mg_value::NoMemory;
use std::alloc::Global;
use std::cmp::Ordering;
use std::marker::Model;

/// The indexes of a database, sorted by design document, then name. No two have equal design documents and names.
#[derive(Debug, Drop)]
pub struct Catalog {
    definitions: Vec<IndexDef>,
}

/// What adding a definition did.
#[derive(Clone, Copy, PartialEq, Eq, Debug, Drop)]
pub enum Added {
    /// The definition is new, or it replaced another one of its design document and name.
    Created,
    /// An equal definition was already there.
    Exists,
}

// Where a definition of a design document and name goes: in the place of the one that has both, or, if there is no
// such definition, before the one at a place, or at the end.
#[derive(Clone, Copy, Debug)]
enum Slot {
    At(usize),
    Before(usize),
}

impl Model for Catalog {
    ghost use Rattle.std.specs.Prelude.{List};
    ghost use Rattle.std.specs.Coded.{coded_list};
    ghost use Rattle.mg_index.specs.Definition.{IndexDefinition, definition_code};
    ghost use Rattle.mg_index.specs.Catalog.{IsCatalog};

    ghost Value = { List IndexDefinition };

    ghost coded = { coded_list definition_code };

    ghost view = { λ c. c.definitions.items };

    ghost invariant = { λ c. IsCatalog c.definitions.items };
}

impl Catalog {
    /// Makes a catalog with no index. Takes no memory.
    pub fn new(alloc: Global) -> Catalog
        ensures { result ≡ [] }
    {
        Catalog {
            definitions: Vec::new(alloc),
        }
    }

    /// Finds the definition of this design document and name; `None` if there is no such definition. Takes no
    /// memory.
    ///
    /// Cost: the logarithm of the number of definitions. `ddoc` is compared byte for byte, so it needs its
    /// `_design/`.
    pub fn find(&self, ddoc: &str, name: &str) -> Option<&IndexDef>
        ensures { option_map (λ d. d.now) result ≡ definition_at ddoc.now name.now self.now }
    {
        match slot_of(&self.definitions, ddoc, name) {
            Slot::At(place) => Some(&self.definitions[place]),
            Slot::Before(_) => None,
        }
    }

    /// Whether the catalog has a definition equal to this one; if so, adding this one changes nothing. Takes no
    /// memory. Cost: that of `find`.
    pub fn has(&self, definition: &IndexDef) -> bool
        ensures there { result ≡ is_there definition.now self.now }
        ensures same { result ≡ true → with_definition definition.now self.now ≡ self.now }
    {
        match slot_of(&self.definitions, definition.ddoc(), definition.name()) {
            Slot::At(place) => definition.is_same(&self.definitions[place]),
            Slot::Before(_) => false,
        }
    }

    /// Returns the definitions, sorted by design document, then name. Takes no memory.
    pub fn list(&self) -> &[IndexDef]
        ensures all { result.now ≡ self.now }
        ensures in_order { IsCatalog self.now }
    {
        &self.definitions
    }

    /// Adds the definition, and replaces another one of its design document and name.
    ///
    /// Returns `Exists` if an equal definition was already there (see `IndexDef::is_same`); then nothing has
    /// changed. Otherwise returns `Created`.
    ///
    /// Errors: `NoMemory` if an allocation fails, which only a definition with a new design document and name
    /// needs; then nothing has changed. Cost: that of `find`, and for a new definition a move of those after it.
    pub fn add(&mut self, definition: IndexDef) -> Result<Added, NoMemory>
        ensures ok { OnOk result (self.new ≡ with_definition definition self.old) }
        ensures exists { result ≡ Ok Added.Exists
            → definition_at definition.ddoc definition.name self.old ≡ Some definition }
        ensures created { result ≡ Ok Added.Created
            → definition_at definition.ddoc definition.name self.old ≢ Some definition }
        ensures err { OnErr result (self.new ≡ self.old) }
        ensures room { OnErr result
            (definition_at definition.ddoc definition.name self.old ≡ None) }
    {
        match slot_of(&self.definitions, definition.ddoc(), definition.name()) {
            Slot::At(place) => {
                let added = if definition.is_same(&self.definitions[place]) {
                    Added::Exists
                } else {
                    Added::Created
                };
                self.definitions[place] = definition;
                Ok(added)
            }
            Slot::Before(place) => {
                self.definitions.insert(place, definition)?;
                Ok(Added::Created)
            }
        }
    }

    /// Removes the definition of this design document and name, and returns whether there was one. Takes no
    /// memory.
    ///
    /// Cost: that of `find`, and a move of the definitions after it. `ddoc` is compared byte for byte, so it needs
    /// its `_design/`.
    pub fn remove(&mut self, ddoc: &str, name: &str) -> bool
        ensures removed { result ≡ is_some (definition_at ddoc.now name.now self.old) }
        ensures rest { self.new ≡ without_definition ddoc.now name.now self.old }
    {
        match slot_of(&self.definitions, ddoc, name) {
            Slot::At(place) => {
                drop(self.definitions.remove(place));
                true
            }
            Slot::Before(_) => false,
        }
    }

    /// Copies the catalog. The copy shares the definitions.
    ///
    /// Errors: `NoMemory` if an allocation fails, or a definition has 2^63 - 1 copies already. Cost: the number of
    /// definitions.
    pub fn copy(&self, alloc: Global) -> Result<Catalog, NoMemory>
        ensures { IfOk result (λ c. c ≡ self.now) }
    {
        Ok(Catalog {
            definitions: copy_definitions(alloc, &self.definitions)?,
        })
    }
}

// Compares a design document and a name with those of a definition, in the order of a catalog.
fn order(ddoc: &str, name: &str, definition: &IndexDef) -> Ordering
    ensures { result ≡ name_order ddoc.now name.now definition.now }
{
    let by_ddoc = ddoc.cmp(definition.ddoc());
    by_ddoc.then(name.cmp(definition.name()))
}

// Finds the place of the definition of this design document and name, or the place where one is to be inserted. Cost:
// the logarithm of the number of definitions.
fn slot_of(definitions: &[IndexDef], ddoc: &str, name: &str) -> Slot
    requires { IsCatalog definitions.now }
    ensures { IsSlotOf ddoc.now name.now definitions.now result }
{
    let mut low = 0;
    let mut high = definitions.len();
    while low < high {
        let middle = low + (high - low) / 2;
        match order(ddoc, name, &definitions[middle]) {
            Ordering::Greater => low = middle + 1,
            Ordering::Less => high = middle,
            Ordering::Equal => return Slot::At(middle),
        }
    }
    Slot::Before(low)
}

fn copy_definitions(alloc: Global, definitions: &[IndexDef]) -> Result<Vec<IndexDef>, NoMemory>
    ensures { IfOk result (λ copy. copy.items ≡ definitions.now) }
{
    let mut copy = Vec::with_capacity(alloc, definitions.len())?;
    for definition in definitions {
        copy.push(definition.copy()?)?;
    }
    Ok(copy)
}
