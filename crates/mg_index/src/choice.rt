ghost use Rattle.std.specs.Prelude.{◌≡◌, ◌<◌, List, MatchOption, Some, None, slice_get, length};
ghost use Rattle.mg_normal.specs.View.{atoms_view};
ghost use Rattle.mg_index.specs.Choice.{Hint as HintValue, choice_of, least, preference, usable_of};
ghost use Rattle.mg_index.specs.View.{Chooses, hint_of};
ghost use Rattle.mg_normal.specs.Atoms.{Atom as AtomValue};
ghost use Rattle.mg_index.specs.Candidates.{IsBestPlace, Describes, DescribesBest, IsRanked, least_with};
ghost use Rattle.mg_index.specs.Definition.{IndexDefinition};

use crate::bound::bounded_count;
use crate::catalog::Catalog;
use crate::definition::IndexDef;
use crate::error::NoUsableIndex;
use crate::query::{Hint, Sort};
use crate::usable::{is_all_docs_usable, is_usable};
use mg_normal::{Atom, Normal};
use mg_path::Path;
use std::cmp::Ordering;

/// The index that serves a query.
#[derive(Clone, Copy, PartialEq, Eq, Debug, Drop)]
pub enum Choice {
    /// The index of all documents, by id.
    AllDocs,
    /// The defined index at this place in the catalog's list, from 0.
    Index(usize),
}

// A usable index, its place in the catalog, and what decides its preference besides its definition: whether the hint
// names it, and how many of its columns are bounded.
#[derive(Clone, Copy, Debug)]
pub(crate) struct Candidate<'a> {
    definition: &'a IndexDef,
    place: usize,
    hinted: bool,
    bounded: usize,
}

/// Chooses the index that serves a query. Takes no memory.
///
/// An index is usable if its columns begin with the sort's paths, and if each column is one that every
/// document that the query finds must have: `_id`, `_rev`, a path of the sort, or the path of an atom that
/// fails if its part is missing. Of the usable indexes, those that the hint names come first (`Hint::names`); then
/// those with more bounded columns, with fewer columns, with the lesser name, with the lesser design document, in
/// this order. If no index is usable, the index of all documents serves a query without a sort, or with a sort
/// by `_id` alone.
///
/// Errors: `NoUsableIndex` if no index is usable and the query has any other sort.
/// Cost: for each definition, its columns times the number of atoms and paths of the sort. Source: the selection of
/// indexes in CouchDB.
pub fn choose(
    catalog: &Catalog,
    normal: &Normal,
    sort: &Sort,
    hint: &Hint,
) -> Result<Choice, NoUsableIndex>
    ensures { Chooses catalog.now (choice_of catalog.now normal.now.atoms
        sort.now.paths.items (hint_of hint.now)) result }
{
    match best_place(catalog.list(), normal.atoms(), &sort.paths, hint) {
        Some(place) => Ok(Choice::Index(place)),
        None => if is_all_docs_usable(&sort.paths) {
            Ok(Choice::AllDocs)
        } else {
            Err(NoUsableIndex)
        },
    }
}

// Finds the place of the usable index that is preferred to all others; `None` if no index is usable.
fn best_place(definitions: &[IndexDef], atoms: &[Atom], sort: &[Path], hint: &Hint) -> Option<usize>
    ensures { IsBestPlace definitions.now (least (preference (atoms_view atoms.now) (hint_of hint.now))
        (usable_of (atoms_view atoms.now) sort.now definitions.now)) result }
{
    let mut best = None;
    for (place, definition) in definitions.iter().enumerate() {
        let columns = definition.columns();
        if is_usable(atoms, sort, columns) {
            let candidate = Candidate {
                definition,
                place,
                hinted: hint.names(definition),
                bounded: bounded_count(columns, atoms),
            };
            best = Some(better(best, candidate));
        }
    }
    match best {
        Some(candidate) => Some(candidate.place),
        None => None,
    }
}

// Returns the preferred one of two candidates: the best so far and the other; the other if there is no best yet.
fn better<'a>(best: Option<Candidate<'a>>, other: Candidate<'a>) -> Candidate<'a>
    ensures described { (atoms : List AtomValue) (hint : HintValue) (ds : List IndexDefinition)
        → DescribesBest atoms hint ds best.entry → Describes atoms hint ds other.entry
        → Describes atoms hint ds result }
    ensures least { (atoms : List AtomValue) (hint : HintValue) (ds : List IndexDefinition)
        → DescribesBest atoms hint ds best.entry → Describes atoms hint ds other.entry
        → Some result.definition.now ≡ least_with atoms hint best.entry (Some other.entry.definition.now) }
{
    let Some(best) = best else {
        return other;
    };
    if order(&best, &other).is_gt() {
        other
    } else {
        best
    }
}

// Compares two candidates in the order of preference; the lesser one is preferred.
fn order(a: &Candidate<'_>, b: &Candidate<'_>) -> Ordering
    ensures { (atoms : List AtomValue) (hint : HintValue)
        → IsRanked atoms hint a.now → IsRanked atoms hint b.now
        → result ≡ preference atoms hint a.now.definition.now b.now.definition.now }
{
    let by_columns = a
        .definition
        .columns()
        .len()
        .cmp(&b.definition.columns().len());
    let by_name = a.definition.name().cmp(b.definition.name());
    let by_ddoc = a.definition.ddoc().cmp(b.definition.ddoc());
    b.hinted
        .cmp(&a.hinted)
        .then(b.bounded.cmp(&a.bounded))
        .then(by_columns)
        .then(by_name)
        .then(by_ddoc)
}
