ghost use Rattle.std.specs.Prelude.{◌≡◌, Some, Err, IfOk, unwrap_or};
ghost use Rattle.std.specs.Result.{result_err};
ghost use Rattle.mg_selector.specs.Reading.{reading};
ghost use Rattle.mg_value.specs.View.{view};

use crate::error::SelError;
use crate::fault::fault_of;
use crate::operator::Op;
use crate::sense::Sense;
use crate::{copy, meaning, reader};
use mg_path::Path;
use mg_value::{Json, LentValue, NoMemory};
use std::alloc::Global;

/// A selector: what `_find` asks of a document, or of a part of one. Each variant says when it holds in the plain
/// sense. The negated sense is passed down to the members, arms and operators, and exchanges 'all' and 'some'.
/// A selector with an empty list of members or arms holds in both senses.
#[cycle(selector)]
#[derive(Debug, Drop)]
pub enum Sel {
    /// The members of an object: all members hold.
    Members(Vec<Sel>),
    /// `$and`: all arms hold.
    And(Vec<Sel>),
    /// `$or`: some arm holds.
    Or(Vec<Sel>),
    /// `$nor`: all arms hold in the other sense.
    Nor(Vec<Sel>),
    /// `$not`: the selector holds in the other sense.
    Not(Box<Sel>),
    /// The selector holds of the part at the path.
    At(Path, Box<Sel>),
    /// The operator holds of the current part.
    Ask(Op),
}

impl Sel {
    ghost use Rattle.mg_selector.specs.Meaning.{holds_in};
    ghost use Rattle.mg_selector.specs.Reading.{ReadsAs, IsObject};
    ghost use Rattle.mg_selector.specs.View.{selector_of};

    /// Reads a selector such as `{"a":{"$gt":1},"b.c":2}`. A name that begins with `$` is an operator or a
    /// combinator on the current part. Any other name is a path. If the member's value is an object with members,
    /// it is a selector on the part at the path; otherwise the part has to equal the value.
    ///
    /// Errors: `Shape` for a value that is not an object. Otherwise the first fault: `InvalidOperator` for an
    /// unknown operator, `BadArg` for an argument that its operator does not take, or for a path with an empty
    /// step. Members are read in the order of their names, and each one is read whole before the next.
    /// `NoMemory` if an allocation fails and the value has no fault.
    /// Cost: the size of the value. Source: the selector syntax of CouchDB's `_find`.
    pub fn read(alloc: Global, value: &Json) -> Result<Sel, SelError>
        ensures reading { ReadsAs selector_of result (reading (view value.now)) }
        ensures shape { ¬ IsObject (view value.now) → result ≡ Err SelError.Shape }
        ensures refused { (e : SelError) → reading (view value.now) ≡ Err e → result ≡ Err e }
    {
        match reader::read(alloc, value) {
            Err(SelError::NoMemory) => Err(fault_or_no_memory(value)),
            read => read,
        }
    }

    /// Whether the selector holds of the lent document, as for `holds`. Takes no memory. Cost: as for `holds`.
    #[inline]
    pub fn holds_of<L: LentValue>(&self, value: L) -> bool
        ensures { result ≡ holds_in (selector_of self.now) Sense.Plain (Some (L.value value)) }
    {
        meaning::holds_in(self, Sense::Plain, Some(value))
    }

    /// Copies the selector. Errors: `NoMemory` if an allocation fails. Cost: its size.
    pub fn copy(&self, alloc: Global) -> Result<Sel, NoMemory>
        ensures { IfOk result (λ copy. selector_of copy ≡ selector_of self.now) }
    {
        copy::copy_selector(alloc, self)
    }
}

// Finds the error to return after an allocation failed: the fault of the value, or `NoMemory` if it has no fault.
fn fault_or_no_memory(value: &Json) -> SelError
    ensures { result ≡ unwrap_or (result_err (reading (view value.now))) SelError.NoMemory }
{
    fault_of(value).unwrap_or(SelError::NoMemory)
}
