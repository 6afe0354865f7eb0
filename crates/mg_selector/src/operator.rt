ghost use Rattle.std.specs.Prelude.{◌≡◌, IfOk, option_map};
ghost use Rattle.mg_value.specs.View.{view};

use crate::json_type::JsonType;
use crate::selector::Sel;
use crate::sense::Sense;
use crate::{copy, meaning};
use mg_value::{Json, LentValue, NoMemory};
use std::alloc::Global;
use std::num::NonZeroI64;

/// An operator with its argument. The combinators (`$and`, `$or`, `$nor`, `$not`) are variants of `Sel`. Each
/// variant lists the parts of which it holds in the plain sense; only `Exists` can hold of a missing part.
#[cycle(selector)]
#[derive(Debug, Drop)]
pub enum Op {
    /// `$lt`: below the value, in the collation order.
    Lt(Json),
    /// `$lte`: below the value, or equal to it.
    Lte(Json),
    /// `$eq`: equal to the value.
    Eq(Json),
    /// `$ne`: not equal to the value.
    Ne(Json),
    /// `$gte`: above the value, or equal to it.
    Gte(Json),
    /// `$gt`: above the value.
    Gt(Json),
    /// `$exists`: a part that is there (`true`), or a part that is missing (`false`).
    Exists(bool),
    /// `$type`: a value of the type.
    Type(JsonType),
    /// `$in`: an array with an item that equals some argument; any other value that equals some argument.
    In(Vec<Json>),
    /// `$nin`: a part that is there and of which `$in` does not hold.
    Nin(Vec<Json>),
    /// `$size`: an array of that length.
    Size(u64),
    /// `$mod`: a number that, divided by the first value, leaves the second as its remainder. The remainder has
    /// the number's own sign.
    Mod(NonZeroI64, i64),
    /// `$all`: an array that has every argument as an item, or that equals the only argument. Without arguments
    /// it holds of no part.
    All(Vec<Json>),
    /// `$elemMatch`: an array; the selector holds of some element.
    ElemMatch(Box<Sel>),
    /// `$allMatch`: an array that is not empty; the selector holds of each element.
    AllMatch(Box<Sel>),
}

impl Op {
    ghost use Rattle.mg_selector.specs.Meaning.{operator_holds};
    ghost use Rattle.mg_selector.specs.View.{operator_of};

    /// Whether the operator holds of the part in the sense. Only `$exists` can hold of a missing part (`None`),
    /// whatever the sense.
    ///
    /// Takes no memory. Cost: at most a comparison with each argument; for `$in`, `$nin` and `$all` on an array, a
    /// comparison of each item with each argument; for `$elemMatch` and `$allMatch`, the selector once for each
    /// element.
    #[inline]
    pub fn holds_in(&self, sense: Sense, part: Option<&Json>) -> bool
        ensures { result ≡ operator_holds (operator_of self.now) sense
            (option_map (λ j. view j.now) part.entry) }
    {
        self.holds_of(sense, part)
    }

    /// Whether the operator holds of the lent part in the sense, as for `holds_in`. Takes no memory. Cost: as for
    /// `holds_in`.
    #[inline]
    pub fn holds_of<L: LentValue>(&self, sense: Sense, part: Option<L>) -> bool
        ensures { result ≡ operator_holds (operator_of self.now) sense (option_map L.value part) }
    {
        meaning::operator_holds(self, sense, part)
    }

    /// Copies the operator. Errors: `NoMemory` if an allocation fails. Cost: its size.
    pub fn copy(&self, alloc: Global) -> Result<Op, NoMemory>
        ensures { IfOk result (λ copy. operator_of copy ≡ operator_of self.now) }
    {
        copy::copy_operator(alloc, self)
    }
}
