//! The library's surface, for callers other than this program: the meaning of a selector on a value.
ghost use Rattle.std.specs.Prelude.{◌≡◌, Some};
ghost use Rattle.mg_value.specs.View.{view};
ghost use Rattle.mg_selector.specs.Meaning.{holds_in};
ghost use Rattle.mg_selector.specs.View.{selector_of};

use crate::selector::Sel;
use crate::sense::Sense;
use mg_value::Json;

impl Sel {
    /// Whether the selector holds of the document. Takes no memory.
    ///
    /// Cost: each path is followed and each operator evaluated at most once; inside `$elemMatch` and `$allMatch`,
    /// at most once for each element. `Op::holds_in` says what an operator costs. Source: the operators of CouchDB's
    /// `_find`.
    #[inline]
    pub fn holds(&self, value: &Json) -> bool
        ensures { result ≡ holds_in (selector_of self.now) Sense.Plain (Some (view value.now)) }
    {
        self.holds_of(value)
    }
}
