//! The library's surface, for callers other than this program: the meaning of a normal form on a value.
ghost use Rattle.std.specs.Prelude.{◌≡◌, Some};
ghost use Rattle.mg_value.specs.View.{view};
ghost use Rattle.mg_normal.specs.Normal.{normal_holds};

use crate::normal::Normal;
use mg_value::Json;

impl Normal {
    /// Whether the selector holds of the document. Takes no memory.
    ///
    /// Cost: at most, for each operator, the steps to its part (for an atom, from the top of the document) and one
    /// evaluation. An operator inside `$elemMatch` or `$allMatch` is evaluated for each element that these look at.
    #[inline]
    pub fn holds(&self, value: &Json) -> bool
        ensures { result ≡ normal_holds self.now (Some (view value.now)) }
    {
        self.holds_of(value)
    }
}
