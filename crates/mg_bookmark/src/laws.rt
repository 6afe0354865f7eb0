//! The laws of reading a bookmark's text. Each is the contract of a function that does nothing.
ghost use Rattle.std.specs.Prelude.{◌≡◌, ◌↔◌, ℕ, List, Option, Some};
ghost use Rattle.mg_bookmark.specs.Bookmark.{CanBeSpelled, IsReadAs, RowPlace, Spells, spelled};
ghost use Rattle.mg_bookmark.specs.Reading.{bookmark_read, place_read};

/// Each text has exactly one reading. Therefore a text spells at most one place.
pub fn each_text_has_one_reading()
    ensures some { (t : List ℕ) → IsReadAs t (bookmark_read t) }
    ensures one { (t : List ℕ) (r s : Option (Option RowPlace)) → IsReadAs t r → IsReadAs t s → r ≡ s }
{}

/// A text is read as a place if and only if it is the spelling of that place, and the place's array can be read back.
pub fn reading_gives_what_is_spelled()
    ensures { (t : List ℕ) (p : RowPlace) → Spells t p ↔ (place_read t ≡ Some p) }
{}

/// A place is read back from its spelling if JSON text can carry the place (`CanBeSpelled`): above all, the
/// values of its key nest at most 125 deep.
pub fn what_is_spelled_is_read()
    ensures { (p : RowPlace) → CanBeSpelled p → bookmark_read (spelled p) ≡ Some (Some p) }
{}
