//! Laws of sorted lists as maps. Each is the contract of a function that does nothing.
ghost use Rattle.std.specs.Prelude.{◌≡◌, ℕ, List, option_map};
ghost use Rattle.std.specs.Cmp.Lexicographic.{slice_cmp};
ghost use Rattle.std.specs.FinMap.{get, insert, remove};
ghost use Rattle.std.specs.Ordering.{nat_cmp};
ghost use Rattle.mg_pages.specs.Finite.{finite};
ghost use Rattle.mg_pages.specs.Identified.{id_against, id_order};
ghost use Rattle.mg_pages.specs.Order.{Ascends, found, inserted, removed};

use crate::identified::Identified;

/// Elements that ascend by their ids are a finite map from ids to what the elements stand for: look-up, insertion and
/// removal are those of the map.
pub fn ids_make_a_map<T: Identified, X>()
    ensures get { (value : T → X) (xs : List T) (id : List ℕ) → Ascends (id_order T.id) xs
        → get (finite (slice_cmp nat_cmp) T.id value xs) id
        ≡ option_map value (found (id_against T.id id) xs) }
    ensures insert { (value : T → X) (xs : List T) (x : T) → Ascends (id_order T.id) xs
        → finite (slice_cmp nat_cmp) T.id value (inserted (id_order T.id) x xs)
        ≡ insert (finite (slice_cmp nat_cmp) T.id value xs) (T.id x) (value x) }
    ensures remove { (value : T → X) (xs : List T) (id : List ℕ) → Ascends (id_order T.id) xs
        → finite (slice_cmp nat_cmp) T.id value (removed (id_against T.id id) xs)
        ≡ remove (finite (slice_cmp nat_cmp) T.id value xs) id }
{}
