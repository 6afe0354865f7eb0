//! Laws of the order of values, keys and rows, each the contract of a function that does nothing.
ghost use Rattle.std.specs.Prelude.{◌≡◌, ◌↔◌, ◌++◌, ◌∷◌, ℕ, ℤ, List, reverse, true, false};
ghost use Rattle.std.specs.Cmp.{IsTotalOrder};
ghost use Rattle.std.specs.Cmp.Lexicographic.{slice_cmp};
ghost use Rattle.std.specs.List.Sorted.{IsPermutation};
ghost use Rattle.std.specs.Ordering.{int_cmp, nat_cmp, ordering_reverse, ordering_then};
ghost use Rattle.std.specs.Str.{encode_utf8_all};
ghost use Rattle.mg_value.specs.Value.{Value, null, flag, whole, text, list, object, Items, no_items, item, Members, no_members, member};
ghost use Rattle.mg_value.specs.View.{items_of};
ghost use Rattle.mg_collate.specs.Order.{value_order, items_order, joined_members};
ghost use Rattle.mg_collate.specs.Row.{RowValue, row_value_order, directed_order};
ghost use Rattle.mg_collate.specs.Sorted.{sorted_rows, IsInOrder};

use crate::direction::Direction;
use std::cmp::Ordering;

/// The order of values is total: swapping two values reverses their order, and the order is transitive.
pub fn order_is_total()
    ensures { IsTotalOrder value_order }
{}

/// Two values tie if and only if they are equal.
pub fn only_equal_values_tie()
    ensures { (a b : Value) → (value_order a b ≡ Ordering.Equal) ↔ (a ≡ b) }
{}

/// The order of types is null, false, true, numbers, strings, arrays, objects: every value of a type is below every
/// value of the next.
pub fn types_rank()
    ensures null_first { value_order null (flag false) ≡ Ordering.Less }
    ensures false_below_true { value_order (flag false) (flag true) ≡ Ordering.Less }
    ensures flags_below_numbers { (n : ℤ) → value_order (flag true) (whole n) ≡ Ordering.Less }
    ensures numbers_below_strings { (n : ℤ) (s : List ℕ)
        → value_order (whole n) (text s) ≡ Ordering.Less }
    ensures strings_below_arrays { (s : List ℕ) (vs : Items)
        → value_order (text s) (list vs) ≡ Ordering.Less }
    ensures arrays_below_objects { (vs : Items) (ms : Members)
        → value_order (list vs) (object ms) ≡ Ordering.Less }
{}

/// Numbers are ordered by value.
pub fn numbers_by_value()
    ensures { (m n : ℤ) → value_order (whole m) (whole n) ≡ int_cmp m n }
{}

/// Strings are ordered by their UTF-8 bytes, which is the order of their code points.
pub fn strings_by_code_point()
    ensures bytes { (s t : List ℕ) → value_order (text s) (text t) ≡ slice_cmp nat_cmp s t }
    ensures code_points { (cs ds : List ℕ)
        → value_order (text (encode_utf8_all cs)) (text (encode_utf8_all ds))
        ≡ slice_cmp nat_cmp cs ds }
{}

/// Arrays are ordered by the first item in which they differ; an array that ends before such an item is below.
pub fn arrays_item_by_item()
    ensures ended { (w : Value) (ws : Items)
        → value_order (list no_items) (list (item w ws)) ≡ Ordering.Less }
    ensures first_difference { (v w : Value) (vs ws : Items)
        → value_order (list (item v vs)) (list (item w ws))
        ≡ ordering_then (value_order v w) (value_order (list vs) (list ws)) }
{}

/// Objects are ordered by the first member in which they differ, by its name and then by its value; an
/// object that ends before such a member is below.
pub fn objects_member_by_member()
    ensures ended { (name : List ℕ) (w : Value) (ms : Members)
        → value_order (object no_members) (object (member name w ms)) ≡ Ordering.Less }
    ensures first_difference { (k l : List ℕ) (v w : Value) (ms ns : Members)
        → value_order (object (member k v ms)) (object (member l w ns))
        ≡ ordering_then (slice_cmp nat_cmp k l)
        (ordering_then (value_order v w) (value_order (object ms) (object ns))) }
{}

/// A string, an array or an object is above each of its proper prefixes.
pub fn prefixes_are_below()
    ensures strings { (s : List ℕ) (b : ℕ) (more : List ℕ)
        → value_order (text s) (text (s ++ b ∷ more)) ≡ Ordering.Less }
    ensures arrays { (vs : List Value) (w : Value) (more : List Value)
        → value_order (list (items_of vs)) (list (items_of (vs ++ w ∷ more))) ≡ Ordering.Less }
    ensures objects { (ms : Members) (name : List ℕ) (w : Value) (more : Members)
        → value_order (object ms) (object (joined_members ms (member name w more)))
        ≡ Ordering.Less }
{}

/// Rows are ordered by their keys, as arrays, and rows of equal keys by the bytes of their ids.
pub fn rows_by_key_then_id()
    ensures { (a b : RowValue)
        → row_value_order a b ≡ ordering_then (items_order a.0 b.0) (slice_cmp nat_cmp a.1 b.1) }
{}

/// Two rows tie if and only if their keys and their ids are equal.
pub fn only_equal_rows_tie()
    ensures { (a b : RowValue) → (row_value_order a b ≡ Ordering.Equal) ↔ (a ≡ b) }
{}

/// Rows have a total order in each direction, and descending reverses keys and ids together.
pub fn rows_are_ordered_in_both_directions()
    ensures total { (direction : Direction) → IsTotalOrder (directed_order direction) }
    ensures ascending { (a b : RowValue) → directed_order Direction.Asc a b ≡ row_value_order a b }
    ensures descending { (a b : RowValue)
        → directed_order Direction.Desc a b
        ≡ ordering_then (ordering_reverse (items_order a.0 b.0))
        (ordering_reverse (slice_cmp nat_cmp a.1 b.1)) }
{}

/// Sorted rows are in order, and are the given rows, each as often as given; no other list is both.
/// Rows sorted descending are the reverse of these rows sorted ascending.
pub fn rows_are_sorted_one_way()
    ensures in_order { (direction : Direction) (rows : List RowValue)
        → IsInOrder direction (sorted_rows direction rows) }
    ensures same_rows { (direction : Direction) (rows : List RowValue)
        → IsPermutation rows (sorted_rows direction rows) }
    ensures no_other { (direction : Direction) (rows others : List RowValue)
        → IsPermutation rows others → IsInOrder direction others
        → others ≡ sorted_rows direction rows }
    ensures descending { (rows : List RowValue)
        → sorted_rows Direction.Desc rows ≡ reverse (sorted_rows Direction.Asc rows) }
{}
