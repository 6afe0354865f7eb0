//! The laws of the choice of an index. Each is the contract of a function that does nothing.
ghost use Rattle.mg_index.specs.Laws.{PreferenceIsTotal, PreferenceDecides, LeastIsLeast};

/// The order of preference is total, and only definitions with equal design documents and names tie in this order.
/// So the choice does not depend on the order in which definitions are listed.
pub fn preference_is_a_total_order()
    ensures total { PreferenceIsTotal }
    ensures decides { PreferenceDecides }
{}

/// The least of some definitions in the order of preference is one of them, and none of them is preferred to it.
/// If a defined index is usable for a query, `choose` returns the least of the usable ones.
pub fn the_least_is_preferred_to_all()
    ensures { LeastIsLeast }
{}
