//! The laws of key ranges. Each is the contract of a function that does nothing.
ghost use Rattle.mg_range.specs.Laws.{RangeDecides, RangeDecidesAtoms, RangeDecidesForm, RangesAreComplete, RangesStandTogether, RowsStandTogether};

use mg_normal::laws::atoms_are_necessary;

/// If an index is usable for a selector and a sort, and the selector holds of a document that has `_id`, `_rev`
/// and every path of the sort, then the document has every column of the index, and the document's key is in the
/// range. So a search of the index within the range finds each document that the query asks for.
pub fn ranges_are_complete()
    ensures { RangesAreComplete }
{
    atoms_are_necessary();
}

/// Among keys in order, and among rows in order, those before the range come first, then those in it, then
/// those past it.
pub fn ranges_stand_together()
    ensures keys { RangesStandTogether }
    ensures rows { RowsStandTogether }
{}

/// If a document has every column, the atoms of a selector hold of the document if and only if its key is in the
/// atoms' range and the atoms that the range does not decide hold. So if the range decides all atoms, and the
/// selector requires nothing besides atoms, the selector holds if and only if the key is in the range, and a
/// search does not have to read the document.
pub fn range_decides()
    ensures atoms { RangeDecidesAtoms }
    ensures form { RangeDecidesForm }
    ensures selector { RangeDecides }
{}
