ghost use Rattle.mg_normal.specs.Laws.{AtomsAreNecessary};

/// If a selector holds of a document, each of its atoms does: the atom's operator holds, in its sense, of the
/// part at its steps. So a search may skip each document of which some atom does not hold.
pub fn atoms_are_necessary()
    ensures { AtomsAreNecessary }
{}
