ghost use Rattle.mg_revtree.specs.Laws.{AcceptedInEveryOrder, DeletedDoNotWin, KnownChangesNothing, LeavesAreListed, NoWinnerNothingKnown, NothingIsLost, PathsFall, ReplicasAgree, WinnerIsBest};

/// Replicas that have exchanged all their paths agree. Histories with the same set of paths, in any order and with any
/// repetition, have the same known revisions with the same parents, the same leaves and the same winner. This holds if
/// paths with the same newest revision have the same mark and body, and if no revision is given two parents.
pub fn replicas_agree()
    ensures { ReplicasAgree }
{}

/// Paths that give no revision two parents are accepted in every order.
pub fn accepted_in_every_order()
    ensures { AcceptedInEveryOrder }
{}

/// A path that is known whole changes nothing: the known revisions, their parents, the leaves and the winner stay.
pub fn known_changes_nothing()
    ensures { KnownChangesNothing }
{}

/// A known revision stays known, and a known parent stays the parent.
pub fn nothing_is_lost()
    ensures { NothingIsLost }
{}

/// The winner is one of the leaves, and no leaf is better.
pub fn winner_is_best()
    ensures { WinnerIsBest }
{}

/// No deleted leaf wins while another leaf is not deleted.
pub fn deleted_do_not_win()
    ensures { DeletedDoNotWin }
{}

/// `leaves_of` and `losers_of` list the leaves and the losers of a history, each once and best first. Each is the only such list.
pub fn leaves_are_listed()
    ensures { LeavesAreListed }
{}

/// In each path that a replica can send, each revision is one position above the next. A new revision is one position
/// above its parent.
pub fn paths_fall()
    ensures { PathsFall }
{}

/// A document without a winner has no known revision, if the positions fall by one in each of its paths. Therefore a new revision without
/// a parent is made only if no revision is known.
pub fn no_winner_nothing_known()
    ensures { NoWinnerNothingKnown }
{}
