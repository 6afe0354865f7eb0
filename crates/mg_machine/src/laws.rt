//! The laws of the machine, all of them the contract of one function that does nothing.
ghost use Rattle.mg_machine.specs.Laws.{CommitsAreAnswered, SnapshotsAreKept, NothingIsLost, ReadsAreOfTheSeen, SeatsSeePrefixes, TheCommandDecides, WhatIsLearnedIsSeen};

/// Does nothing. Its contract states what holds of sessions side by side, for every number of seats and every list of events at these
/// seats:
///
/// - each seat has seen a prefix of one commit log, and nothing that it has seen is lost;
/// - a seat that learns from another has seen, from then on, all that the other had seen;
/// - the commits are the accepted writes, and their replies are those that a single caller gets for these writes alone, one after
///   another;
/// - a read has the reply that a single caller gets after the commits that its seat has seen. If the last event of the seat was to
///   catch up, these are all commits that there were at that event, whatever others have published since;
/// - the command decides what is done: a write is published, also by `Answer`; and to publish a read is to catch up and then to read.
pub fn running_sessions()
    ensures prefixes { SeatsSeePrefixes }
    ensures kept { NothingIsLost }
    ensures told { WhatIsLearnedIsSeen }
    ensures commits { CommitsAreAnswered }
    ensures reads { ReadsAreOfTheSeen }
    ensures snapshots { SnapshotsAreKept }
    ensures decides { TheCommandDecides }
{}
