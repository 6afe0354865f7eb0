use crate::conversation::Handover;

/// A service that shows what it has seen, and learns what another of its kind has seen. A client carries this from one service to the next,
/// so that it never misses what it has seen.
pub trait Learner: Handover {
    /// What a client carries.
    type Seen: Drop;

    // The client misses nothing that a service in this state has seen.
    ghost shows: { Self.Seen → Self → Type 0 };

    /// Returns what the service has seen.
    fn seen(&self) -> Self::Seen
        ensures { shows result self.now };

    /// Whether the service has failed, and serves nobody any more. Then the edge ends.
    fn has_failed(&self) -> bool;

    /// Learns what a client carries: the service then follows each one that the client has been answered by. It forgets nothing.
    fn learn(&mut self, seen: &Self::Seen)
        ensures learned { (before : Self) → shows seen.now before → Self.follows before self.new }
        ensures kept { Self.follows self.old self.new };
}
