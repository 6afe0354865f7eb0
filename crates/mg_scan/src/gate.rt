/// Where a query or a build passes its gate.
#[derive(Clone, Copy, PartialEq, Eq, Debug)]
pub enum Place {
    /// A query has taken its snapshot.
    Snapshot,
    /// A scan or a build begins to read a shard. Shards are counted from 0.
    ShardBegun(usize),
    /// A scan has read all that it needs of a shard; a build has made the last row of a shard. Not passed if an allocation fails in that
    /// shard.
    ShardDone(usize),
}

/// Code that a query or a build runs at each `Place`, for tests: a gate may count the places that are passed, and may wait at one. Workers
/// may run it at the same time. A search without workers (`pull_lent`, `pull_rows`) passes no place of a shard.
pub trait Gate {
    /// Runs when a query or a build passes this place.
    fn at(&self, place: Place);
}

/// The gate that does nothing.
#[derive(Clone, Copy, Drop, Debug)]
pub struct NoGate;

impl Gate for NoGate {
    fn at(&self, _place: Place) {}
}
