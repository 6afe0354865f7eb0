ghost use Rattle.std.specs.Prelude.{◌≡◌, false};
ghost use Rattle.mg_query.specs.Read.{is_pulled};

use mg_merge::Work;

/// How much was read for a page.
#[derive(Debug, Drop)]
pub enum Reads {
    /// The caller's thread pulled rows from the shards, as the merge asked for them.
    Pulled {
        /// How many rows were pulled, each of a document that the query finds; rows that were passed over by counts are not among them.
        rows: u64,
        /// How many of the documents of these rows were looked up.
        documents: u64,
    },
    /// Each shard handed over its first rows, whose documents were looked up, and some of these rows were merged.
    Handed(Work),
}

impl Reads {
    // Returns what the shards handed over; no row may have been pulled.
    pub(crate) fn work(self) -> Work
        requires { is_pulled self ≡ false }
        ensures { self ≡ Reads.Handed result }
    {
        match self {
            Reads::Handed(work) => work,
            Reads::Pulled { .. } => unreachable!(),
        }
    }
}
