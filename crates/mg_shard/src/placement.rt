ghost use Rattle.std.specs.Prelude.{◌≡◌, ◌<◌, ℕ, List};
ghost use Rattle.mg_shard.specs.Placement.{md5_place};

use md5::{Digest, Md5};

/// Decides on which shard a document is kept: a function of its id and of the number of shards.
pub trait Placement {
    // the shard of an id, among this many shards
    ghost place: { Self → List ℕ → ℕ → ℕ };

    /// Returns the number of the shard of an id. Shards are counted from 0, and there are `shards` of them, at least 1. Takes no memory.
    fn shard_of(&self, id: &str, shards: usize) -> usize
        requires { 0 < shards }
        ensures place { result ≡ place self.now id.now shards }
        ensures below { result < shards };
}

/// The placement by MD5: the first eight bytes of the digest of the id's UTF-8 bytes, as a big-endian
/// number, modulo the number of shards.
///
/// Cost: the length of the id; constant if there is one shard. Takes no memory. Source: RFC 1321.
#[derive(Clone, Copy, Drop, Debug)]
pub struct Md5Placement;

impl Placement for Md5Placement {
    ghost place = { λ _ id shards. md5_place id shards };

    fn shard_of(&self, id: &str, shards: usize) -> usize {
        if shards == 1 {
            return 0;
        }
        let [a, b, c, d, e, f, g, h, ..] = Md5::digest(id);
        let number = u64::from_be_bytes([a, b, c, d, e, f, g, h]);
        (number % shards as u64) as usize
    }
}
