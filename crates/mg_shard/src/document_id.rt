//! Ids of documents, as a shard keeps them.
ghost use Rattle.std.specs.Prelude.{◌≡◌, ◌≤◌, length, string_bytes, take};
ghost use Rattle.mg_shard.specs.Id.{held_id, IsText};

use std::marker::Model;

// An id of at most this many bytes is stored in the value itself.
const INLINE: usize = 38;

const _: () = prove!(size_of::<DocumentId>() == 40);

#[derive(Drop)]
pub(crate) enum HeldId {
    // how many bytes the id has, and the bytes, with zeros after them
    Inline(u8, [u8; 38]),
    Block(String),
}

/// The id of a document. Up to 38 bytes are stored in the value itself, since a block for each id costs memory, and a cache miss
/// in each comparison of a look-up. A longer id has a block.
#[derive(Drop)]
pub(crate) struct DocumentId {
    held: HeldId,
}

impl Model for DocumentId {
    ghost use Rattle.std.specs.Prelude.{List, ℕ};
    ghost use Rattle.mg_shard.specs.Id.{held_id, IsText};

    // the bytes of the id
    ghost Value = { List ℕ };

    ghost view = { λ id. held_id id.held };

    ghost invariant = { λ id. IsText id.held };
}

impl DocumentId {
    /// Makes the id with this text. Takes no memory: a text of more than 38 bytes keeps its block. Cost: a copy of up to 38 bytes.
    pub(crate) fn of(id: String) -> DocumentId
        ensures { result ≡ string_bytes id }
    {
        let held = hold(id);
        DocumentId { held }
    }

    /// Returns the text of the id. Takes no memory.
    pub(crate) fn as_str(&self) -> &str
        ensures { result.now ≡ self.now }
    {
        lend(&self.held)
    }
}

// Copies a text of up to 38 bytes into the value itself, and keeps a longer text in its block.
fn hold(id: String) -> HeldId
    ensures bytes { held_id result ≡ string_bytes id }
    ensures text { IsText result }
{
    let count = id.len();
    if count <= INLINE {
        return HeldId::Inline(count as u8, pad(id.as_bytes()));
    }
    HeldId::Block(id)
}

// Fills an array of 38 bytes with these bytes and zeros after them.
fn pad(bytes: &[u8]) -> [u8; 38]
    requires { length bytes.now ≤ 38 }
    ensures { take (length bytes.now) result ≡ bytes.now }
{
    let mut filled = [0u8; 38];
    filled[..bytes.len()].copy_from_slice(bytes);
    filled
}

// Lends the text of the id. `IsText` says that the bytes are UTF-8, so they are not checked.
fn lend(held: &HeldId) -> &str
    requires { IsText held.now }
    ensures { result.now ≡ held_id held.now }
{
    match held {
        HeldId::Inline(count, inside) => {
            let bytes = &inside[..*count as usize];
            unsafe { str::from_utf8_unchecked(bytes) }
        }
        HeldId::Block(id) => id,
    }
}
