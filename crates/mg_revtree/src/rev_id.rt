//! Ids of revisions, as they are kept.
ghost use Rattle.std.specs.Prelude.{◌≡◌, ◌≢◌, IfNone, IfOk, IfSome, IsOk, length, string_bytes};
ghost use Rattle.mg_revtree.specs.Id.{IsText, held_id};

use mg_value::NoMemory;
use std::alloc::Global;
use std::marker::Model;

// An id of exactly this many bytes is stored in the value itself.
const INLINE: usize = 32;

const _: () = prove!(size_of::<RevId>() == 40);

#[derive(Debug, Drop)]
pub(crate) enum HeldRevId {
    Inline([u8; 32]),
    Block(String),
}

/// The id of a revision. An id of exactly 32 bytes is stored in the value itself, since a block for each id would take more memory; each
/// id that `rev_id` of `mg_doc` makes has 32 bytes. An id of any other length has a block. Contracts see the bytes.
#[derive(Debug, Drop)]
pub struct RevId {
    held: HeldRevId,
}

impl Model for RevId {
    ghost use Rattle.std.specs.Prelude.{List, ℕ};
    ghost use Rattle.mg_revtree.specs.Id.{IsText, held_id};

    ghost Value = { List ℕ };

    ghost view = { λ id. held_id id.held };

    ghost invariant = { λ id. IsText id.held };
}

impl RevId {
    /// Turns a text into an id. Takes no memory: a text of 32 bytes is copied into the value, and its block is freed; any other text
    /// keeps its block.
    pub fn of(id: String) -> RevId
        ensures { result ≡ string_bytes id }
    {
        let held = hold(id);
        RevId { held }
    }

    /// Copies a text into an id. Takes no memory if the text has 32 bytes. Errors: `NoMemory` if an allocation fails.
    pub fn copy_of(alloc: Global, id: &str) -> Result<RevId, NoMemory>
        ensures copy { IfOk result (λ made. made ≡ id.now) }
        ensures inline { length id.now ≡ 32 → IsOk result }
    {
        let held = hold_copy(alloc, id)?;
        Ok(RevId { held })
    }

    /// Returns the text of the id. Takes no memory.
    pub fn as_str(&self) -> &str
        ensures { result.now ≡ self.now }
    {
        lend(&self.held)
    }

    /// Returns the bytes of the id. Takes no memory.
    pub fn as_bytes(&self) -> &[u8]
        ensures { result.now ≡ self.now }
    {
        lend(&self.held).as_bytes()
    }

    /// Copies the id. Takes no memory if the id has 32 bytes. Errors: `NoMemory` if an allocation fails.
    pub fn copy(&self, alloc: Global) -> Result<RevId, NoMemory>
        ensures { IfOk result (λ copy. copy ≡ self.now) }
    {
        RevId::copy_of(alloc, self.as_str())
    }
}

/// Returns the bytes as an array if there are 32 of them; else `None`. Takes no memory.
pub(crate) fn inline_bytes(bytes: &[u8]) -> Option<[u8; 32]>
    ensures array { IfSome result (λ digest. digest ≡ bytes.now) }
    ensures none { IfNone result (length bytes.now ≢ 32) }
{
    if bytes.len() != INLINE {
        return None;
    }
    let mut digest = [0u8; 32];
    digest.copy_from_slice(bytes);
    Some(digest)
}

fn hold(id: String) -> HeldRevId
    ensures bytes { held_id result ≡ string_bytes id }
    ensures text { IsText result }
{
    match inline_bytes(id.as_bytes()) {
        Some(digest) => HeldRevId::Inline(digest),
        None => HeldRevId::Block(id),
    }
}

// Copies a text, into the value itself if it has 32 bytes. Errors: `NoMemory` if an allocation fails.
fn hold_copy(alloc: Global, id: &str) -> Result<HeldRevId, NoMemory>
    ensures bytes { IfOk result (λ held. held_id held ≡ id.now) }
    ensures text { IfOk result (λ held. IsText held) }
    ensures inline { length id.now ≡ 32 → IsOk result }
{
    match inline_bytes(id.as_bytes()) {
        Some(digest) => Ok(HeldRevId::Inline(digest)),
        None => Ok(HeldRevId::Block(String::from_str(alloc, id)?)),
    }
}

fn lend(held: &HeldRevId) -> &str
    requires { IsText held.now }
    ensures { result.now ≡ held_id held.now }
{
    match held {
        HeldRevId::Inline(digest) => unsafe { str::from_utf8_unchecked(digest.as_slice()) },
        HeldRevId::Block(id) => id,
    }
}

/// Copies the id of a known revision, which was a text when its path was accepted. Errors: `NoMemory` if an allocation fails, or if the bytes
/// are not a text.
pub(crate) fn text_of(alloc: Global, id: &[u8]) -> Result<String, NoMemory>
    ensures { IfOk result (λ text. string_bytes text ≡ id.now) }
{
    match str::from_utf8(id) {
        Ok(text) => Ok(String::from_str(alloc, text)?),
        Err(_) => Err(NoMemory),
    }
}
