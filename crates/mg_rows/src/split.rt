// Immutable bytes in two parts: up to 29 bytes are stored in the value itself, more are stored in a block that copies share.
ghost use Rattle.std.specs.Prelude.{◌≡◌, ◌≤◌, ◌+◌, ◌++◌, [], ◌∷◌, IfOk, IfSome, length, take};
ghost use Rattle.mg_rows.specs.Split.{held_bytes, held_end, held_parts, IsSound};

use mg_value::NoMemory;
use std::alloc::Global;
use std::marker::Model;
use std::sync::Arc;

// The most bytes that are stored in the value itself. With this limit a row takes 32 bytes.
const INLINE: usize = 29;

#[derive(Drop)]
pub(crate) enum Held {
    // how many bytes there are, how many of them are the first part's, and the bytes
    Inline(u8, u8, [u8; 29]),
    // the bytes, and how many of them are the first part's
    Shared(Arc<Vec<u8>>, usize),
}

/// Bytes in two parts: up to 29 bytes in the value itself, more in a block that copies share. A copy takes no memory.
#[derive(Drop)]
pub(crate) struct SplitBytes {
    held: Held,
}

impl Model for SplitBytes {
    ghost use Rattle.std.specs.Prelude.{List, ℕ};
    ghost use Rattle.mg_rows.specs.Split.{held_parts, IsSound};

    // the two parts
    ghost Value = { List ℕ × List ℕ };

    ghost view = { λ split. held_parts split.held };

    ghost invariant = { λ split. IsSound split.held };
}

impl SplitBytes {
    /// Copies bytes: the first part is `front` and then the byte `last`, the second part is `back`.
    ///
    /// Errors: `NoMemory` if an allocation fails; up to 29 bytes take no memory. Cost: the count of bytes.
    pub(crate) fn of(
        alloc: Global,
        front: &[u8],
        last: u8,
        back: &[u8],
    ) -> Result<SplitBytes, NoMemory>
        ensures { IfOk result (λ split. split ≡ (front.now ++ last ∷ [], back.now)) }
    {
        let held = hold(alloc, front, last, back)?;
        Ok(SplitBytes { held })
    }

    /// Lends both parts together. Takes no memory.
    #[inline(always)]
    pub(crate) fn bytes(&self) -> &[u8]
        ensures { result.now ≡ self.now.0 ++ self.now.1 }
    {
        lend(&self.held)
    }

    /// Lends the two parts. Takes no memory.
    #[inline(always)]
    pub(crate) fn parts(&self) -> (&[u8], &[u8])
        ensures first { result.0.now ≡ self.now.0 }
        ensures second { result.1.now ≡ self.now.1 }
    {
        let end = end_of(&self.held);
        lend(&self.held).split_at(end)
    }

    /// Makes a copy, which shares the block if there is one. Takes no memory. Errors: `NoMemory` if the block has 2^63 - 1
    /// owners.
    #[inline(always)]
    pub(crate) fn again(&self) -> Result<SplitBytes, NoMemory>
        ensures { IfOk result (λ split. split ≡ self.now) }
    {
        let held = hold_again(&self.held)?;
        Ok(SplitBytes { held })
    }

    /// Copies bytes that are stored in the value itself; `None` if they have a block.
    #[inline(always)]
    pub(crate) fn copy_inline(&self) -> Option<SplitBytes>
        ensures { IfSome result (λ split. split ≡ self.now) }
    {
        match &self.held {
            Held::Inline(count, end, inside) => Some(SplitBytes {
                held: Held::Inline(*count, *end, *inside),
            }),
            Held::Shared(_, _) => None,
        }
    }

    /// Counts the copies that share the block, with this one; 0 if there is no block.
    #[inline(always)]
    pub(crate) fn owners(&self) -> usize {
        owners_of(&self.held)
    }
}

#[inline(always)]
fn owners_of(held: &Held) -> usize {
    match held {
        Held::Inline(_, _, _) => 0,
        Held::Shared(all, _) => Arc::strong_count(all),
    }
}

fn hold(alloc: Global, front: &[u8], last: u8, back: &[u8]) -> Result<Held, NoMemory>
    ensures bytes { IfOk result (λ held. held_bytes held ≡ front.now ++ last ∷ [] ++ back.now) }
    ensures end { IfOk result (λ held. held_end held ≡ length front.now + 1) }
    ensures sound { IfOk result (λ held. IsSound held) }
{
    let end = front.len() + 1;
    let count = end + back.len();
    if count <= INLINE {
        return Ok(Held::Inline(count as u8, end as u8, inside(front, last, back)));
    }
    let mut all = Vec::with_capacity(alloc, count)?;
    all.extend_from_slice(front)?;
    all.push(last)?;
    all.extend_from_slice(back)?;
    Ok(Held::Shared(Arc::new(alloc, all)?, end))
}

// Makes the array that is stored in the value itself: the bytes in order, filled up with zeros.
fn inside(front: &[u8], last: u8, back: &[u8]) -> [u8; 29]
    requires { length front.now + 1 + length back.now ≤ 29 }
    ensures bytes { take (length front.now + 1 + length back.now) result
        ≡ front.now ++ last ∷ [] ++ back.now }
{
    let end = front.len() + 1;
    let count = end + back.len();
    let mut inside = [0u8; 29];
    inside[..front.len()].copy_from_slice(front);
    inside[front.len()] = last;
    inside[end..count].copy_from_slice(back);
    inside
}

#[inline(always)]
fn lend(held: &Held) -> &[u8]
    requires { IsSound held.now }
    ensures { result.now ≡ held_bytes held.now }
{
    match held {
        Held::Inline(count, _, inside) => &inside[..*count as usize],
        Held::Shared(all, _) => all.as_slice(),
    }
}

#[inline(always)]
fn end_of(held: &Held) -> usize
    requires { IsSound held.now }
    ensures end { result ≡ held_end held.now }
    ensures fits { result ≤ length (held_bytes held.now) }
{
    match held {
        Held::Inline(_, end, _) => *end as usize,
        Held::Shared(_, end) => *end,
    }
}

#[inline(always)]
fn hold_again(held: &Held) -> Result<Held, NoMemory>
    requires { IsSound held.now }
    ensures bytes { IfOk result (λ again. held_bytes again ≡ held_bytes held.now) }
    ensures end { IfOk result (λ again. held_end again ≡ held_end held.now) }
    ensures sound { IfOk result (λ again. IsSound again) }
{
    match held {
        Held::Inline(count, end, inside) => Ok(Held::Inline(*count, *end, *inside)),
        Held::Shared(all, end) => {
            let same = all.clone()?;
            Ok(Held::Shared(same, *end))
        }
    }
}
