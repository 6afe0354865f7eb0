// Reads JSON texts into blocks.
ghost use Rattle.std.specs.Prelude.{◌≡◌, ◌<◌, length, Err, IfOk, IfSome, IsUtf8, None};
ghost use Rattle.json.specs.Value.{value_view};
ghost use Rattle.serde_json.specs.Data.{Data};
ghost use Rattle.mg_value.specs.Text.{Reads, IsText, whole_of};
ghost use Rattle.mg_value.specs.Borrowed.{IsTreeOf};
ghost use Rattle.mg_value.specs.View.{view};

use crate::packed::Packed;
use crate::tree::{GaveUp, push_tree};
use json::{Scratch, Value as Tree};
use mg_value::{Json, LONGEST_KEPT, MAX_DEPTH, ReadBuffer, ReadError, read_tree};
use std::alloc::Global;

// Reads the value of a JSON text into a new block. Errors: those of `mg_value::read`, and `NoMemory` if the block would be too long.
pub(crate) fn read_packed(
    alloc: Global,
    bytes: &[u8],
    buffer: &mut ReadBuffer,
) -> Result<Packed, ReadError>
    ensures ok { IfOk result (λ packed. Reads bytes.now packed) }
    ensures not_json { result ≡ Err ReadError.NotJson → (d : Data) → ¬ IsText bytes.now d }
    ensures not_whole { result ≡ Err ReadError.NotWhole
        → (d : Data) × IsText bytes.now d × (whole_of d ≡ None) }
    ensures no_memory { result ≡ Err ReadError.NoMemory
        → IsUtf8 bytes.now × (0 < length bytes.now) }
{
    match read_fast(alloc, bytes, buffer) {
        Some(packed) => Ok(packed),
        None => read_again(alloc, bytes),
    }
}

// The fast path, without a `Json`. It gives up (`None`) if `push_tree` does, if the bytes are not JSON, if the block would be too long, or
// if memory runs out.
fn read_fast(alloc: Global, bytes: &[u8], buffer: &mut ReadBuffer) -> Option<Packed>
    ensures { IfSome result (λ packed. Reads bytes.now packed) }
{
    match str::from_utf8(bytes) {
        Ok(text) => read_text(alloc, text, buffer),
        Err(_) => None,
    }
}

// A text of more than `LONGEST_KEPT` bytes is parsed with a buffer of its own, so that the kept one stays small.
fn read_text(alloc: Global, text: &str, buffer: &mut ReadBuffer) -> Option<Packed>
    ensures { IfSome result (λ packed. Reads text.now packed) }
{
    if text.len() > LONGEST_KEPT {
        let mut scratch = Scratch::new(alloc);
        return read_with(alloc, text, &mut scratch);
    }
    read_with(alloc, text, buffer.scratch())
}

fn read_with(alloc: Global, text: &str, scratch: &mut Scratch) -> Option<Packed>
    ensures { IfSome result (λ packed. Reads text.now packed) }
{
    let tree = read_tree(alloc, text, scratch)?;
    match tree_packed(alloc, text.len(), &tree) {
        Ok(packed) => Some(packed),
        Err(_) => None,
    }
}

// Puts the value that the tree stands for into a block. The buffers begin with the length of the text, which no compact text of the same
// value passes. Errors: `GaveUp` if `push_tree` gives up, the text or the tables would be too long, or memory runs out.
fn tree_packed(alloc: Global, text_len: usize, tree: &Tree<'_>) -> Result<Packed, GaveUp>
    ensures { IfOk result (λ packed. IsTreeOf (value_view tree.now) packed) }
{
    let mut text = Vec::with_capacity(alloc, text_len)?;
    let mut tables = Vec::with_capacity(alloc, text_len)?;
    push_tree(alloc, &mut text, &mut tables, tree, MAX_DEPTH)?;
    let packed = Packed::joined(alloc, &text, &tables)?;
    Ok(packed)
}

// The slow path, over a `Json`. It finds why a text is refused. It also reads the few other texts on which the fast path gave up: those
// in which an object has a name twice, or for which memory ran out.
fn read_again(alloc: Global, bytes: &[u8]) -> Result<Packed, ReadError>
    ensures ok { IfOk result (λ packed. Reads bytes.now packed) }
    ensures not_json { result ≡ Err ReadError.NotJson → (d : Data) → ¬ IsText bytes.now d }
    ensures not_whole { result ≡ Err ReadError.NotWhole
        → (d : Data) × IsText bytes.now d × (whole_of d ≡ None) }
    ensures no_memory { result ≡ Err ReadError.NoMemory
        → IsUtf8 bytes.now × (0 < length bytes.now) }
{
    match mg_value::read(alloc, bytes) {
        Ok(value) => pack(alloc, &value),
        Err(error) => Err(error),
    }
}

// Packs the value. The only error is `NoMemory`.
fn pack(alloc: Global, value: &Json) -> Result<Packed, ReadError>
    ensures ok { IfOk result (λ packed. packed ≡ view value.now) }
    ensures json { result ≡ Err ReadError.NotJson → ⊥ }
    ensures whole { result ≡ Err ReadError.NotWhole → ⊥ }
{
    match Packed::of(alloc, value) {
        Ok(packed) => Ok(packed),
        Err(_) => Err(ReadError::NoMemory),
    }
}
