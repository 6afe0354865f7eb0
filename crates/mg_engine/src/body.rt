//! Bodies of replies.
ghost use Rattle.std.specs.Prelude.{◌≡◌, ◌∷◌, ◌++◌, [], IfOk};
ghost use Rattle.mg_value.specs.View.{view};
ghost use Rattle.mg_engine.specs.Bodies.{done_value, line_of};

use mg_value::{Json, NoMemory, write};
use std::alloc::Global;

/// Writes the compact text of a value, and a line feed. Errors: `NoMemory` if an allocation fails.
pub(crate) fn line(alloc: Global, value: &Json) -> Result<Vec<u8>, NoMemory>
    ensures { IfOk result (λ b. b.items ≡ line_of (view value.now)) }
{
    let text = write(alloc, value)?;
    with_line_feed(text)
}

/// Appends a line feed to a text. Errors: `NoMemory` if an allocation fails.
pub(crate) fn with_line_feed(text: Vec<u8>) -> Result<Vec<u8>, NoMemory>
    ensures { IfOk result (λ b. b.items ≡ text.items ++ 10 ∷ []) }
{
    let mut line = text;
    line.push(b'\n')?;
    Ok(line)
}

/// Copies a text and appends a line feed. Errors: `NoMemory` if an allocation fails.
pub(crate) fn text_line(alloc: Global, text: &[u8]) -> Result<Vec<u8>, NoMemory>
    ensures { IfOk result (λ b. b.items ≡ text.now ++ 10 ∷ []) }
{
    let mut line = Vec::with_capacity(alloc, text.len().saturating_add(1))?;
    line.extend_from_slice(text)?;
    line.push(b'\n')?;
    Ok(line)
}

/// Writes `{"ok":true}` and a line feed. Errors: `NoMemory` if an allocation fails.
pub(crate) fn done_line(alloc: Global) -> Result<Vec<u8>, NoMemory>
    ensures { IfOk result (λ b. b.items ≡ line_of done_value) }
{
    let mut done = Json::empty_object(alloc);
    done.insert(alloc, "ok", Json::Flag(true))?;
    line(alloc, &done)
}
