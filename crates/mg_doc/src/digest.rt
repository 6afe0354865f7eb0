ghost use Rattle.std.specs.Prelude.{◌≡◌, IfOk, option_copied, string_bytes};
ghost use Rattle.mg_value.specs.Text.{compact};
ghost use Rattle.mg_value.specs.Value.{Value};
ghost use Rattle.mg_doc.specs.Digest.{digest_of, parent_text};

use md5::{Digest, Md5};
use mg_packed::Part;
use mg_revtree::{Body, Rev};
use mg_value::{Json, NoMemory, write};
use std::alloc::Global;

/// Makes the id of a new revision over a parent as `rev_id` does, of a body that is a part of a packed value.
///
/// Errors and cost: those of `rev_id`.
pub(crate) fn part_rev_id(
    alloc: Global,
    deleted: bool,
    parent: Option<&Rev>,
    body: &Part<'_>,
) -> Result<String, NoMemory>
    ensures { IfOk result
        (λ id. string_bytes id ≡ digest_of deleted (option_copied parent.entry) body.now) }
{
    let text = body.compact_text(alloc)?;
    rev_id_of_text(alloc, deleted, parent, &text)
}

// Makes the id of a new revision over a parent, of a body with this compact text. Errors: `NoMemory` if an allocation fails.
pub(crate) fn rev_id_of_text(
    alloc: Global,
    deleted: bool,
    parent: Option<&Rev>,
    text: &[u8],
) -> Result<String, NoMemory>
    ensures { IfOk result (λ id. (body : Value) → text.now ≡ compact body
        → string_bytes id ≡ digest_of deleted (option_copied parent.entry) body) }
{
    let parent = parent_text(alloc, parent)?;
    let mut hasher = Md5::new();
    hasher.update(if deleted { "[true," } else { "[false," });
    hasher.update(&parent);
    hasher.update(",");
    hasher.update(text);
    hasher.update("]");
    Ok(hex::encode(alloc, hasher.finalize())?)
}

/// Makes the id of a new revision over a parent as `rev_id` does, of a body that is kept at a leaf or goes there.
///
/// Errors: `NoMemory` if an allocation fails. Cost: a copy of the body, and that of `rev_id`.
pub(crate) fn rev_id_of_body(
    alloc: Global,
    deleted: bool,
    parent: Option<&Rev>,
    body: &Body,
) -> Result<String, NoMemory>
    ensures { IfOk result
        (λ id. string_bytes id ≡ digest_of deleted (option_copied parent.entry) body.now) }
{
    let body = body.packed(alloc)?;
    part_rev_id(alloc, deleted, parent, &body.part())
}

// Writes the parent as JSON: its text `N-id`, or null if there is none. Errors: `NoMemory` if an allocation fails.
fn parent_text(alloc: Global, parent: Option<&Rev>) -> Result<Vec<u8>, NoMemory>
    ensures { IfOk result (λ b. b.items ≡ compact (parent_text (option_copied parent.entry))) }
{
    let value = match parent {
        None => Json::Null,
        Some(rev) => Json::Text(rev.text(alloc)?),
    };
    write(alloc, &value)
}
