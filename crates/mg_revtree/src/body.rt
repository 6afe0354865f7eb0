//! The bodies of revisions. A body is kept in a block of its own, or in the block of the form in which its document is served. The
//! object without members, which is the usual body of a deleted revision, takes no block.
ghost use Rattle.std.specs.Prelude.{◌≡◌, IfOk, None, Some, true};
ghost use Rattle.mg_value.specs.Value.{member_of, no_members, object, text as string};
ghost use Rattle.mg_value.specs.View.{view};
ghost use Rattle.mg_revtree.specs.Body.{IsBare, IsFormOf, as_form, bare};
ghost use Rattle.mg_revtree.specs.Block.{IsFormIfServed, block_value};

use crate::form::Form;
use mg_packed::{Kind, Packed, Part};
use mg_value::{Json, NoMemory};
use std::alloc::Global;
use std::marker::Model;

#[derive(Drop)]
pub(crate) enum Block {
    // no block: the object without members
    Empty,
    Own(Packed),
    // the block of a form in which the document was served: the body with the document's id and the body's revision
    Served(Form),
}

/// The body of a revision, in at most one block of memory: a block of its own, or that of a form in which the document was served
/// with this body. The object without members takes no block. Contracts see the body alone.
#[derive(Drop)]
pub struct Body {
    block: Block,
}

impl Model for Body {
    ghost use Rattle.mg_value.specs.Value.{Value as JsonValue};
    ghost use Rattle.mg_value.specs.Code.{value_code};

    ghost Value = { JsonValue };

    ghost coded = { value_code };

    ghost use Rattle.mg_revtree.specs.Block.{IsFormIfServed, block_value};

    ghost view = { λ body. block_value body.block };

    ghost invariant = { λ body. IsFormIfServed body.block };
}

impl Body {
    /// Makes a body of a packed value. Takes no memory: the block of the object without members is freed, and any other value keeps its
    /// block.
    pub fn of(packed: Packed) -> Body
        ensures { result ≡ packed }
    {
        let block = if has_no_members(&packed) {
            Block::Empty
        } else {
            Block::Own(packed)
        };
        Body { block }
    }

    /// Packs a value, and makes a body of it as `of` does.
    ///
    /// Errors and cost: those of `Packed::of`.
    pub fn of_json(alloc: Global, value: &Json) -> Result<Body, NoMemory>
        ensures { IfOk result (λ body. body ≡ view value.now) }
    {
        Ok(Body::of(Packed::of(alloc, value)?))
    }

    /// Makes a body of a packed value, in the block of its form with this id and this revision. A value that has `_id` or `_rev` as a
    /// member, and the object without members, are kept as `of` keeps them.
    ///
    /// Errors and cost: those of `form`.
    pub fn in_form(alloc: Global, packed: Packed, id: &str, rev: &str) -> Result<Body, NoMemory>
        ensures { IfOk result (λ body. body ≡ packed) }
    {
        let form = make_form(alloc, &packed, id, rev)?;
        let mut body = Body::of(packed);
        body.move_into(form);
        Ok(body)
    }

    // Makes the body that a form holds. It stays in the form's block.
    fn within(form: Form) -> Body
        requires { IsFormOf (bare form) form }
        ensures { result ≡ bare form }
    {
        Body {
            block: Block::Served(form),
        }
    }

    /// Copies the body into a `Json` that owns its memory.
    ///
    /// Errors: `NoMemory` if an allocation fails. Cost: the size of the body.
    pub fn copy(&self, alloc: Global) -> Result<Json, NoMemory>
        ensures { IfOk result (λ value. view value ≡ self.now) }
    {
        copy_body(alloc, &self.block)
    }

    /// Copies the body into a block of its own.
    ///
    /// Errors: `NoMemory` if an allocation fails, or if the block would be longer than 4,294,967,295 bytes. Cost: the size of the body.
    pub fn packed(&self, alloc: Global) -> Result<Packed, NoMemory>
        ensures { IfOk result (λ packed. packed ≡ self.now) }
    {
        let body = self.copy(alloc)?;
        Packed::of(alloc, &body)
    }

    /// Makes the same body once more. It shares the block of a form.
    ///
    /// Errors: `NoMemory` if an allocation fails, or if there are too many references to the form. Cost: the size of a block of its own.
    pub fn again(&self, alloc: Global) -> Result<Body, NoMemory>
        ensures { IfOk result (λ body. body ≡ self.now) }
    {
        Ok(Body {
            block: block_again(alloc, &self.block)?,
        })
    }

    /// Makes the form of the body: the body with this id as `_id` and this revision as `_rev`, in one block. A body that is not an object
    /// is its own form.
    ///
    /// Errors: `NoMemory` if an allocation fails, if a block would be longer than 4,294,967,295 bytes, or if there are too many
    /// references to a shared block. Cost: that of `Packed::with_text`, twice. If the body is already in the block of this form, the block
    /// is shared and nothing is copied. If the body is in the block of another form, it is first copied out as a `Json` and packed.
    pub fn form(&self, alloc: Global, id: &str, rev: &str) -> Result<Form, NoMemory>
        ensures { IfOk result (λ form. form ≡ as_form (string id.now) (string rev.now) self.now) }
    {
        form_of(alloc, &self.block, id, rev)
    }

    // Moves the body into the block of `form`, and frees the body's own block. A body stays where it is if it has `_id` or `_rev` as a
    // member, since the form replaces these, or if it has no block of its own. Takes no memory.
    #[tactic(auto, using(crate::proofs::Bodies::shows))]
    pub(crate) fn move_into(&mut self, form: Form)
        requires { IsFormOf self.old form }
        ensures { self.new ≡ self.old }
    {
        if is_movable(&self.block) {
            *self = Body::within(form);
        }
    }
}

// Whether a value is the object without members.
fn has_no_members(packed: &Packed) -> bool
    ensures { result ≡ true → packed.now ≡ object no_members }
{
    match packed.part().kind() {
        Kind::Object(members) => members.len() == 0,
        _ => false,
    }
}

// Makes a block of the same body. Errors: those of `Body::again`.
fn block_again(alloc: Global, block: &Block) -> Result<Block, NoMemory>
    ensures body { IfOk result (λ made. block_value made ≡ block_value block.now) }
    ensures form { IsFormIfServed block.now → IfOk result (λ made. IsFormIfServed made) }
{
    match block {
        Block::Empty => Ok(Block::Empty),
        Block::Own(body) => Ok(Block::Own(body.copy(alloc)?)),
        Block::Served(form) => Ok(Block::Served(form.share()?)),
    }
}

// Copies the body that a block holds. Errors: `NoMemory` if an allocation fails.
fn copy_body(alloc: Global, block: &Block) -> Result<Json, NoMemory>
    ensures { IfOk result (λ value. view value ≡ block_value block.now) }
{
    match block {
        Block::Empty => Ok(Json::empty_object(alloc)),
        Block::Own(body) => body.part().to_json(alloc),
        Block::Served(form) => copy_bare(alloc, form),
    }
}

// Copies the body out of a form: the form without `_id` and `_rev`. Errors: `NoMemory` if an allocation fails.
fn copy_bare(alloc: Global, form: &Form) -> Result<Json, NoMemory>
    ensures { IfOk result (λ value. view value ≡ bare form.now) }
{
    let mut body = form.written().part().to_json(alloc)?;
    drop(body.take("_id"));
    drop(body.take("_rev"));
    Ok(body)
}

// Whether the block is the body's own, and the body has neither `_id` nor `_rev` as a member.
fn is_movable(block: &Block) -> bool
    ensures { result ≡ true → IsBare (block_value block.now) }
{
    match block {
        Block::Empty => false,
        Block::Own(body) => lacks(body, "_id") && lacks(body, "_rev"),
        Block::Served(_) => false,
    }
}

fn lacks(body: &Packed, name: &str) -> bool
    ensures { result ≡ true → member_of name.now body.now ≡ None }
{
    body.part().member(name).is_none()
}

// Makes, or shares, the form of the body that a block holds. Errors: those of `Body::form`.
fn form_of(alloc: Global, block: &Block, id: &str, rev: &str) -> Result<Form, NoMemory>
    requires { IsFormIfServed block.now }
    ensures { IfOk result (λ form. form ≡ as_form (string id.now) (string rev.now) (block_value block.now)) }
{
    match block {
        Block::Empty => form_of_empty(alloc, id, rev),
        Block::Own(body) => make_form(alloc, body, id, rev),
        Block::Served(form) => share_or_make(alloc, form, id, rev),
    }
}

// Shares the form if it has this id and this revision; else makes the form of its body with them. Errors: those of `Body::form`.
#[tactic(auto, using(crate::proofs::Bodies::is_made))]
fn share_or_make(alloc: Global, form: &Form, id: &str, rev: &str) -> Result<Form, NoMemory>
    requires { IsFormOf (bare form.now) form.now }
    ensures { IfOk result (λ made. made ≡ as_form (string id.now) (string rev.now) (bare form.now)) }
{
    if has_text(form, "_id", id) && has_text(form, "_rev", rev) {
        return form.share();
    }
    let body = copy_bare(alloc, form)?;
    let packed = Packed::of(alloc, &body)?;
    make_form(alloc, &packed, id, rev)
}

// Makes the form of the object without members. Errors: those of `Body::form`.
fn form_of_empty(alloc: Global, id: &str, rev: &str) -> Result<Form, NoMemory>
    ensures { IfOk result (λ form. form ≡ as_form (string id.now) (string rev.now) (object no_members)) }
{
    let packed = Packed::of(alloc, &Json::empty_object(alloc))?;
    make_form(alloc, &packed, id, rev)
}

// Makes the form of a packed body. Errors: those of `Body::form`.
fn make_form(alloc: Global, body: &Packed, id: &str, rev: &str) -> Result<Form, NoMemory>
    ensures { IfOk result (λ form. form ≡ as_form (string id.now) (string rev.now) body.now) }
{
    let revised = body.with_text(alloc, "_rev", rev)?;
    let form = revised.with_text(alloc, "_id", id)?;
    Form::of(alloc, form)
}

// Whether the form has a member of this name, and the member is this text.
fn has_text(form: &Form, name: &str, text: &str) -> bool
    ensures { result ≡ true → member_of name.now form.now ≡ Some (string text.now) }
{
    match form.written().part().member(name) {
        Some(part) => is_text(&part, text),
        None => false,
    }
}

fn is_text(part: &Part<'_>, text: &str) -> bool
    ensures { result ≡ true → part.now ≡ string text.now }
{
    match part.kind() {
        Kind::Text(found) => found == text,
        _ => false,
    }
}
