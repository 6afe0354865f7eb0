// Writes the compact text and the tables of the value that a parse tree stands for, in one walk. If it gives up (`GaveUp`), the text has to
// be read by `mg_value::read`, and the buffers may have more bytes than before.
ghost use Rattle.std.specs.Prelude.{◌≡◌, ◌++◌, ℤ, FitsSigned, IfOk, OnOk, Some};
ghost use Rattle.std.specs.Int.{w64};
ghost use Rattle.json.specs.Value.{value_view, members_view as tree_members};
ghost use Rattle.mg_value.specs.Borrowed.{whole_number_of};
ghost use Rattle.mg_value.specs.Text.{compact};
ghost use Rattle.mg_value.specs.Value.{Items, Members, null, flag as boolean, whole, text as string, list, object};
ghost use Rattle.mg_packed.specs.Sorted.{IsAdded, IsPushed, AreSortedMembers, IsSorting, ItemsMatch, MembersMatch, Ascend};

use crate::build::{push_text, push_whole};
use crate::pieces::Pieces;
use json::Value as Tree;
use mg_value::{NoMemory, whole_number};
use std::alloc::{AllocError, AllocFailed, Global};
use std::collections::BTreeMap;

// The walk gave up: a number is not an `i64`, an object has a name twice, the tree nests too deep, a place needs more than four
// bytes, or memory ran out.
#[derive(Drop)]
pub(crate) struct GaveUp;

impl From<NoMemory> for GaveUp {
    fn from(_refused: NoMemory) -> GaveUp {
        GaveUp
    }
}

impl From<AllocError> for GaveUp {
    fn from(_refused: AllocError) -> GaveUp {
        GaveUp
    }
}

impl<T: Drop> From<AllocFailed<T>> for GaveUp {
    fn from(_refused: AllocFailed<T>) -> GaveUp {
        GaveUp
    }
}

// Adds the text and the tables of the value that the tree stands for. It gives up if the tree nests deeper than `depth`. This limit only
// serves the proof that the walk ends: no tree of `read_tree` nests deeper than `MAX_DEPTH`. A level of nesting takes one frame of the
// stack, that of `push_items` or `push_sorted`, since the functions between them are inlined.
#[cycle(push_tree)]
#[inline(always)]
pub(crate) fn push_tree<'t, 'a>(
    alloc: Global,
    out: &mut Vec<u8>,
    inner: &mut Vec<u8>,
    tree: &'t Tree<'a>,
    depth: usize,
) -> Result<(), GaveUp>
    ensures { OnOk result (IsPushed (value_view tree.now) out.old.items inner.old.items
        out.new.items inner.new.items) }
{
    match tree {
        Tree::Null => push_null(out),
        Tree::Bool(flag) => push_flag(out, *flag),
        Tree::Number(text) => push_number(out, text),
        Tree::String(text) => push_string(out, inner, text),
        Tree::Array(items) => push_array(alloc, out, inner, items, depth),
        Tree::Object(members) => push_object(alloc, out, inner, members, depth),
    }
}

#[inline(always)]
fn push_null(out: &mut Vec<u8>) -> Result<(), GaveUp>
    ensures { OnOk result (out.new.items ≡ out.old.items ++ compact null) }
{
    out.extend_from_slice(b"null")?;
    Ok(())
}

#[inline(always)]
fn push_flag(out: &mut Vec<u8>, flag: bool) -> Result<(), GaveUp>
    ensures { OnOk result (out.new.items ≡ out.old.items ++ compact (boolean flag)) }
{
    if flag {
        out.extend_from_slice(b"true")?;
    } else {
        out.extend_from_slice(b"false")?;
    }
    Ok(())
}

#[inline(always)]
fn push_number(out: &mut Vec<u8>, text: &str) -> Result<(), GaveUp>
    ensures { OnOk result ((z : ℤ) × (whole_number_of text.now ≡ Some z) × FitsSigned w64 z
        × (out.new.items ≡ out.old.items ++ compact (whole z))) }
{
    match whole_number(text) {
        Some(number) => push_fitting(out, number),
        None => Err(GaveUp),
    }
}

// The number is a parameter so that proofs know its range.
#[inline(always)]
fn push_fitting(out: &mut Vec<u8>, number: i64) -> Result<(), GaveUp>
    ensures fits { FitsSigned w64 number }
    ensures pushed { OnOk result (out.new.items ≡ out.old.items ++ compact (whole number)) }
{
    push_whole(out, number)?;
    Ok(())
}

// The text is a parameter so that proofs know that it is UTF-8.
#[inline(always)]
fn push_string(out: &mut Vec<u8>, inner: &mut Vec<u8>, text: &str) -> Result<(), GaveUp>
    ensures { OnOk result (IsAdded (string text.now) out.old.items inner.old.items
        out.new.items inner.new.items) }
{
    push_text(out, inner, text)?;
    Ok(())
}

#[cycle(push_tree)]
#[inline(always)]
fn push_array<'t, 'a>(
    alloc: Global,
    out: &mut Vec<u8>,
    inner: &mut Vec<u8>,
    items: &'t [Tree<'a>],
    depth: usize,
) -> Result<(), GaveUp>
    ensures { OnOk result ((vs : Items) × ItemsMatch items.now vs
        × IsAdded (list vs) out.old.items inner.old.items out.new.items inner.new.items) }
{
    if depth == 0 {
        return Err(GaveUp);
    }
    push_items(alloc, out, inner, items, depth - 1)
}

#[cycle(push_tree)]
#[inline(never)]
fn push_items<'t, 'a>(
    alloc: Global,
    out: &mut Vec<u8>,
    inner: &mut Vec<u8>,
    items: &'t [Tree<'a>],
    depth: usize,
) -> Result<(), GaveUp>
    ensures { OnOk result ((vs : Items) × ItemsMatch items.now vs
        × IsAdded (list vs) out.old.items inner.old.items out.new.items inner.new.items) }
{
    let mut pieces = Pieces::begin(alloc, out, inner, b'[', items.len())?;
    for item in items {
        pieces.mark(out, inner, b',')?;
        push_tree(alloc, out, inner, item, depth)?;
    }
    pieces.end(out, inner, b']')?;
    Ok(())
}

#[cycle(push_tree)]
#[inline(always)]
fn push_object<'t, 'a>(
    alloc: Global,
    out: &mut Vec<u8>,
    inner: &mut Vec<u8>,
    members: &'t [(&'a str, Tree<'a>)],
    depth: usize,
) -> Result<(), GaveUp>
    ensures { OnOk result ((ms : Members) × AreSortedMembers (tree_members members.now) ms
        × IsAdded (object ms) out.old.items inner.old.items out.new.items inner.new.items) }
{
    if depth == 0 {
        return Err(GaveUp);
    }
    let sorted = sort(alloc, members)?;
    push_sorted(alloc, out, inner, &sorted, depth - 1)
}

// Sorts the members by name. It gives up if a name comes twice: the value that the later member replaces would never be checked. It also
// gives up if memory runs out.
#[inline(never)]
fn sort<'t, 'a>(
    alloc: Global,
    members: &'t [(&'a str, Tree<'a>)],
) -> Result<BTreeMap<&'a str, &'t Tree<'a>>, GaveUp>
    ensures { IfOk result (λ sorted. IsSorting sorted.entries (tree_members members.now)) }
{
    let mut sorted = BTreeMap::new(alloc);
    for member in members {
        let replaced = sorted.insert(member.0, &member.1)?;
        if replaced.is_some() {
            return Err(GaveUp);
        }
    }
    Ok(sorted)
}

#[cycle(push_tree)]
#[inline(never)]
fn push_sorted<'t, 'a>(
    alloc: Global,
    out: &mut Vec<u8>,
    inner: &mut Vec<u8>,
    sorted: &BTreeMap<&'a str, &'t Tree<'a>>,
    depth: usize,
) -> Result<(), GaveUp>
    ensures ordered { OnOk result (Ascend sorted.now.entries) }
    ensures pushed { OnOk result ((ms : Members) × MembersMatch sorted.now.entries ms
        × IsAdded (object ms) out.old.items inner.old.items out.new.items inner.new.items) }
{
    let mut pieces = Pieces::begin(alloc, out, inner, b'{', sorted.len().saturating_mul(2))?;
    for (name, tree) in sorted.iter() {
        pieces.mark(out, inner, b',')?;
        push_string(out, inner, *name)?;
        pieces.mark(out, inner, b':')?;
        push_tree(alloc, out, inner, *tree, depth)?;
    }
    pieces.end(out, inner, b'}')?;
    Ok(())
}
