//! Writes the rows of documents that a page lends, part by part. Each `with_` function takes a buffer and returns it with its part appended.
//! Errors: `NoMemory` if an allocation fails; then the buffer is dropped.
ghost use Rattle.std.specs.Prelude.{◌≡◌, ◌++◌, IfOk, map, pos};
ghost use Rattle.mg_value.specs.Text.{compact};
ghost use Rattle.mg_value.specs.Value.{list, whole};
ghost use Rattle.mg_value.specs.View.{items_of};
ghost use Rattle.mg_query.specs.Paged.{shown_view};
ghost use Rattle.mg_engine.specs.Bodies.{line_of};
ghost use Rattle.mg_engine.specs.Questions.{listed_row, member_or_null, rows_value};
ghost use Rattle.mg_engine.specs.Rows.{row_front};

use mg_packed::Part;
use mg_query::{Shown, with_comma};
use mg_value::NoMemory;
use std::alloc::Global;

// Room for what a list has besides its rows.
const LIST_ROOM: usize = 128;

// Room for what most rows have besides their documents: twice an id of up to 24 letters, and a revision.
const ROW_ROOM: usize = 128;

/// Writes the line with the rows of these documents: how many documents come before them, and how many there are.
pub(crate) fn write_rows(
    alloc: Global,
    offset: usize,
    total: usize,
    docs: &[Shown<'_>],
    documents: bool,
) -> Result<Vec<u8>, NoMemory>
    ensures { IfOk result (λ line. line.items
        ≡ line_of (rows_value offset total (map (listed_row documents) (map shown_view docs.now)))) }
{
    let mut out = Vec::with_capacity(alloc, first_room(docs, documents))?;
    out.extend_from_slice(b"{\"offset\":")?;
    let mut out = with_count(alloc, out, offset)?;
    out.extend_from_slice(b",\"rows\":")?;
    let mut out = with_rows(out, docs, documents)?;
    out.extend_from_slice(b",\"total_rows\":")?;
    let mut out = with_count(alloc, out, total)?;
    out.extend_from_slice(b"}\n")?;
    Ok(out)
}

// How many bytes are allocated at first: the text of most lists fits.
fn first_room(docs: &[Shown<'_>], documents: bool) -> usize {
    let mut room = LIST_ROOM;
    for shown in docs {
        let document = if documents {
            shown.part().text().len()
        } else {
            0
        };
        room = room.saturating_add(document.saturating_add(ROW_ROOM));
    }
    room
}

fn with_count(alloc: Global, mut out: Vec<u8>, count: usize) -> Result<Vec<u8>, NoMemory>
    ensures { IfOk result (λ b. b.items ≡ out.items ++ compact (whole (pos count))) }
{
    let digits = format!(in alloc; "{count}")?;
    out.extend_from_slice(digits.as_bytes())?;
    Ok(out)
}

// Appends the rows of these documents, as an array.
fn with_rows(mut out: Vec<u8>, docs: &[Shown<'_>], documents: bool) -> Result<Vec<u8>, NoMemory>
    ensures { IfOk result (λ b. b.items ≡ out.items
        ++ compact (list (items_of (map (listed_row documents) (map shown_view docs.now))))) }
{
    out.push(b'[')?;
    for (place, shown) in docs.iter().enumerate() {
        let begun = with_comma(out, place)?;
        out = with_row(begun, &shown.part(), documents)?;
    }
    out.push(b']')?;
    Ok(out)
}

// Appends the row of a document.
fn with_row(out: Vec<u8>, document: &Part<'_>, documents: bool) -> Result<Vec<u8>, NoMemory>
    ensures { IfOk result (λ b. b.items ≡ out.items ++ compact (listed_row documents document.now)) }
{
    let id = member_text(document, "_id");
    let mut out = with_front(out, document, documents)?;
    out.extend_from_slice(id)?;
    out.extend_from_slice(b",\"key\":")?;
    out.extend_from_slice(id)?;
    out.extend_from_slice(b",\"value\":{\"rev\":")?;
    out.extend_from_slice(member_text(document, "_rev"))?;
    out.extend_from_slice(b"}}")?;
    Ok(out)
}

// Appends what a row has before its id: the document, if documents are asked for.
fn with_front(mut out: Vec<u8>, document: &Part<'_>, documents: bool) -> Result<Vec<u8>, NoMemory>
    ensures { IfOk result (λ b. b.items ≡ out.items ++ row_front documents document.now) }
{
    if documents {
        out.extend_from_slice(b"{\"doc\":")?;
        out.extend_from_slice(document.text())?;
        out.extend_from_slice(b",\"id\":")?;
        return Ok(out);
    }
    out.extend_from_slice(b"{\"id\":")?;
    Ok(out)
}

// Lends the text of a member; that of null if it is absent.
fn member_text<'a>(document: &Part<'a>, name: &str) -> &'a [u8]
    ensures { result.now ≡ compact (member_or_null name.now document.now) }
{
    match document.member(name) {
        Some(value) => value.text(),
        None => b"null",
    }
}
