// Copies contiguous pieces of a container into one that is being written: their text and their tables in one piece each, and their marks moved.
// Errors: `NoMemory` if an allocation fails; the buffers may then have more bytes than before.
ghost use Rattle.std.specs.Prelude.{◌≡◌, ◌-◌, ◌<◌, ◌++◌, ◌^◌, length, nat_lt, OnOk};
ghost use Rattle.mg_packed.specs.Tables.{lead};
ghost use Rattle.mg_packed.specs.Read.{IsHead, HasMark};
ghost use Rattle.mg_packed.specs.Writing.{here, IsSomeOpen, HasMarks, mark_in, moved, range_text, range_tables};

use crate::build::push_lead;
use crate::head::Head;
use crate::mark::Mark;
use crate::pieces::{Pieces, here};
use crate::read;
use mg_value::NoMemory;

// A container whose pieces are copied: its text, its tables, and its head.
#[derive(Clone, Copy)]
pub(crate) struct Source<'a> {
    pub(crate) text: &'a [u8],
    pub(crate) tables: &'a [u8],
    pub(crate) head: Head,
}

// Adds the pieces of the source from index `start` up to, but not including, index `end`, which is greater. A comma is to come before the
// first.
pub(crate) fn copy_range(
    pieces: &mut Pieces,
    text: &mut Vec<u8>,
    tables: &mut Vec<u8>,
    source: Source<'_>,
    start: usize,
    end: usize,
) -> Result<(), NoMemory>
    requires some { IsSomeOpen text.old.items tables.old.items pieces.old.text pieces.old.tables pieces.old.marks.items }
    requires marked { HasMarks source.text.now source.tables.now start end }
    requires is_head { IsHead source.head source.tables.now }
    ensures kept { (pieces.new.text ≡ pieces.old.text) × (pieces.new.tables ≡ pieces.old.tables) }
    ensures text { OnOk result (text.new.items ≡ text.old.items
        ++ (lead (nat_lt 0 (length pieces.old.marks.items)) 44 ++ range_text source.entry.text.now source.entry.tables.now start end)) }
    ensures tables { OnOk result (tables.new.items ≡ tables.old.items ++ range_tables source.entry.tables.now start end) }
    ensures marks { OnOk result (pieces.new.marks.items ≡ pieces.old.marks.items
        ++ moved source.entry.tables.now (mark_in source.entry.tables.now start)
        (here (nat_lt 0 (length pieces.old.marks.items)) (length text.old.items - pieces.old.text) (length tables.old.items - pieces.old.tables))
        start (end - start)) }
{
    let later = pieces.marks.len() > 0;
    let to = here(
        later,
        text.len() - pieces.text,
        tables.len() - pieces.tables,
    );
    let from = mark(source.tables, source.head, start);
    let last = mark(source.tables, source.head, end);
    push_moved(&mut pieces.marks, source, from, to, start, end)?;
    push_lead(text, later, b',')?;
    text.extend_from_slice(&source.text[from.at + 1..last.at])?;
    tables.extend_from_slice(&source.tables[from.deep..last.deep])?;
    Ok(())
}

// Reads the mark at `index`.
fn mark(tables: &[u8], head: Head, index: usize) -> Mark
    requires has_mark { HasMark tables.now index }
    requires is_head { IsHead head tables.now }
    ensures { result ≡ mark_in tables.now index }
{
    Mark {
        at: read::at(tables, head, index),
        deep: read::deep(tables, head, index),
    }
}

// Adds the marks of the source from index `start` up to, but not including, index `end`, moved as from one place to another.
fn push_moved(
    marks: &mut Vec<Mark>,
    source: Source<'_>,
    from: Mark,
    to: Mark,
    start: usize,
    end: usize,
) -> Result<(), NoMemory>
    requires marked { HasMarks source.text.now source.tables.now start end }
    requires is_head { IsHead source.head source.tables.now }
    requires begun { from ≡ mark_in source.tables.now start }
    requires room { (to.at < 2 ^ 63) × (to.deep < 2 ^ 63) }
    ensures { OnOk result (marks.new.items ≡ marks.old.items ++ moved source.entry.tables.now from to start (end - start)) }
{
    for index in start..end {
        let here = mark(source.tables, source.head, index);
        marks.push(Mark {
            at: here.at - from.at + to.at,
            deep: here.deep - from.deep + to.deep,
        })?;
    }
    Ok(())
}
