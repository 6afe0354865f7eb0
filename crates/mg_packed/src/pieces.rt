// Writes containers piece by piece: the text into one buffer, the tables into another.
// Errors: `NoMemory` if an allocation fails, or a place needs more than four bytes; the buffers may then have more bytes than before.
ghost use Rattle.std.specs.Prelude.{◌≡◌, ◌++◌, ◌∷◌, [], ℕ, List, false, IfOk, OnOk};
ghost use Rattle.mg_packed.specs.Tables.{Piece, run, container, head, is_wide};
ghost use Rattle.mg_packed.specs.Writing.{IsOpen, IsSomeOpen, here};

use crate::build::{LONGEST, LONGEST_HALF, push_byte, push_lead, push_marks, push_word};
use crate::mark::Mark;
use mg_value::NoMemory;
use std::alloc::Global;

// A container that is being written: where its text and its tables begin in the buffers, and where its pieces begin.
#[derive(Drop)]
pub(crate) struct Pieces {
    pub(crate) text: usize,
    pub(crate) tables: usize,
    pub(crate) marks: Vec<Mark>,
}

impl Pieces {
    // Begins a container at the end of the buffers by its opening bracket. It is likely to have this many pieces.
    pub(crate) fn begin(
        alloc: Global,
        text: &mut Vec<u8>,
        tables: &Vec<u8>,
        bracket: u8,
        count: usize,
    ) -> Result<Pieces, NoMemory>
        ensures { IfOk result (λ p. IsOpen text.old.items tables.now.items bracket [] text.new.items tables.now.items
            p.text p.tables p.marks.items) }
    {
        let begin = text.len();
        push_byte(text, bracket)?;
        Ok(Pieces {
            text: begin,
            tables: tables.len(),
            marks: Vec::with_capacity(alloc, count.saturating_add(1))?,
        })
    }

    // Marks where the next piece begins, and adds the byte before it, if it is not the first. The text and the tables of the piece are to be
    // added then.
    pub(crate) fn mark(
        &mut self,
        text: &mut Vec<u8>,
        tables: &Vec<u8>,
        before: u8,
    ) -> Result<(), NoMemory>
        requires { IsSomeOpen text.old.items tables.now.items self.old.text self.old.tables self.old.marks.items }
        ensures kept { (self.new.text ≡ self.old.text) × (self.new.tables ≡ self.old.tables) }
        ensures added { OnOk result ((b t : List ℕ) (bracket : ℕ) (ps : List Piece) (p : Piece) → p.before ≡ before
            → IsOpen b t bracket ps text.old.items tables.now.items self.old.text self.old.tables self.old.marks.items
            → IsOpen b t bracket (ps ++ p ∷ []) (text.new.items ++ p.text) (tables.now.items ++ p.tables)
            self.new.text self.new.tables self.new.marks.items) }
    {
        let later = self.marks.len() > 0;
        let next = here(later, text.len() - self.text, tables.len() - self.tables);
        push_lead(text, later, before)?;
        self.marks.push(next)?;
        Ok(())
    }

    // Ends the container by its closing bracket: it adds the marks and the head.
    pub(crate) fn end(
        self,
        text: &mut Vec<u8>,
        tables: &mut Vec<u8>,
        bracket: u8,
    ) -> Result<(), NoMemory>
        requires { IsSomeOpen text.old.items tables.old.items self.text self.tables self.marks.items }
        ensures { OnOk result ((b t : List ℕ) (first : ℕ) (ps : List Piece)
            → IsOpen b t first ps text.old.items tables.old.items self.text self.tables self.marks.items
            → (text.new.items ≡ b ++ first ∷ (run false ps ++ bracket ∷ []))
            × (tables.new.items ≡ t ++ container ps)) }
    {
        let count = self.marks.len();
        let last = here(
            count > 0,
            text.len() - self.text,
            tables.len() - self.tables,
        );
        let wide = is_wide(last);
        let mut marks = self.marks;
        marks.push(last)?;
        push_marks(tables, &marks, wide)?;
        push_word(tables, head(count, wide)?)?;
        push_byte(text, bracket)?;
        Ok(())
    }
}

// The mark at these places, which is at the container's first byte if no piece comes before.
pub(crate) fn here(later: bool, at: usize, deep: usize) -> Mark
    ensures { result ≡ here later at deep }
{
    Mark {
        at: if later { at } else { 0 },
        deep,
    }
}

// Whether the numbers up to those of this mark need four bytes.
fn is_wide(last: Mark) -> bool
    ensures { result ≡ is_wide last }
{
    last.at > LONGEST_HALF || last.deep > LONGEST_HALF
}

// The count of pieces and the width of the marks in one number.
fn head(count: usize, wide: bool) -> Result<usize, NoMemory>
    ensures { IfOk result (λ n. n ≡ head count wide) }
{
    if count > LONGEST {
        return Err(NoMemory);
    }
    if wide {
        Ok(2 * count + 1)
    } else {
        Ok(2 * count)
    }
}
