ghost use Rattle.std.specs.Prelude.{◌≡◌, Err, IfOk, IsSome, None, Some, string_bytes};
ghost use Rattle.std.specs.Char.{is_ascii_digit};
ghost use Rattle.std.specs.List.{list_all};
ghost use Rattle.mg_revtree.specs.Revision.{is_id_byte, is_revision_id, position_of, revision_of, revision_order, revision_text, same_revision};

use crate::error::RevError;
use crate::rev_id::RevId;
use mg_value::NoMemory;
use std::alloc::Global;
use std::cmp::Ordering;
use std::marker::Model;

/// A revision of a document, written `N-id`: its position, counted from 1, and its id, one or more printable ASCII characters other than
/// the space. Contracts see the pair of position and id.
#[derive(Debug, Drop)]
pub struct Rev {
    /// The position, from 1 to 4,294,967,295.
    pub pos: u32,
    /// The id, as written.
    pub id: RevId,
}

impl Model for Rev {
    ghost use Rattle.mg_revtree.specs.Revision.{Revision};

    ghost Value = { Revision };

    ghost view = { λ r. (r.pos, r.id) };
}

impl Rev {
    /// Reads `N-id`. The first hyphen ends N, which is in decimal, from 1 to 4,294,967,295, with no leading zero.
    ///
    /// Errors: `Bad` if and only if the text is not a revision; else `NoMemory` if an allocation fails. Takes no memory if the id has 32
    /// bytes. Cost: the length of the text. Source: revisions of CouchDB's API reference.
    pub fn parse(alloc: Global, text: &str) -> Result<Rev, RevError>
        ensures ok { IfOk result (λ rev. revision_of text.now ≡ Some rev) }
        ensures bad { result ≡ Err RevError.Bad → revision_of text.now ≡ None }
        ensures no_memory { result ≡ Err RevError.NoMemory → IsSome (revision_of text.now) }
    {
        let Some((number, id)) = text.split_once('-') else {
            return Err(RevError::Bad);
        };
        if !is_rev_id(id) {
            return Err(RevError::Bad);
        }
        let Some(pos) = position(number) else {
            return Err(RevError::Bad);
        };
        Ok(Rev {
            pos,
            id: RevId::copy_of(alloc, id)?,
        })
    }

    /// Writes the revision as the text `N-id`. Errors: `NoMemory` if an allocation fails. Cost: the length of the id.
    pub fn text(&self, alloc: Global) -> Result<String, NoMemory>
        ensures { IfOk result (λ text. string_bytes text ≡ revision_text self.now) }
    {
        let pos = self.pos;
        let id = self.id.as_str();
        Ok(format!(in alloc; "{pos}-{id}")?)
    }

    /// Orders revisions by the position, then by the bytes of the id.
    pub fn order(&self, other: &Rev) -> Ordering
        ensures { result ≡ revision_order self.now other.now }
    {
        self.pos
            .cmp(&other.pos)
            .then(self.id.as_bytes().cmp(other.id.as_bytes()))
    }

    // Compares two revisions: the one of the given position and id, and this one, in that order.
    pub(crate) fn against(&self, pos: u32, id: &[u8]) -> Ordering
        ensures { result ≡ revision_order (pos, id.now) self.now }
    {
        pos.cmp(&self.pos).then(id.cmp(self.id.as_bytes()))
    }

    // Whether this revision has the given position and id.
    pub(crate) fn is(&self, pos: u32, id: &[u8]) -> bool
        ensures { result ≡ same_revision (pos, id.now) self.now }
    {
        self.against(pos, id).is_eq()
    }

    /// Copies the revision. Takes no memory if the id has 32 bytes. Errors: `NoMemory` if an allocation fails. Cost: the length of the
    /// id.
    pub fn copy(&self, alloc: Global) -> Result<Rev, NoMemory>
        ensures { IfOk result (λ rev. rev ≡ self.now) }
    {
        Ok(Rev {
            pos: self.pos,
            id: self.id.copy(alloc)?,
        })
    }
}

/// Whether a text is the id of a revision: one or more characters `!` to `~`. Cost: its length.
pub fn is_rev_id(id: &str) -> bool
    ensures { result ≡ is_revision_id id.now }
{
    !id.is_empty() && are_id_bytes(id.as_bytes())
}

// Whether all bytes are characters of an id.
fn are_id_bytes(bytes: &[u8]) -> bool
    ensures { result ≡ list_all is_id_byte bytes.now }
{
    bytes.iter().all(|byte| 33 <= *byte && *byte <= 126)
}

// Whether all bytes are decimal digits.
fn are_digits(bytes: &[u8]) -> bool
    ensures { result ≡ list_all is_ascii_digit bytes.now }
{
    bytes.iter().all(|byte| byte.is_ascii_digit())
}

// Reads a position: decimal digits with no leading zero. `None` for any other text, or if the number is above 4,294,967,295.
fn position(number: &str) -> Option<u32>
    ensures { result ≡ position_of number.now }
{
    let digits = number.as_bytes();
    if digits.is_empty() || digits[0] == b'0' || !are_digits(digits) {
        return None;
    }
    number.parse().ok()
}
