ghost use Rattle.std.specs.Prelude.{◌≡◌, Err, IfOk, None, Some, option_map, string_bytes, true};
ghost use Rattle.mg_value.specs.View.{view};
ghost use Rattle.mg_doc.specs.Document.{ReadsAs, edit_of, is_object, members_read};

mod apply;

use crate::ahead::{body_ahead, id_ahead};
use crate::change::Change;
use crate::error::DocError;
use crate::fault::gives_change;
use crate::members::{checked_mark, id_in, own_body};
use crate::revisions::change_asked;
pub use apply::{Look, ReadyEdit};
use mg_packed::{Kind, Object, Part};
use mg_revtree::Body;
use mg_value::NoMemory;
use std::alloc::Global;
use std::marker::Model;

/// What a document of a bulk asks for: a new revision (a new edit), or the acceptance of a path of revisions from a replica.
#[derive(Drop)]
pub struct Edit {
    id: Option<String>,
    change: Change,
    deleted: bool,
    body: Body,
    // the id of a new edit's revision, made before the tree is known: right if the edit extends the revision that it names, or makes the
    // first revision of its document; `None` for a replica's change
    ahead: Option<String>,
}

impl Model for Edit {
    ghost use Rattle.std.specs.Prelude.{◌≡◌, option_map, string_bytes};
    ghost use Rattle.mg_doc.specs.Code.{edit_code};
    ghost use Rattle.mg_doc.specs.Ahead.{ahead_of};
    ghost use Rattle.mg_doc.specs.Document.{Edit as EditValue};

    ghost Value = { EditValue };

    ghost coded = { edit_code };

    ghost view = { λ e. record {
      id = option_map string_bytes e.id;
      change = e.change;
      deleted = e.deleted;
      body = e.body;
    } };

    ghost invariant = { λ e. option_map string_bytes e.ahead ≡ ahead_of e.change e.deleted e.body };
}

impl Edit {
    /// Reads a document of a bulk; `document` must be an object. The body is copied as bytes into one block; that of a new edit that has an
    /// id and does not delete, into the block of the form in which the document is served if the edit makes its revision and wins.
    ///
    /// - `_id`: a text that is not empty and does not begin with an underscore. It may be absent.
    /// - `_rev`: the text `N-id` of a revision; `_revisions`: `{"start":N,"ids":[..]}`, a path, newest first. If both are there,
    ///   `_revisions` decides. A replica has to give one of them, which is its path. A new edit extends the revision in `_rev`, or the
    ///   newest one in `_revisions`; if both are absent, it names no revision.
    /// - `_deleted`: true or false; false if it is absent.
    /// - `_conflicts`, `_deleted_conflicts`, `_revs_info` and `_local_seq` are dropped.
    /// - The members whose names do not begin with an underscore are the body.
    ///
    /// Errors, the first fault in this order: `BadMember` for any other member that begins with an
    /// underscore, or for a bad `_deleted`; `BadId` for a bad `_id`; `BadRev` for a bad `_rev` or
    /// `_revisions`, or if a replica gives neither; `NoMemory` if an allocation fails and the document has no fault.
    /// Cost: the number of the members, and copies of the id, of the path and of the body's bytes; for a new edit also the length
    /// of its body's text, because the id of its revision is made here, and that of `Body::form`. Source: CouchDB's `_bulk_docs`.
    pub fn read_part(alloc: Global, document: Part<'_>, new_edit: bool) -> Result<Edit, DocError>
        requires { is_object document ≡ true }
        ensures edit { ReadsAs (edit_of new_edit document.entry) result }
        ensures refused { (e : DocError) → edit_of new_edit document.entry ≡ Err e → result ≡ Err e }
    {
        match document.kind() {
            Kind::Object(members) => edit_in(alloc, &members, new_edit),
            _ => Err(DocError::BadMember),
        }
    }

    /// Returns the id of the edit, if it has one. Takes no memory.
    pub fn id(&self) -> Option<&str>
        ensures { option_map (λ s. s.now) result ≡ self.now.id }
    {
        self.id.as_deref()
    }

    /// Sets the id of an edit that has none. Takes no memory.
    pub fn with_id(self, id: String) -> Edit
        requires { self.id ≡ None }
        ensures { result ≡ record self { id = Some (string_bytes id) } }
    {
        let Edit {
            id: _,
            change,
            deleted,
            body,
            ahead,
        } = self;
        Edit {
            id: Some(id),
            change,
            deleted,
            body,
            ahead,
        }
    }

    /// Copies the edit. Errors: `NoMemory` if an allocation fails. Cost: the lengths of the edit's id, path and body.
    pub fn copy(&self, alloc: Global) -> Result<Edit, NoMemory>
        ensures { IfOk result (λ edit. edit ≡ self.now) }
    {
        Ok(Edit {
            id: copy_id(alloc, self.id())?,
            change: self.change.copy(alloc)?,
            deleted: self.deleted,
            body: self.body.again(alloc)?,
            ahead: copy_id(alloc, self.ahead.as_deref())?,
        })
    }
}

// Copies the id, if there is one. Errors: `NoMemory` if an allocation fails.
fn copy_id(alloc: Global, id: Option<&str>) -> Result<Option<String>, NoMemory>
    ensures { IfOk result (λ copy. option_map string_bytes copy ≡ option_map (λ s. s.now) id.entry) }
{
    match id {
        Some(id) => Ok(Some(String::from_str(alloc, id)?)),
        None => Ok(None),
    }
}

// Reads the edit that a document with these members asks for. Errors: those of `Edit::read_part`.
fn edit_in(alloc: Global, members: &Object<'_>, new_edit: bool) -> Result<Edit, DocError>
    ensures edit { ReadsAs (members_read new_edit members.now) result }
    ensures refused { (e : DocError) → members_read new_edit members.now ≡ Err e → result ≡ Err e }
{
    let deleted = checked_mark(members)?;
    let Some(id) = id_in(members) else {
        return Err(DocError::BadId);
    };
    if !gives_change(alloc, members, new_edit) {
        return Err(DocError::BadRev);
    }
    let id = copy_id(alloc, id)?;
    let change = change_asked(alloc, members, new_edit)?;
    let body = own_body(alloc, members)?;
    let ahead = id_ahead(alloc, &change, deleted, &body)?;
    let body = body_ahead(
        alloc,
        id.as_deref(),
        &change,
        deleted,
        ahead.as_deref(),
        body,
    )?;
    Ok(Edit {
        id,
        change,
        deleted,
        body,
        ahead,
    })
}
