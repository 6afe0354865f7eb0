//! The fields of a response, each of which can be sent.
ghost use Rattle.std.specs.Prelude.{◌≡◌, ◌≤◌, true, length};
ghost use Rattle.mg_wire.specs.Sendable.{are_addable, lines_len, parts_of};

use crate::request::Field;
use crate::sendable::{is_addable, line_len};
use bytes::Bytes;
use std::alloc::Global;

/// A response has at most so many fields.
pub const MAX_RESPONSE_FIELDS: usize = 16;

/// The lines of a response's fields take at most so many bytes.
pub const MAX_LINES_LEN: usize = 7680;

/// Why a field is not added.
#[derive(Clone, Copy, Debug, PartialEq, Eq)]
pub enum FieldError {
    /// The name is no token, the value has a control byte or a blank at an end, or the field is one that the connection
    /// writes: `Content-Length`, `Transfer-Encoding`, or `Date`, which is a part of the response.
    Invalid,
    /// There are as many fields, or as many bytes of them, as there may be.
    Full,
    /// There was no memory for it.
    NoMemory,
}

/// The fields of a response beside its date. They can always be sent.
#[derive(Debug, Drop)]
pub struct Fields {
    pub(crate) list: Vec<Field>,
    /// The bytes that their lines take.
    pub(crate) len: usize,
    ghost addable: { are_addable (parts_of list.items) ≡ true },
    ghost counted: { len ≡ lines_len (parts_of list.items) },
    ghost few: { length list.items ≤ 16 },
    ghost short: { len ≤ 7680 },
}

impl Fields {
    ghost use Rattle.std.specs.Prelude.{[], ◌∷◌, ◌++◌, OnOk, OnErr, IfErr};
    ghost use Rattle.mg_wire.specs.Response.{listed, IsReasonFor};

    /// No field. Allocates nothing.
    pub fn new(alloc: Global) -> Fields
        ensures { listed result ≡ [] }
    {
        Fields {
            list: Vec::new(alloc),
            len: 0,
        }
    }

    /// Adds a field after the others. Copies neither the name nor the value.
    ///
    /// Errors: the reasons of `FieldError`; then the fields are as they were.
    pub fn add(&mut self, name: &'static [u8], value: Bytes) -> Result<(), FieldError>
        ensures ok { OnOk result (listed self.new ≡ listed self.old ++ (name.now, value) ∷ []) }
        ensures err { OnErr result (listed self.new ≡ listed self.old) }
        ensures reason { IfErr result (IsReasonFor (listed self.old) (name.now, value)) }
    {
        if !is_addable(name, value.as_slice()) {
            return Err(FieldError::Invalid);
        }
        let len = line_len(name, value.as_slice());
        if self.list.len() == MAX_RESPONSE_FIELDS || len > MAX_LINES_LEN - self.len {
            return Err(FieldError::Full);
        }
        let name = Bytes::from_static(name);
        match self.list.push(Field { name, value }) {
            Ok(()) => {
                self.len += len;
                Ok(())
            }
            Err(_) => Err(FieldError::NoMemory),
        }
    }
}
