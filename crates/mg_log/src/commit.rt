ghost use Rattle.std.specs.Prelude.{◌≡◌, IfSome};
ghost use Rattle.sqlite_value.specs.declared.value.Value.TheVariants.{Text};
ghost use Rattle.sqlite_value.specs.Value.{owned};
ghost use Rattle.mg_log.specs.Entry.{kind_name};

use sqlite::types::ValueRef;
use sqlite_value::order::is_same;

/// What a commit did.
#[derive(Clone, Copy, PartialEq, Eq, Debug)]
pub enum Kind {
    /// It applied a bulk of edits.
    Bulk,
    /// It created an index.
    CreateIndex,
    /// It dropped an index.
    DropIndex,
    /// It changed the number of shards.
    Reshard,
}

impl Kind {
    /// Returns the kind as the file spells it: `bulk`, `create_index`, `drop_index` or `reshard`. Takes no memory.
    pub fn name(self) -> &'static str
        ensures { result.now ≡ kind_name self }
    {
        match self {
            Kind::Bulk => "bulk",
            Kind::CreateIndex => "create_index",
            Kind::DropIndex => "drop_index",
            Kind::Reshard => "reshard",
        }
    }

    // Finds the kind that a column spells.
    pub(crate) fn of(value: ValueRef<'_>) -> Option<Kind>
        ensures { IfSome result (λ kind. owned value.entry ≡ Text (kind_name kind)) }
    {
        if is_same(value, ValueRef::Text(b"bulk")) {
            return Some(Kind::Bulk);
        }
        if is_same(value, ValueRef::Text(b"create_index")) {
            return Some(Kind::CreateIndex);
        }
        if is_same(value, ValueRef::Text(b"drop_index")) {
            return Some(Kind::DropIndex);
        }
        if is_same(value, ValueRef::Text(b"reshard")) {
            return Some(Kind::Reshard);
        }
        None
    }
}

/// A commit: its kind, and the body of its command as compact JSON text. The log keeps any text, and does not read it.
#[derive(Debug, Drop)]
pub struct Commit {
    pub kind: Kind,
    pub body: String,
}
