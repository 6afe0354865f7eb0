ghost use Rattle.std.specs.Prelude.{◌≡◌, IfOk, OnOk, OnErr, option_map};
ghost use Rattle.mg_value.specs.Value.{object, no_members, get_member, member_of, with_member, without_member};
ghost use Rattle.mg_value.specs.View.{view, members_view};

use crate::copy;
use crate::error::NoMemory;
use std::alloc::Global;
use std::collections::BTreeMap;
use std::mem::replace;

/// A JSON value (RFC 8259) whose numbers are whole: what documents, selectors and replies are made of.
///
/// Every number is an `i64`. Texts and names are UTF-8. An object has each name once. Its members are ordered
/// by the code points of their names, whatever the order in which they were inserted.
#[derive(PartialEq, Debug, Drop)]
pub enum Json {
    /// `null`.
    Null,
    /// `true` or `false`.
    Flag(bool),
    /// A number from -9,223,372,036,854,775,808 to 9,223,372,036,854,775,807.
    Whole(i64),
    /// A string.
    Text(String),
    /// An array.
    List(Vec<Json>),
    /// An object.
    Object(BTreeMap<String, Json>),
}

impl Json {
    /// Makes the object without members. Takes no memory.
    pub fn empty_object(alloc: Global) -> Json
        ensures { view result ≡ object no_members }
    {
        Json::Object(BTreeMap::new(alloc))
    }

    /// Copies the value deeply: the copy shares no memory with it.
    ///
    /// Errors: `NoMemory` if an allocation fails.
    /// Cost: the size of the value, and for each object its members times the logarithm of their count.
    pub fn copy(&self, alloc: Global) -> Result<Json, NoMemory>
        ensures { IfOk result (λ v. view v ≡ view self.now) }
    {
        copy::copy_value(alloc, self)
    }

    /// Borrows the value of an object's member with this name; `None` if the object has no such
    /// member, or `self` is not an object. Cost: the logarithm of the count of members.
    pub fn member(&self, name: &str) -> Option<&Json>
        ensures { option_map (λ v. view v.now) result ≡ member_of name.now (view self.now) }
    {
        match self {
            Json::Object(members) => lookup(members, name),
            _ => None,
        }
    }

    /// Removes the member with this name from an object, and returns its value without a copy. Returns
    /// `None` if `member` finds no such member; then `self` is as it was. Cost: that of `member`.
    pub fn take(&mut self, name: &str) -> Option<Json>
        ensures taken { option_map view result ≡ member_of name.now (view self.old) }
        ensures rest { view self.new ≡ without_member name.now (view self.old) }
    {
        match replace(self, Json::Null) {
            Json::Object(mut members) => {
                let found = members.remove(name);
                *self = Json::Object(members);
                found
            }
            other => {
                *self = other;
                None
            }
        }
    }

    /// Puts a member with this name and value into an object, and replaces a member that has this name.
    /// If `self` is not an object, it stays as it is, and `value` is dropped.
    ///
    /// Errors: `NoMemory` if an allocation fails; then `self` is as it was, and `value` is dropped.
    /// Cost: the length of the name, and the logarithm of the count of members.
    pub fn insert(&mut self, alloc: Global, name: &str, value: Json) -> Result<(), NoMemory>
        ensures ok { OnOk result
            (view self.new ≡ with_member name.now (view value) (view self.old)) }
        ensures err { OnErr result (view self.new ≡ view self.old) }
    {
        let key = String::from_str(alloc, name)?;
        match replace(self, Json::Null) {
            Json::Object(mut members) => {
                let inserted = members.insert(key, value);
                *self = Json::Object(members);
                drop(inserted?);
            }
            other => *self = other,
        }
        Ok(())
    }
}

fn lookup<'v>(members: &'v BTreeMap<String, Json>, name: &str) -> Option<&'v Json>
    ensures { option_map (λ v. view v.now) result
        ≡ get_member name.now (members_view members.now.entries) }
{
    members.get(name)
}
