ghost use Rattle.std.specs.Prelude.{◌≡◌, ◌<◌, Some, length, option_map, slice_get};

use crate::error::NoMemory;
use crate::kind::Kind;
use crate::value::Json;
use std::alloc::Global;
use std::collections::{BTreeMap, btree_map};

/// A borrowed JSON value, read in place from a tree of `Json` or from a block of memory.
/// Code that is generic over it serves every way to keep values.
///
/// Only `to_json` takes memory. Cost: `member` and `to_json` state theirs; that of `next` is constant on average, and
/// all others are constant. Items and members are reached through what `kind` returns, so that a caller checks the
/// kind once.
pub trait LentValue: Sized + Drop {
    ghost use Rattle.std.specs.Prelude.{◌≡◌, ◌<◌, ℕ, List, Some, IfOk, MatchOption, length, option_map, slice_get};
    ghost use Rattle.mg_value.specs.Value.{Value, Items, Members, no_members, member, item_list, get_member};
    ghost use Rattle.mg_value.specs.Held.{NamesAscend};
    ghost use Rattle.mg_value.specs.Kind.{kind_value};
    ghost use Rattle.mg_value.specs.View.{view};

    /// A text.
    type Text: Drop;
    /// The items of an array.
    type List: Drop;
    /// The members of an object.
    type Object: Drop;
    /// The members that a walk has not reached yet.
    type Rest: Drop;

    // the value that it stands for
    ghost value: { Self → Value };

    // the bytes of a text
    ghost bytes: { Self.Text → List ℕ };

    // the items of an array
    ghost items: { Self.List → Items };

    // the members of an object
    ghost members: { Self.Object → Members };

    // the members that a walk has not reached yet
    ghost rest: { Self.Rest → Members };

    /// Borrows the value again.
    fn lend(&self) -> Self
        ensures { value result ≡ value self.now };

    /// Copies the value into a `Json` that owns its memory.
    ///
    /// Errors: `NoMemory` if an allocation fails. Cost: that of `Json::copy`.
    fn to_json(&self, alloc: Global) -> Result<Json, NoMemory>
        ensures { IfOk result (λ copy. view copy ≡ value self.now) };

    /// Returns the kind of the value, with its text, items or members.
    fn kind(&self) -> Kind<Self::Text, Self::List, Self::Object>
        ensures { kind_value bytes items members result ≡ value self.now };

    /// Lends the text as a `str`.
    fn as_str(text: &Self::Text) -> &str
        ensures { result.now ≡ bytes text.now };

    /// Returns the number of items.
    fn len(list: &Self::List) -> usize
        ensures { result ≡ length (item_list (items list.now)) };

    /// Returns the item at an index, from 0. The index must be below `len`.
    fn item(list: &Self::List, index: usize) -> Self
        requires { index < length (item_list (items list.now)) }
        ensures { slice_get (item_list (items list.now)) index ≡ Some (value result) };

    /// Returns the value of the member with this name; `None` if there is no such member. Cost: the logarithm of
    /// the count of members.
    fn member(object: &Self::Object, name: &str) -> Option<Self>
        ensures { option_map value result ≡ get_member name.now (members object.now) };

    /// Starts a walk over the members, in the order of their names.
    fn walk(object: &Self::Object) -> Self::Rest
        ensures { rest result ≡ members object.now };

    /// Does nothing when it runs. Its contract states that the names of an object's members ascend.
    fn ascends(object: &Self::Object)
        ensures { NamesAscend (members object.now) };

    /// Returns the name and the value of the next member of a walk, and goes past it; `None` at the end of the walk.
    fn next(walk: &mut Self::Rest) -> Option<(Self::Text, Self)>
        ensures { MatchOption result (rest walk.old ≡ no_members)
            (λ m. rest walk.old ≡ member (bytes m.0) (value m.1) (rest walk.new)) };
}

/// Borrows the value again, if there is one. Cost: constant.
#[inline(always)]
pub fn lend_part<L: LentValue>(part: &Option<L>) -> Option<L>
    ensures { option_map L.value result ≡ option_map L.value part.now }
{
    match part {
        Some(value) => Some(value.lend()),
        None => None,
    }
}

impl<'a> LentValue for &'a Json {
    ghost use Rattle.mg_value.specs.View.{view, items_view, members_view};

    type Text = &'a str;

    type List = &'a [Json];

    type Object = &'a BTreeMap<String, Json>;

    type Rest = btree_map::Iter<'a, String, Json>;

    ghost value = { λ v. view v.now };

    ghost bytes = { λ s. s.now };

    ghost items = { λ vs. items_view vs.now };

    ghost members = { λ ms. members_view ms.now.entries };

    ghost rest = { λ ms. members_view ms };

    #[inline(always)]
    fn lend(&self) -> &'a Json {
        *self
    }

    fn to_json(&self, alloc: Global) -> Result<Json, NoMemory> {
        let value: &Json = *self;
        value.copy(alloc)
    }

    #[inline(always)]
    fn kind(&self) -> Kind<&'a str, &'a [Json], &'a BTreeMap<String, Json>> {
        match *self {
            Json::Null => Kind::Null,
            Json::Flag(flag) => Kind::Flag(*flag),
            Json::Whole(number) => Kind::Whole(*number),
            Json::Text(text) => Kind::Text(text.as_str()),
            Json::List(items) => Kind::List(items.as_slice()),
            Json::Object(members) => Kind::Object(members),
        }
    }

    #[inline(always)]
    fn as_str<'t>(text: &'t &'a str) -> &'t str {
        *text
    }

    #[inline(always)]
    fn len(list: &&'a [Json]) -> usize {
        list.len()
    }

    #[inline(always)]
    fn item(list: &&'a [Json], index: usize) -> &'a Json {
        item_in(*list, index)
    }

    #[inline(always)]
    fn member(object: &&'a BTreeMap<String, Json>, name: &str) -> Option<&'a Json> {
        let members = *object;
        members.get(name)
    }

    #[inline(always)]
    fn walk(object: &&'a BTreeMap<String, Json>) -> btree_map::Iter<'a, String, Json> {
        let members = *object;
        members.iter()
    }

    #[inline(always)]
    fn ascends(object: &&'a BTreeMap<String, Json>) {
        let members = *object;
        let _ = members.iter();
    }

    #[inline(always)]
    fn next(walk: &mut btree_map::Iter<'a, String, Json>) -> Option<(&'a str, &'a Json)> {
        match walk.next() {
            Some((name, value)) => Some((name.as_str(), value)),
            None => None,
        }
    }
}

#[inline(always)]
fn item_in<'a>(items: &'a [Json], index: usize) -> &'a Json
    requires { index < length items.now }
    ensures { slice_get items.now index ≡ Some result.now }
{
    &items[index]
}
