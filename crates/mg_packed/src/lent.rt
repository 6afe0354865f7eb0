// Implements `LentValue` for parts, so that code which is generic over lent values works on parts.
use crate::array::Array;
use crate::kind::Kind;
use crate::object::Object;
use crate::part::Part;
use mg_value::{Json, LentValue, NoMemory};
use std::alloc::Global;

impl<'a> LentValue for Part<'a> {
    ghost use Rattle.mg_packed.specs.Walk.{members_past};

    type Text = &'a str;

    type List = Array<'a>;

    type Object = Object<'a>;

    // The object, and how many of its members the walk has passed.
    type Rest = (Object<'a>, usize);

    ghost value = { λ v. v };

    ghost bytes = { λ s. s.now };

    ghost items = { λ vs. vs };

    ghost members = { λ ms. ms };

    ghost rest = { λ walk. members_past walk.1 walk.0 };

    #[inline(always)]
    fn lend(&self) -> Part<'a> {
        self.lend()
    }

    fn to_json(&self, alloc: Global) -> Result<Json, NoMemory> {
        self.to_json(alloc)
    }

    #[inline(always)]
    fn kind(&self) -> Kind<'a> {
        self.kind()
    }

    #[inline(always)]
    fn as_str<'t>(text: &'t &'a str) -> &'t str {
        *text
    }

    #[inline(always)]
    fn len(list: &Array<'a>) -> usize {
        list.len()
    }

    #[inline(always)]
    fn item(list: &Array<'a>, index: usize) -> Part<'a> {
        list.item(index)
    }

    #[inline(always)]
    fn member(object: &Object<'a>, name: &str) -> Option<Part<'a>> {
        object.get(name)
    }

    #[inline(always)]
    fn walk(object: &Object<'a>) -> (Object<'a>, usize) {
        (object.lend(), 0)
    }

    #[inline(always)]
    fn ascends(object: &Object<'a>) {
        let _ = object.len();
    }

    #[inline(always)]
    fn next(walk: &mut (Object<'a>, usize)) -> Option<(&'a str, Part<'a>)> {
        let index = walk.1;
        if index >= walk.0.len() {
            return None;
        }
        walk.1 = index + 1;
        Some((walk.0.name(index), walk.0.value(index)))
    }
}
