ghost use Rattle.std.specs.Prelude.{◌≡◌, Ok, Err};
ghost use Rattle.mg_value.specs.View.{view, items_view, members_view};
ghost use Rattle.mg_selector.specs.Reading.{ReadsAs, IsObject, reading, of_object, of_arms, of_items, of_members, by_kind, named, path_named, argument};
ghost use Rattle.mg_selector.specs.Selector.{asks, equal};
ghost use Rattle.mg_selector.specs.View.{selector_of, arms_view};

use crate::argument::read_operator;
use crate::error::SelError;
use crate::name_kind::{NameKind, kind_of_name};
use crate::operator::Op;
use crate::selector::Sel;
use mg_path::Path;
use mg_value::Json;
use std::alloc::Global;
use std::collections::BTreeMap;

// Reads the selector that the value spells. Errors: those of `Sel::read`, except that a failed allocation gives
// `NoMemory` even if the value has a fault.
pub(crate) fn read(alloc: Global, value: &Json) -> Result<Sel, SelError>
    ensures reading { ReadsAs selector_of result (reading (view value.now)) }
    ensures shape { ¬ IsObject (view value.now) → result ≡ Err SelError.Shape }
{
    match value {
        Json::Object(members) => Ok(Sel::Members(read_members(alloc, members)?)),
        _ => Err(SelError::Shape),
    }
}

#[cycle(reading)]
fn read_object(alloc: Global, value: &Json) -> Result<Sel, SelError>
    ensures { ReadsAs selector_of result (of_object (view value.now)) }
{
    match value {
        Json::Object(members) => Ok(Sel::Members(read_members(alloc, members)?)),
        _ => Err(SelError::BadArg),
    }
}

#[cycle(reading)]
fn read_arms(alloc: Global, value: &Json) -> Result<Vec<Sel>, SelError>
    ensures { ReadsAs (λ v. arms_view v.items) result (of_arms (view value.now)) }
{
    match value {
        Json::List(items) => read_items(alloc, items),
        _ => Err(SelError::BadArg),
    }
}

#[cycle(reading)]
fn read_items(alloc: Global, items: &[Json]) -> Result<Vec<Sel>, SelError>
    ensures { ReadsAs (λ v. arms_view v.items) result (of_items (items_view items.now)) }
{
    let mut found = Vec::with_capacity(alloc, items.len())?;
    for item in items {
        let arm = read_object(alloc, item)?;
        found.push(arm)?;
    }
    Ok(found)
}

#[cycle(reading)]
fn read_members(alloc: Global, members: &BTreeMap<String, Json>) -> Result<Vec<Sel>, SelError>
    ensures { ReadsAs (λ v. arms_view v.items) result (of_members (members_view members.now.entries)) }
{
    let mut found = Vec::with_capacity(alloc, members.len())?;
    for (name, value) in members.iter() {
        let arm = read_member(alloc, name.as_str(), value)?;
        found.push(arm)?;
    }
    Ok(found)
}

#[cycle(reading)]
fn read_member(alloc: Global, name: &str, value: &Json) -> Result<Sel, SelError>
    ensures { ReadsAs selector_of result
        (named name.now (view value.now) (of_object (view value.now)) (of_arms (view value.now))) }
{
    read_by_kind(alloc, kind_of_name(name), name, value)
}

#[cycle(reading)]
fn read_by_kind(alloc: Global, kind: NameKind, name: &str, value: &Json) -> Result<Sel, SelError>
    ensures { ReadsAs selector_of result (by_kind kind name.now
        (view value.now) (of_object (view value.now)) (of_arms (view value.now))) }
{
    match kind {
        NameKind::And => Ok(Sel::And(read_arms(alloc, value)?)),
        NameKind::Or => Ok(Sel::Or(read_arms(alloc, value)?)),
        NameKind::Nor => Ok(Sel::Nor(read_arms(alloc, value)?)),
        NameKind::Not => Ok(Sel::Not(read_inner(alloc, value)?)),
        NameKind::ElemMatch => Ok(Sel::Ask(Op::ElemMatch(read_inner(alloc, value)?))),
        NameKind::AllMatch => Ok(Sel::Ask(Op::AllMatch(read_inner(alloc, value)?))),
        NameKind::Value(operator) => Ok(Sel::Ask(read_operator(alloc, operator, value)?)),
        NameKind::Unknown => Err(SelError::InvalidOperator),
        NameKind::Path => read_path(alloc, name, value),
    }
}

#[cycle(reading)]
fn read_inner(alloc: Global, value: &Json) -> Result<Box<Sel>, SelError>
    ensures { ReadsAs (λ b. selector_of b.value) result (of_object (view value.now)) }
{
    Ok(Box::new(alloc, read_object(alloc, value)?)?)
}

// The path is read before its argument, so a fault of the path comes first.
#[cycle(reading)]
fn read_path(alloc: Global, name: &str, value: &Json) -> Result<Sel, SelError>
    ensures { ReadsAs selector_of result (path_named name.now (view value.now) (of_object (view value.now))) }
{
    let path = Path::parse(alloc, name)?;
    Ok(Sel::At(path, Box::new(alloc, read_argument(alloc, value)?)?))
}

#[cycle(reading)]
fn read_argument(alloc: Global, value: &Json) -> Result<Sel, SelError>
    ensures { ReadsAs selector_of result (argument (view value.now) (of_object (view value.now))) }
{
    match value {
        Json::Object(members) => if members.is_empty() {
            equal_to(alloc, value)
        } else {
            read_object(alloc, value)
        },
        _ => equal_to(alloc, value),
    }
}

fn equal_to(alloc: Global, value: &Json) -> Result<Sel, SelError>
    ensures { ReadsAs selector_of result (Ok (asks (equal (view value.now)))) }
{
    Ok(Sel::Ask(Op::Eq(value.copy(alloc)?)))
}
