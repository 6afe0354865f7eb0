ghost use Rattle.std.specs.Prelude.{◌≡◌};
ghost use Rattle.std.specs.Result.{result_err};
ghost use Rattle.mg_value.specs.View.{view, items_view, members_view};
ghost use Rattle.mg_selector.specs.Argument.{array_of, operator_with};
ghost use Rattle.mg_selector.specs.Reading.{reading, of_object, of_arms, of_items, of_members, by_kind, named, path_named, argument};

use crate::argument::{read_exists, read_mod, read_size, read_type};
use crate::error::SelError;
use crate::name_kind::{NameKind, ValueOperator, kind_of_name};
use mg_path::is_path;
use mg_value::Json;
use std::collections::BTreeMap;

/// Finds the error that `Sel::read` returns for the value if memory suffices; `None` if the value is a selector.
/// Takes no memory. Cost: the size of the value.
pub fn fault_of(value: &Json) -> Option<SelError>
    ensures { result ≡ result_err (reading (view value.now)) }
{
    match value {
        Json::Object(members) => members_fault(members),
        _ => Some(SelError::Shape),
    }
}

#[cycle(faults)]
fn object_fault(value: &Json) -> Option<SelError>
    ensures { result ≡ result_err (of_object (view value.now)) }
{
    match value {
        Json::Object(members) => members_fault(members),
        _ => Some(SelError::BadArg),
    }
}

#[cycle(faults)]
fn arms_fault(value: &Json) -> Option<SelError>
    ensures { result ≡ result_err (of_arms (view value.now)) }
{
    match value {
        Json::List(items) => items_fault(items),
        _ => Some(SelError::BadArg),
    }
}

#[cycle(faults)]
fn items_fault(items: &[Json]) -> Option<SelError>
    ensures { result ≡ result_err (of_items (items_view items.now)) }
{
    for item in items {
        let fault = object_fault(item);
        if fault.is_some() {
            return fault;
        }
    }
    None
}

#[cycle(faults)]
fn members_fault(members: &BTreeMap<String, Json>) -> Option<SelError>
    ensures { result ≡ result_err (of_members (members_view members.now.entries)) }
{
    for (name, value) in members.iter() {
        let fault = member_fault(name.as_str(), value);
        if fault.is_some() {
            return fault;
        }
    }
    None
}

#[cycle(faults)]
fn member_fault(name: &str, value: &Json) -> Option<SelError>
    ensures { result ≡ result_err
        (named name.now (view value.now) (of_object (view value.now)) (of_arms (view value.now))) }
{
    fault_by_kind(kind_of_name(name), name, value)
}

#[cycle(faults)]
fn fault_by_kind(kind: NameKind, name: &str, value: &Json) -> Option<SelError>
    ensures { result ≡ result_err (by_kind kind name.now
        (view value.now) (of_object (view value.now)) (of_arms (view value.now))) }
{
    match kind {
        NameKind::And => arms_fault(value),
        NameKind::Or => arms_fault(value),
        NameKind::Nor => arms_fault(value),
        NameKind::Not => object_fault(value),
        NameKind::ElemMatch => object_fault(value),
        NameKind::AllMatch => object_fault(value),
        NameKind::Value(operator) => operator_fault(operator, value),
        NameKind::Unknown => Some(SelError::InvalidOperator),
        NameKind::Path => path_fault(name, value),
    }
}

// A fault of the path comes before a fault of its argument.
#[cycle(faults)]
fn path_fault(name: &str, value: &Json) -> Option<SelError>
    ensures { result ≡ result_err (path_named name.now (view value.now) (of_object (view value.now))) }
{
    if is_path(name) {
        argument_fault(value)
    } else {
        Some(SelError::BadArg)
    }
}

#[cycle(faults)]
fn argument_fault(value: &Json) -> Option<SelError>
    ensures { result ≡ result_err (argument (view value.now) (of_object (view value.now))) }
{
    match value {
        Json::Object(members) => if members.is_empty() {
            None
        } else {
            object_fault(value)
        },
        _ => None,
    }
}

fn operator_fault(operator: ValueOperator, value: &Json) -> Option<SelError>
    ensures { result ≡ result_err (operator_with operator (view value.now)) }
{
    match operator {
        ValueOperator::Exists => read_exists(value).err(),
        ValueOperator::Type => read_type(value).err(),
        ValueOperator::Size => read_size(value).err(),
        ValueOperator::Mod => read_mod(value).err(),
        ValueOperator::In => array_fault(value),
        ValueOperator::Nin => array_fault(value),
        ValueOperator::All => array_fault(value),
        _ => None,
    }
}

fn array_fault(value: &Json) -> Option<SelError>
    ensures { result ≡ result_err (array_of (view value.now)) }
{
    match value {
        Json::List(_) => None,
        _ => Some(SelError::BadArg),
    }
}
