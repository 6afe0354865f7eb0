ghost use Rattle.std.specs.Prelude.{◌≡◌, IfOk, map, string_bytes};
ghost use Rattle.mg_value.specs.View.{view, items_view, members_view};

use crate::error::NoMemory;
use crate::value::Json;
use std::alloc::Global;
use std::collections::BTreeMap;

// Does the work of `Json::copy`.
#[cycle(copy_value)]
pub(crate) fn copy_value(alloc: Global, value: &Json) -> Result<Json, NoMemory>
    ensures { IfOk result (λ v. view v ≡ view value.now) }
{
    match value {
        Json::Null => Ok(Json::Null),
        Json::Flag(flag) => Ok(Json::Flag(*flag)),
        Json::Whole(number) => Ok(Json::Whole(*number)),
        Json::Text(text) => Ok(Json::Text(text.clone()?)),
        Json::List(items) => Ok(Json::List(copy_items(alloc, items)?)),
        Json::Object(members) => Ok(Json::Object(copy_members(alloc, members)?)),
    }
}

/// Copies the values, deeply, into a new list.
///
/// Errors: `NoMemory` if an allocation fails. Cost: that of `Json::copy` for each value.
#[cycle(copy_value)]
pub fn copy_items(alloc: Global, items: &[Json]) -> Result<Vec<Json>, NoMemory>
    ensures { IfOk result (λ v. items_view v.items ≡ items_view items.now) }
{
    let mut copies = Vec::with_capacity(alloc, items.len())?;
    for item in items {
        copies.push(copy_value(alloc, item)?)?;
    }
    Ok(copies)
}

#[cycle(copy_value)]
fn copy_members(
    alloc: Global,
    members: &BTreeMap<String, Json>,
) -> Result<BTreeMap<String, Json>, NoMemory>
    ensures { IfOk result (λ m. members_view m.entries ≡ members_view members.now.entries) }
{
    let mut copies = BTreeMap::new(alloc);
    for (name, member) in members.iter() {
        let copied_name = name.clone()?;
        drop(copies.insert(copied_name, copy_value(alloc, member)?)?);
    }
    Ok(copies)
}

/// Copies the texts into a new list.
///
/// Errors: `NoMemory` if an allocation fails. Cost: the length of the texts.
pub fn copy_texts(alloc: Global, texts: &[String]) -> Result<Vec<String>, NoMemory>
    ensures { IfOk result (λ copies. map string_bytes copies.items ≡ map string_bytes texts.now) }
{
    let mut copies = Vec::with_capacity(alloc, texts.len())?;
    for text in texts {
        copies.push(text.clone()?)?;
    }
    Ok(copies)
}
