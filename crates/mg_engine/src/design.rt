//! Design documents of indexes.
ghost use Rattle.std.specs.Prelude.{◌≡◌, IfOk, Some, map, option_map};
ghost use Rattle.mg_value.specs.Value.{no_members, object};
ghost use Rattle.mg_value.specs.View.{members_view, view};
ghost use Rattle.mg_shard.specs.Dealt.{Placing};
ghost use Rattle.mg_engine.specs.Design.{columns_in, columns_value, def_value, design_answer, design_value, is_design, view_value, with_first, with_firsts, with_view, with_views};
ghost use Rattle.mg_engine.specs.Stands.{StateStandsFor};
ghost use Rattle.mg_engine.specs.View.{reply_view};
ghost use Rattle.mg_engine.specs.World.{World};

use crate::body::line;
use crate::refusal::Refusal;
use crate::reply::Reply;
use crate::state::State;
use mg_index::IndexDef;
use mg_value::{Json, NoMemory};
use std::alloc::Global;
use std::collections::BTreeMap;

impl State {
    /// Makes the reply that shows a design document. Errors: `NoMemory` if an allocation fails. Cost: the number of the indexes, and the size
    /// of those that are of it.
    pub(crate) fn design(&self, alloc: Global, ddoc: &str) -> Result<Reply, NoMemory>
        ensures { IfOk result
            (λ r. (place : Placing) (w : World) → StateStandsFor place self.now w
            → reply_view r ≡ Some (design_answer ddoc.now w.indexes)) }
    {
        let reply = design_reply(alloc, ddoc, self.catalog.list())?;
        Ok(reply)
    }
}

// Makes the reply that shows a design document of these indexes. Errors: `NoMemory` if an allocation fails.
fn design_reply(alloc: Global, ddoc: &str, definitions: &[IndexDef]) -> Result<Reply, NoMemory>
    ensures { IfOk result (λ r. reply_view r ≡ Some (design_answer ddoc.now definitions.now)) }
{
    if !is_design(ddoc, definitions) {
        return Ok(Reply::refusing(alloc, Refusal::Missing)?);
    }
    let design = design_json(alloc, ddoc, definitions)?;
    let body = line(alloc, &design)?;
    Ok(Reply::Full { status: 200, body })
}

// Whether an index is of this design document.
fn is_design(ddoc: &str, definitions: &[IndexDef]) -> bool
    ensures { result ≡ is_design ddoc.now definitions.now }
{
    for definition in definitions {
        if definition.ddoc() == ddoc {
            return true;
        }
    }
    false
}

// Makes a design document of these indexes. Errors: `NoMemory` if an allocation fails.
fn design_json(alloc: Global, ddoc: &str, definitions: &[IndexDef]) -> Result<Json, NoMemory>
    ensures { IfOk result (λ v. view v ≡ design_value ddoc.now definitions.now) }
{
    let mut design = Json::empty_object(alloc);
    design.insert(alloc, "_id", Json::Text(String::from_str(alloc, ddoc)?))?;
    design.insert(
        alloc,
        "language",
        Json::Text(String::from_str(alloc, "query")?),
    )?;
    design.insert(alloc, "views", views_json(alloc, ddoc, definitions)?)?;
    Ok(design)
}

// Makes the views of a design document. Errors: `NoMemory` if an allocation fails.
fn views_json(alloc: Global, ddoc: &str, definitions: &[IndexDef]) -> Result<Json, NoMemory>
    ensures { IfOk result (λ v. view v ≡ with_views ddoc.now definitions.now (object no_members)) }
{
    let mut views = Json::empty_object(alloc);
    for definition in definitions {
        views = with_view(alloc, ddoc, definition, views)?;
    }
    Ok(views)
}

// Adds the view of an index, if it is of this design document. Errors: `NoMemory` if an allocation fails.
fn with_view(
    alloc: Global,
    ddoc: &str,
    definition: &IndexDef,
    views: Json,
) -> Result<Json, NoMemory>
    ensures { IfOk result (λ v. view v ≡ with_view ddoc.now definition.now (view views)) }
{
    if definition.ddoc() == ddoc {
        let shown = view_json(alloc, definition)?;
        let mut views = views;
        views.insert(alloc, definition.name(), shown)?;
        Ok(views)
    } else {
        Ok(views)
    }
}

// Makes the view of an index. Errors: `NoMemory` if an allocation fails.
fn view_json(alloc: Global, definition: &IndexDef) -> Result<Json, NoMemory>
    ensures { IfOk result (λ v. view v ≡ view_value definition.now) }
{
    let mut mapped = Json::empty_object(alloc);
    mapped.insert(alloc, "fields", columns_json(alloc, definition)?)?;
    mapped.insert(alloc, "partial_filter_selector", Json::empty_object(alloc))?;
    let mut options = Json::empty_object(alloc);
    options.insert(alloc, "def", def_json(alloc, definition)?)?;
    let mut shown = Json::empty_object(alloc);
    shown.insert(alloc, "map", mapped)?;
    shown.insert(alloc, "options", options)?;
    shown.insert(
        alloc,
        "reduce",
        Json::Text(String::from_str(alloc, "_count")?),
    )?;
    Ok(shown)
}

// Makes the columns of an index as they are listed. Errors: `NoMemory` if an allocation fails.
fn def_json(alloc: Global, definition: &IndexDef) -> Result<Json, NoMemory>
    ensures { IfOk result (λ v. view v ≡ def_value definition.now) }
{
    let mut listed = definition.listed(alloc)?;
    match listed.take("def") {
        Some(def) => Ok(def),
        None => Ok(Json::Null),
    }
}

// Makes the columns of an index as one object. Errors: `NoMemory` if an allocation fails.
fn columns_json(alloc: Global, definition: &IndexDef) -> Result<Json, NoMemory>
    ensures { IfOk result (λ v. view v ≡ columns_value definition.now) }
{
    let mut def = def_json(alloc, definition)?;
    let columns = columns_in(alloc, def.take("fields"))?;
    Ok(columns)
}

// Makes listed columns one object. Errors: `NoMemory` if an allocation fails.
fn columns_in(alloc: Global, fields: Option<Json>) -> Result<Json, NoMemory>
    ensures { IfOk result (λ v. view v ≡ columns_in (option_map view fields)) }
{
    match fields {
        Some(fields) => {
            let columns = columns_of(alloc, fields)?;
            Ok(columns)
        }
        None => Ok(Json::empty_object(alloc)),
    }
}

// Makes the columns that a value lists one object. Errors: `NoMemory` if an allocation fails.
fn columns_of(alloc: Global, listed: Json) -> Result<Json, NoMemory>
    ensures { IfOk result (λ v. view v ≡ columns_in (Some (view listed))) }
{
    match listed {
        Json::List(values) => {
            let columns = with_firsts(alloc, values)?;
            Ok(columns)
        }
        _ => Ok(Json::empty_object(alloc)),
    }
}

// Makes an object with the first member of each of these values. Errors: `NoMemory` if an allocation fails.
fn with_firsts(alloc: Global, values: Vec<Json>) -> Result<Json, NoMemory>
    ensures { IfOk result (λ v. view v ≡ with_firsts (map view values.items) (object no_members)) }
{
    let mut merged = Json::empty_object(alloc);
    for value in values {
        let next = with_first(alloc, value, merged)?;
        merged = next;
    }
    Ok(merged)
}

// Adds the first member of a value, if it is an object. Errors: `NoMemory` if an allocation fails.
fn with_first(alloc: Global, value: Json, into: Json) -> Result<Json, NoMemory>
    ensures { IfOk result (λ v. view v ≡ with_first (view value) (view into)) }
{
    match value {
        Json::Object(members) => {
            let merged = with_first_of(alloc, members, into)?;
            Ok(merged)
        }
        _ => Ok(into),
    }
}

// Adds the first of these members. Errors: `NoMemory` if an allocation fails.
fn with_first_of(
    alloc: Global,
    members: BTreeMap<String, Json>,
    into: Json,
) -> Result<Json, NoMemory>
    ensures { IfOk result (λ v. view v ≡ with_first (object (members_view members.entries)) (view into)) }
{
    let mut members = members;
    match members.pop_first() {
        Some((name, value)) => {
            let mut into = into;
            into.insert(alloc, &name, value)?;
            Ok(into)
        }
        None => Ok(into),
    }
}
