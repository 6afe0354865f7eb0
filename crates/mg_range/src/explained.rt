// The range in JSON, as `_explain` shows it.
ghost use Rattle.std.specs.Prelude.{◌≡◌, IfOk, None, Some, map, option_map};
ghost use Rattle.mg_value.specs.Value.{list};
ghost use Rattle.mg_value.specs.View.{view, items_view, items_of};
ghost use Rattle.mg_range.specs.Explained.{limit_value, range_value};
ghost use Rattle.mg_range.specs.View.{limit_view, span_view};

use crate::span::{Limit, Span};
use mg_value::{Json, NoMemory, copy_items};
use std::alloc::Global;

// Makes the JSON of an empty range: `{"empty":true}`. Errors: `NoMemory` if an allocation fails.
pub(crate) fn empty_json(alloc: Global) -> Result<Json, NoMemory>
    ensures { IfOk result (λ v. view v ≡ range_value None) }
{
    let mut object = Json::empty_object(alloc);
    object.insert(alloc, "empty", Json::Flag(true))?;
    Ok(object)
}

// Makes the JSON of a span: `{"equal":[..],"lower":..,"upper":..}`. Errors: `NoMemory` if an allocation fails.
pub(crate) fn span_json(alloc: Global, span: &Span) -> Result<Json, NoMemory>
    ensures { IfOk result (λ v. view v ≡ range_value (Some (span_view span.now))) }
{
    let equal = Json::List(copy_items(alloc, &span.equal)?);
    let lower = limit_json(alloc, span.lower.as_ref())?;
    let upper = limit_json(alloc, span.upper.as_ref())?;
    let mut object = Json::empty_object(alloc);
    object.insert(alloc, "upper", upper)?;
    object.insert(alloc, "lower", lower)?;
    object.insert(alloc, "equal", equal)?;
    Ok(object)
}

fn limit_json(alloc: Global, limit: Option<&Limit>) -> Result<Json, NoMemory>
    ensures { IfOk result
        (λ v. view v ≡ limit_value (option_map (λ l. limit_view l.now) limit.entry)) }
{
    let Some(limit) = limit else {
        return Ok(Json::Null);
    };
    let value = limit.value.copy(alloc)?;
    let mut object = Json::empty_object(alloc);
    object.insert(alloc, "value", value)?;
    object.insert(alloc, "inclusive", Json::Flag(limit.inclusive))?;
    Ok(object)
}
