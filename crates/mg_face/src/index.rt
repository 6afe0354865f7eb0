//! `/{db}/_index/{ddoc}/json/{name}` and `/{db}/_design/{name}`.
ghost use Rattle.std.specs.Prelude.{◌≡◌, map, IfOk};
ghost use Rattle.std.specs.Option.{option_map};
ghost use Rattle.std.specs.String.{string_bytes};
ghost use Rattle.mg_face.specs.Plan.{plan_view, index_of, drop_plan, drop_design_plan, design_of, read_design};

use crate::plan::{Plan, Way};
use crate::said::Said;
use crate::text::text_in;
use mg_engine::{Command, Question, Refusal};
use mg_value::NoMemory;
use std::alloc::Global;

/// Returns the command that drops an index: the design document's name is the prefix and `ddoc`.
///
/// Errors: out of memory.
fn index_of(
    alloc: Global,
    prefix: &str,
    ddoc: Option<String>,
    name: Option<String>,
) -> Result<Plan, NoMemory>
    ensures { IfOk result (λ p. plan_view p
        ≡ index_of prefix.now (option_map string_bytes ddoc) (option_map string_bytes name)) }
{
    let Some(ddoc) = ddoc else {
        return Ok(Plan::Says(Said::Refuses(Refusal::Missing)));
    };
    let Some(name) = name else {
        return Ok(Plan::Says(Said::Refuses(Refusal::Missing)));
    };
    let mut whole = String::from_str(alloc, prefix)?;
    whole.push_str(ddoc.as_str())?;
    Ok(Plan::Asks(Command::DropIndex { ddoc: whole, name }, Way::Plain))
}

/// Returns what `/{db}/_index/{ddoc}/json/{name}` asks to drop.
///
/// Errors: out of memory.
pub(crate) fn drop_plan(alloc: Global, segments: &[&[u8]]) -> Result<Plan, NoMemory>
    ensures { IfOk result (λ p. plan_view p ≡ drop_plan (map (λ s. s.now) segments.now)) }
{
    match segments {
        [_, _, ddoc, _, name] => {
            let ddoc = text_in(alloc, *ddoc)?;
            let name = text_in(alloc, *name)?;
            index_of(alloc, "", ddoc, name)
        }
        _ => Ok(Plan::Says(Said::Refuses(Refusal::Missing))),
    }
}

/// Returns what `/{db}/_index/_design/{ddoc}/json/{name}` asks to drop.
///
/// Errors: out of memory.
pub(crate) fn drop_design_plan(alloc: Global, segments: &[&[u8]]) -> Result<Plan, NoMemory>
    ensures { IfOk result (λ p. plan_view p ≡ drop_design_plan (map (λ s. s.now) segments.now)) }
{
    match segments {
        [_, _, _, ddoc, _, name] => {
            let ddoc = text_in(alloc, *ddoc)?;
            let name = text_in(alloc, *name)?;
            index_of(alloc, "_design/", ddoc, name)
        }
        _ => Ok(Plan::Says(Said::Refuses(Refusal::Missing))),
    }
}

/// Returns the question what a design document is.
///
/// Errors: out of memory.
fn design_of(alloc: Global, name: Option<String>) -> Result<Plan, NoMemory>
    ensures { IfOk result (λ p. plan_view p ≡ design_of (option_map string_bytes name)) }
{
    let Some(name) = name else {
        return Ok(Plan::Says(Said::Refuses(Refusal::Missing)));
    };
    let mut whole = String::from_str(alloc, "_design/")?;
    whole.push_str(name.as_str())?;
    Ok(Plan::Looks(Question::Design(whole), Way::Plain))
}

/// Returns what `/{db}/_design/{name}` asks to read.
///
/// Errors: out of memory.
pub(crate) fn read_design(alloc: Global, segments: &[&[u8]]) -> Result<Plan, NoMemory>
    ensures { IfOk result (λ p. plan_view p ≡ read_design (map (λ s. s.now) segments.now)) }
{
    match segments {
        [_, _, name] => {
            let name = text_in(alloc, *name)?;
            design_of(alloc, name)
        }
        _ => Ok(Plan::Says(Said::Refuses(Refusal::Missing))),
    }
}
