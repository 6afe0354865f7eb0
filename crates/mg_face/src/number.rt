//! Values of parsed data, and numbers whose value is whole.
ghost use Rattle.std.specs.Prelude.{◌≡◌, ◌<◌, ◌==◌, false, true, length, slice_index, IsTrue, IfOk, option_map, option_and_then};
ghost use Rattle.serde_json.specs.Read.{number_from, float_of};
ghost use Rattle.serde_json.specs.View.{view as data_view, items_view as data_items_view, members_view as data_members_view, number_view};
ghost use Rattle.mg_value.specs.View.{view, items_view, members_view};
ghost use Rattle.mg_face.specs.Numbers.{whole_float, whole_number, whole_in, value_of, value_items, value_members};

use fast_float::Numeral;
use mg_value::{Json, NoMemory, ReadError};
use serde_json::{Map, Number, Value};
use std::alloc::Global;
use std::collections::BTreeMap;
use std::num::{nearest_i64_to_f64, saturating_f64_to_i64};

/// Up to here each whole number is a 64-bit float.
const GREATEST: u64 = 9_007_199_254_740_992;

/// Returns the whole number that a float is, from -2^53 to 2^53.
fn whole_float(x: f64) -> Option<i64>
    ensures { result ≡ whole_float x }
{
    let whole = saturating_f64_to_i64(x);
    if whole.unsigned_abs() <= GREATEST && nearest_i64_to_f64(whole) == x {
        Some(whole)
    } else {
        None
    }
}

/// Returns the whole number that a number is.
fn whole_number(number: &Number) -> Option<i64>
    ensures { result ≡ whole_number (number_view number.now) }
{
    if number.is_f64() {
        whole_float(number.as_f64()?)
    } else {
        number.as_i64()
    }
}

/// Returns the whole number that the float nearest to a numeral is.
fn nearest(negative: bool, numeral: &Numeral<'_>) -> Option<i64>
    ensures { result ≡ option_and_then whole_number (float_of negative numeral.now) }
{
    let x: f64 = numeral.to_float(negative);
    if x.is_finite() { whole_float(x) } else { None }
}

/// Returns the whole number that a numeral without a minus stands for.
fn without_minus(numeral: &Numeral<'_>) -> Option<i64>
    ensures { result ≡ option_and_then whole_number (number_from false numeral.now) }
{
    match numeral.to_u64() {
        Some(number) => if number <= i64::MAX as u64 {
            Some(number as i64)
        } else {
            None
        },
        None => nearest(false, numeral),
    }
}

/// Returns the whole number that a numeral after a minus stands for.
fn with_minus(numeral: &Numeral<'_>) -> Option<i64>
    ensures { result ≡ option_and_then whole_number (number_from true numeral.now) }
{
    if let Some(number) = numeral.to_i64(true) {
        if number < 0 {
            return Some(number);
        }
    }
    nearest(true, numeral)
}

fn has_minus(text: &[u8]) -> bool
    ensures value { result ≡ (slice_index text.now 0 == 45) }
    ensures len { IsTrue result → 0 < length text.now }
{
    !text.is_empty() && text[0] == b'-'
}

/// Returns the whole number that a number's text stands for. Cost: the length of the text.
pub(crate) fn whole_in(text: &[u8]) -> Option<i64>
    ensures { result ≡ whole_in text.now }
{
    if has_minus(text) {
        with_minus(&Numeral::scan(&text[1..]))
    } else {
        without_minus(&Numeral::scan(text))
    }
}

/// Makes the value of parsed data. It moves the texts and the names, and copies none.
///
/// Errors: `NotWhole` if a number is not whole; out of memory.
#[cycle(valued)]
fn valued(alloc: Global, value: Value) -> Result<Json, ReadError>
    ensures ok { IfOk result (λ v. value_of (data_view value) ≡ Some (view v)) }
    ensures json { result ≡ Err ReadError.NotJson → ⊥ }
    ensures not_whole { result ≡ Err ReadError.NotWhole → value_of (data_view value) ≡ None }
{
    match value {
        Value::Null => Ok(Json::Null),
        Value::Bool(flag) => Ok(Json::Flag(flag)),
        Value::Number(number) => match whole_number(&number) {
            Some(number) => Ok(Json::Whole(number)),
            None => Err(ReadError::NotWhole),
        },
        Value::String(text) => Ok(Json::Text(text)),
        Value::Array(items) => Ok(Json::List(items_valued(alloc, items)?)),
        Value::Object(members) => Ok(Json::Object(members_valued(alloc, members)?)),
    }
}

#[cycle(valued)]
fn items_valued(alloc: Global, items: Vec<Value>) -> Result<Vec<Json>, ReadError>
    ensures ok { IfOk result
        (λ v. value_items (data_items_view items.items) ≡ Some (items_view v.items)) }
    ensures json { result ≡ Err ReadError.NotJson → ⊥ }
    ensures not_whole { result ≡ Err ReadError.NotWhole
        → value_items (data_items_view items.items) ≡ None }
{
    let mut found = Vec::with_capacity(alloc, items.len())?;
    for item in items {
        found.push(valued(alloc, item)?)?;
    }
    Ok(found)
}

#[cycle(valued)]
fn members_valued(
    alloc: Global,
    members: Map<String, Value>,
) -> Result<BTreeMap<String, Json>, ReadError>
    ensures ok { IfOk result
        (λ m. value_members (data_members_view members.entries) ≡ Some (members_view m.entries)) }
    ensures json { result ≡ Err ReadError.NotJson → ⊥ }
    ensures not_whole { result ≡ Err ReadError.NotWhole
        → value_members (data_members_view members.entries) ≡ None }
{
    let mut found = BTreeMap::new(alloc);
    for (name, member) in members {
        let member = valued(alloc, member)?;
        drop(found.insert(name, member)?);
    }
    Ok(found)
}

/// Makes the value of parsed data; `None`: a number is not whole.
///
/// Errors: out of memory.
pub(crate) fn value_of(alloc: Global, value: Value) -> Result<Option<Json>, NoMemory>
    ensures { IfOk result (λ o. option_map view o ≡ value_of (data_view value)) }
{
    match valued(alloc, value) {
        Ok(value) => Ok(Some(value)),
        Err(ReadError::NotWhole) => Ok(None),
        Err(ReadError::NotJson) => unreachable!(),
        Err(ReadError::NoMemory) => Err(NoMemory),
    }
}
