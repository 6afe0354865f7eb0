ghost use Rattle.std.specs.Prelude.{◌≡◌};
ghost use Rattle.std.specs.Result.{result_err};
ghost use Rattle.mg_value.specs.Value.{list};
ghost use Rattle.mg_value.specs.View.{view, items_view};
ghost use Rattle.mg_selector.specs.Argument.{exists_of, type_of, size_of, modulo_of, modulo_by, array_of, operator_with};
ghost use Rattle.mg_selector.specs.Reading.{ReadsAs};
ghost use Rattle.mg_selector.specs.View.{operator_of};

use crate::error::SelError;
use crate::json_type::JsonType;
use crate::name_kind::ValueOperator;
use crate::operator::Op;
use mg_value::{Json, copy_items};
use std::alloc::Global;
use std::num::NonZeroI64;

/// Reads the value as the argument of the operator, and returns the operator with it.
///
/// Errors: `BadArg` if the operator does not take the value; `NoMemory` if an allocation fails.
pub(crate) fn read_operator(
    alloc: Global,
    operator: ValueOperator,
    value: &Json,
) -> Result<Op, SelError>
    ensures { ReadsAs operator_of result (operator_with operator (view value.now)) }
{
    match operator {
        ValueOperator::Lt => Ok(Op::Lt(value.copy(alloc)?)),
        ValueOperator::Lte => Ok(Op::Lte(value.copy(alloc)?)),
        ValueOperator::Eq => Ok(Op::Eq(value.copy(alloc)?)),
        ValueOperator::Ne => Ok(Op::Ne(value.copy(alloc)?)),
        ValueOperator::Gte => Ok(Op::Gte(value.copy(alloc)?)),
        ValueOperator::Gt => Ok(Op::Gt(value.copy(alloc)?)),
        ValueOperator::Exists => read_exists(value),
        ValueOperator::Type => read_type(value),
        ValueOperator::In => Ok(Op::In(read_array(alloc, value)?)),
        ValueOperator::Nin => Ok(Op::Nin(read_array(alloc, value)?)),
        ValueOperator::Size => read_size(value),
        ValueOperator::Mod => read_mod(value),
        ValueOperator::All => Ok(Op::All(read_array(alloc, value)?)),
    }
}

pub(crate) fn read_exists(value: &Json) -> Result<Op, SelError>
    ensures operator { ReadsAs operator_of result (exists_of (view value.now)) }
    ensures fault { result_err result ≡ result_err (exists_of (view value.now)) }
{
    match value {
        Json::Flag(there) => Ok(Op::Exists(*there)),
        _ => Err(SelError::BadArg),
    }
}

pub(crate) fn read_type(value: &Json) -> Result<Op, SelError>
    ensures operator { ReadsAs operator_of result (type_of (view value.now)) }
    ensures fault { result_err result ≡ result_err (type_of (view value.now)) }
{
    match value {
        Json::Text(name) => match JsonType::named(name.as_str()) {
            Some(json_type) => Ok(Op::Type(json_type)),
            None => Err(SelError::BadArg),
        },
        _ => Err(SelError::BadArg),
    }
}

pub(crate) fn read_size(value: &Json) -> Result<Op, SelError>
    ensures operator { ReadsAs operator_of result (size_of (view value.now)) }
    ensures fault { result_err result ≡ result_err (size_of (view value.now)) }
{
    match value {
        Json::Whole(size) if *size >= 0 => Ok(Op::Size(size.unsigned_abs())),
        _ => Err(SelError::BadArg),
    }
}

pub(crate) fn read_mod(value: &Json) -> Result<Op, SelError>
    ensures operator { ReadsAs operator_of result (modulo_of (view value.now)) }
    ensures fault { result_err result ≡ result_err (modulo_of (view value.now)) }
{
    match value {
        Json::List(items) => modulo_of(items),
        _ => Err(SelError::BadArg),
    }
}

fn modulo_of(items: &[Json]) -> Result<Op, SelError>
    ensures operator { ReadsAs operator_of result (modulo_of (list (items_view items.now))) }
    ensures fault { result_err result ≡ result_err (modulo_of (list (items_view items.now))) }
{
    if items.len() != 2 {
        return Err(SelError::BadArg);
    }
    modulo(&items[0], &items[1])
}

fn modulo(divisor: &Json, remainder: &Json) -> Result<Op, SelError>
    ensures operator { ReadsAs operator_of result (modulo_by (view divisor.now) (view remainder.now)) }
    ensures fault { result_err result ≡ result_err (modulo_by (view divisor.now) (view remainder.now)) }
{
    match (divisor, remainder) {
        (Json::Whole(divisor), Json::Whole(remainder)) => match NonZeroI64::new(*divisor) {
            Some(divisor) => Ok(Op::Mod(divisor, *remainder)),
            None => Err(SelError::BadArg),
        },
        _ => Err(SelError::BadArg),
    }
}

fn read_array(alloc: Global, value: &Json) -> Result<Vec<Json>, SelError>
    ensures { ReadsAs (λ v. items_view v.items) result (array_of (view value.now)) }
{
    match value {
        Json::List(items) => Ok(copy_items(alloc, items)?),
        _ => Err(SelError::BadArg),
    }
}
