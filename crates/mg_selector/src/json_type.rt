ghost use Rattle.std.specs.Prelude.{◌≡◌};

use mg_value::{Kind, LentValue};

/// A type of JSON value, as `$type` names it.
#[derive(Clone, Copy, PartialEq, Eq, Debug, Drop)]
pub enum JsonType {
    Null,
    Boolean,
    Number,
    String,
    Array,
    Object,
}

impl JsonType {
    ghost use Rattle.mg_selector.specs.Predicate.{has_type};
    ghost use Rattle.mg_selector.specs.Argument.{type_named};

    /// Finds the type by its name in `$type`, such as `array`; `None` for any other text. Takes no memory.
    pub fn named(name: &str) -> Option<JsonType>
        ensures { result ≡ type_named name.now }
    {
        match name {
            "null" => Some(JsonType::Null),
            "boolean" => Some(JsonType::Boolean),
            "number" => Some(JsonType::Number),
            "string" => Some(JsonType::String),
            "array" => Some(JsonType::Array),
            "object" => Some(JsonType::Object),
            _ => None,
        }
    }

    /// Whether the value is of this type. Takes no memory. Cost: constant.
    pub fn is_of<L: LentValue>(self, value: L) -> bool
        ensures { result ≡ has_type self (L.value value) }
    {
        match (self, value.kind()) {
            (JsonType::Null, Kind::Null) => true,
            (JsonType::Boolean, Kind::Flag(_)) => true,
            (JsonType::Number, Kind::Whole(_)) => true,
            (JsonType::String, Kind::Text(_)) => true,
            (JsonType::Array, Kind::List(_)) => true,
            (JsonType::Object, Kind::Object(_)) => true,
            _ => false,
        }
    }
}
