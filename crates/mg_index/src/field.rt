//! A field of an index or of a sort: a text, which is a path, or an object of one member, whose name is the
//! path and whose value is the direction.
ghost use Rattle.std.specs.Prelude.{◌≡◌, option_map};
ghost use Rattle.std.specs.List.{list_all};
ghost use Rattle.mg_value.specs.View.{view, members_view};
ghost use Rattle.mg_index.specs.Reading.{field_path, field_direction, direction_in, only_member, is_same};

use mg_collate::Direction;
use mg_value::Json;
use std::collections::BTreeMap;

/// Whether all these directions (`others`) equal `direction`; true if there are none. Takes no memory. Cost: the
/// number of directions.
pub fn all_have_direction(direction: Direction, others: &[Direction]) -> bool
    ensures { result ≡ list_all (is_same direction) others.now }
{
    for other in others {
        if direction != *other {
            return false;
        }
    }
    true
}

/// Finds the text of a field's path; `None` if the field is neither a text nor an object of one member. Checks
/// neither the text nor the direction. Takes no memory. Source: `fields` and `sort` in CouchDB's API reference.
pub fn field_path(field: &Json) -> Option<&str>
    ensures { option_map (λ t. t.now) result ≡ field_path (view field.now) }
{
    match field {
        Json::Text(path) => Some(path.as_str()),
        Json::Object(members) => {
            let (path, _) = only_member(members)?;
            Some(path)
        }
        _ => None,
    }
}

/// Finds a field's direction: ascending for a text. `None` if the field is neither a text nor an object of one
/// member whose value is `asc` or `desc`. Takes no memory. Source: as for `field_path`.
pub fn field_direction(field: &Json) -> Option<Direction>
    ensures { result ≡ field_direction (view field.now) }
{
    match field {
        Json::Text(_) => Some(Direction::Asc),
        Json::Object(members) => {
            let (_, value) = only_member(members)?;
            direction_in(value)
        }
        _ => None,
    }
}

// Finds the direction that a value names; `None` if the value is neither `asc` nor `desc`.
fn direction_in(value: &Json) -> Option<Direction>
    ensures { result ≡ direction_in (view value.now) }
{
    match value {
        Json::Text(word) => Direction::named(word.as_str()),
        _ => None,
    }
}

// Returns the only member of an object; `None` if the object has no member or several.
fn only_member(members: &BTreeMap<String, Json>) -> Option<(&str, &Json)>
    ensures { option_map (λ m. (m.0.now, view m.1.now)) result
        ≡ only_member (members_view members.now.entries) }
{
    let mut members = members.iter();
    let (name, value) = members.next()?;
    match members.next() {
        None => Some((name.as_str(), value)),
        Some(_) => None,
    }
}
