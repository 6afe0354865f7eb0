//! Hints: numbers of rows and row bounds, which say where a search begins, and which never fall as rows ascend. A wrong
//! hint makes a search longer, but does not change its result.
use mg_value::Json;

// In a hint, the bits from this one up say the type of a value, and the bits below say what the value holds.
const TYPE_SHIFT: u32 = 61;

// The lower seven bits of each of eight bytes.
const LOW_BITS: u64 = 0x7f7f_7f7f_7f7f_7f7f;

// 1 in each of eight bytes: a row stores each byte of a text plus 1.
const ONES: u64 = 0x0101_0101_0101_0101;

// Whole numbers from `-NEAR` to `NEAR - 1` have different hints. All numbers below have the hint of `-NEAR`, and all numbers
// above have that of `NEAR - 1`.
const NEAR: u64 = 1 << 59;

// The bits below the type, in the hint of `NEAR - 1` and of all whole numbers above it.
const FARTHEST: u64 = ((1 << 60) - 1) << 1;

/// Returns the hint of a value: its type, for a number also the nearest number from -2^59 to 2^59 - 1, and for a string
/// also the first 60 bits of its bytes, each plus 1; 0 for `None`, as for a row whose key is empty. Every row whose key
/// begins with the value has the value's hint. Hints of values are even, so that a bound before or after all these rows
/// can have the odd hint below or above. Takes no memory. Cost: constant.
pub fn value_hint(value: Option<&Json>) -> u64 {
    match value {
        None => 0,
        Some(Json::Null) => type_hint(1),
        Some(Json::Flag(false)) => type_hint(2),
        Some(Json::Flag(true)) => type_hint(3),
        Some(Json::Whole(number)) => turned_hint(number.cast_unsigned().wrapping_add(1 << 63)),
        Some(Json::Text(text)) => encoded_hint(encoded_front(text.as_bytes())),
        Some(Json::List(_)) => type_hint(6),
        Some(Json::Object(_)) => type_hint(7),
    }
}

/// Returns the hint of a row, from its bytes: that of the first value of its key; 0 if the key is empty.
pub(crate) fn row_hint(bytes: &[u8]) -> u64 {
    match bytes {
        [4, a, b, c, d, e, f, g, h, ..] => turned_hint(u64::from_be_bytes([
            *a, *b, *c, *d, *e, *f, *g, *h,
        ])),
        [5, a, b, c, d, e, f, g, h, ..] => {
            encoded_hint(front_before_zero(u64::from_be_bytes([*a, *b, *c, *d, *e, *f, *g, *h])))
        }
        [5, short @ ..] => encoded_hint(front_before_zero(front_of(short))),
        [tag, ..] => type_hint(*tag),
        [] => 0,
    }
}

/// Returns the hint of a row bound, from its bytes: that of its first value, but the odd hint below or above that if the
/// bound has no other value and the hint determines its only value. Without values, the hint is 0 for a bound before all
/// rows, and for a bound after all rows the odd hint above those of all rows.
pub(crate) fn bound_hint(bytes: &[u8]) -> u64 {
    let number = row_hint(bytes);
    match bytes.get(first_end(bytes, number)) {
        None => number.saturating_sub(1),
        Some(255) => number.saturating_add(1),
        Some(_) => number,
    }
}

// Returns where the first value ends, if the hint determines the value; otherwise a position before its end. Without
// values, returns 0.
fn first_end(bytes: &[u8], number: u64) -> usize {
    match bytes.first() {
        None | Some(255) => 0,
        Some(4) if number != type_hint(4) && number != type_hint(4) | FARTHEST => 9,
        Some(4) => 0,
        Some(5) => text_end(bytes),
        Some(_) => 1,
    }
}

// Returns where a text of up to six bytes ends, and 0 for a longer one. The first of the given bytes is the type.
fn text_end(bytes: &[u8]) -> usize {
    match bytes.iter().position(|byte| *byte == 0) {
        Some(place) if place < 8 => place + 1,
        _ => 0,
    }
}

// Returns the hint of a type, without what a value holds.
fn type_hint(tag: u8) -> u64 {
    u64::from(tag.min(7)) << TYPE_SHIFT
}

// Returns the hint of a whole number, given the number with its sign bit flipped. The hint determines the number, unless
// it is the lowest or the greatest hint of whole numbers.
fn turned_hint(turned: u64) -> u64 {
    let lowest = (1 << 63) - NEAR;
    let near = turned.max(lowest).min((1 << 63) + NEAR - 1) - lowest;
    type_hint(4) | (near << 1)
}

// Returns the hint of a text, from its first eight bytes as a row stores them.
fn encoded_hint(front: u64) -> u64 {
    type_hint(5) | ((front >> 4) << 1)
}

// Returns the first eight bytes of a text as a row stores them, filled up with zeros.
fn encoded_front(text: &[u8]) -> u64 {
    match text {
        [a, b, c, d, e, f, g, h, ..] => {
            u64::from_be_bytes([*a, *b, *c, *d, *e, *f, *g, *h]).wrapping_add(ONES)
        }
        short => {
            let used = u64::MAX
                .checked_shr(8 * short.len().min(8) as u32)
                .unwrap_or(0);
            front_of(short).wrapping_add(ONES & !used)
        }
    }
}

// Returns the first eight bytes, filled up with zeros.
fn front_of(bytes: &[u8]) -> u64 {
    let mut front = 0u64;
    for i in 0..8usize {
        let byte = bytes.get(i).copied().unwrap_or(0);
        front = (front << 8) | u64::from(byte);
    }
    front
}

// Returns the bytes before the first 0, filled up with zeros.
fn front_before_zero(front: u64) -> u64 {
    // the highest bit of each byte that is 0
    let zeros = !((front & LOW_BITS).wrapping_add(LOW_BITS) | front | LOW_BITS);
    let after = u64::MAX.checked_shr(zeros.leading_zeros()).unwrap_or(0);
    front & !after
}
