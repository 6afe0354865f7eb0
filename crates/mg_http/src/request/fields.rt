ghost use Rattle.std.specs.Prelude.{◌≡◌, ◌==◌, ℕ, ◌≤◌, length, map, find, All, true};
ghost use Rattle.std.specs.List.{list_all, list_any};
ghost use Rattle.std.specs.Option.{option_map};
ghost use Rattle.std.specs.Char.{is_ascii_digit};
ghost use Rattle.std.specs.Str.{str_eq_ignore_ascii_case};
ghost use Rattle.std.specs.Str.Parse.{digits_value};
ghost use Rattle.httparse.specs.Spans.{IsHeaderWithin, header_bytes};
ghost use Rattle.mg_http.specs.Fields.{is_named, has_field, is_number, agrees_on_length, length_of, length_in, items_of, is_close, asks_close};
ghost use Rattle.mg_http.specs.Significant.{significant};

use crate::request::text::trim_ows;
use httparse::spans::HeaderSpan;

/// The most bytes of a body.
const MAX_BODY: u64 = 8_388_608;

/// What the Content-Length fields of a head say about its body.
#[derive(Clone, Copy, Debug, PartialEq, Eq)]
pub enum Length {
    /// There is no Content-Length field.
    Absent,
    /// All Content-Length fields give this number of bytes, which is at most 8,388,608.
    Bytes(u64),
    /// All Content-Length fields give one number, which is more than 8,388,608.
    TooMany,
    /// Some Content-Length field is not a number, or two of them give different numbers.
    Faulty,
}

fn same_name(a: &[u8], b: &[u8]) -> bool
    ensures { result ≡ str_eq_ignore_ascii_case a.now b.now }
{
    a.eq_ignore_ascii_case(b)
}

/// Whether some field has the name, whatever the case of its letters.
pub(crate) fn has_field(bytes: &[u8], fields: &[HeaderSpan], name: &[u8]) -> bool
    requires { All (IsHeaderWithin (length bytes.now)) fields.now }
    ensures { result ≡ has_field name.now (map (header_bytes bytes.now) fields.now) }
{
    for field in fields {
        if same_name(field.name.of(bytes), name) {
            return true;
        }
    }
    false
}

/// Returns the value of the first field that has the name, whatever the case of its letters; `None`: no field has it.
fn find_named<'b>(bytes: &'b [u8], fields: &[HeaderSpan], name: &[u8]) -> Option<&'b [u8]>
    requires { All (IsHeaderWithin (length bytes.now)) fields.now }
    ensures { option_map (λ v. v.now) result
        ≡ option_map (λ f. f.1) (find (is_named name.now) (map (header_bytes bytes.now) fields.now)) }
{
    for field in fields {
        if same_name(field.name.of(bytes), name) {
            return Some(field.value.of(bytes));
        }
    }
    None
}

/// Whether the text is one or more digits.
fn is_number(text: &[u8]) -> bool
    ensures { result ≡ is_number text.now }
{
    !text.is_empty() && text.iter().all(|b| b.is_ascii_digit())
}

/// Drops the leading zeros of the text: a zero becomes empty.
fn significant(mut text: &[u8]) -> &[u8]
    ensures { result.now ≡ significant text.now }
{
    while let [first, rest @ ..] = text
        && *first == b'0'
    {
        text = rest;
    }
    text
}

/// Whether two texts of digits, of any length, give the same number.
fn same_number(a: &[u8], b: &[u8]) -> bool
    requires a { list_all is_ascii_digit a.now ≡ true }
    requires b { list_all is_ascii_digit b.now ≡ true }
    ensures { result ≡ (digits_value 10 a.now == digits_value 10 b.now) }
{
    let first = significant(a);
    let second = significant(b);
    first == second
}

/// Whether a field is not a Content-Length, or gives the same number as the text.
fn agrees_on_length(name: &[u8], value: &[u8], text: &[u8]) -> bool
    requires { list_all is_ascii_digit text.now ≡ true }
    ensures { result ≡ agrees_on_length text.now (name.now, value.now) }
{
    !same_name(name, b"content-length") || (is_number(value) && same_number(value, text))
}

/// Whether all Content-Length fields give the same number as the text.
fn all_agree(bytes: &[u8], fields: &[HeaderSpan], text: &[u8]) -> bool
    requires within { All (IsHeaderWithin (length bytes.now)) fields.now }
    requires number { list_all is_ascii_digit text.now ≡ true }
    ensures { result ≡ list_all (agrees_on_length text.now) (map (header_bytes bytes.now) fields.now) }
{
    for field in fields {
        if !agrees_on_length(field.name.of(bytes), field.value.of(bytes), text) {
            return false;
        }
    }
    true
}

/// Returns the length that the digits give; `TooMany` if it is more than `MAX_BODY`.
fn read_length(digits: &[u8]) -> Length
    requires { list_all is_ascii_digit digits.now ≡ true }
    ensures length { result ≡ length_of (digits_value 10 digits.now) }
    ensures small { (n : ℕ) → result ≡ Length.Bytes n → n ≤ 8388608 }
{
    let mut n: u64 = 0;
    for b in digits {
        n = n * 10 + u64::from(*b - b'0');
        if n > MAX_BODY {
            return Length::TooMany;
        }
    }
    Length::Bytes(n)
}

/// Returns what the Content-Length fields say about the body.
pub(crate) fn length_in(bytes: &[u8], fields: &[HeaderSpan]) -> Length
    requires { All (IsHeaderWithin (length bytes.now)) fields.now }
    ensures length { result ≡ length_in (map (header_bytes bytes.now) fields.now) }
    ensures small { (n : ℕ) → result ≡ Length.Bytes n → n ≤ 8388608 }
{
    let Some(text) = find_named(bytes, fields, b"content-length") else {
        return Length::Absent;
    };
    if is_number(text) && all_agree(bytes, fields, text) {
        read_length(text)
    } else {
        Length::Faulty
    }
}

/// Whether some item of the comma-separated value is `close`, whatever the case of its letters.
fn has_close(value: &[u8]) -> bool
    ensures { result ≡ list_any is_close (items_of value.now) }
{
    value
        .split(|b| *b == b',')
        .any(|item| trim_ows(item).eq_ignore_ascii_case(b"close"))
}

/// Whether some Connection field asks to close the connection.
pub(crate) fn asks_close(bytes: &[u8], fields: &[HeaderSpan]) -> bool
    requires { All (IsHeaderWithin (length bytes.now)) fields.now }
    ensures { result ≡ list_any asks_close (map (header_bytes bytes.now) fields.now) }
{
    for field in fields {
        if same_name(field.name.of(bytes), b"connection") && has_close(field.value.of(bytes)) {
            return true;
        }
    }
    false
}
