//! Where the first number of a JSON text stands that is not whole.
ghost use Rattle.std.specs.Prelude.{◌≡◌, ◌<◌, IfOk, take};
ghost use Rattle.json.specs.Lex.{class};
ghost use Rattle.mg_face.specs.Answer.{not_whole_body};
ghost use Rattle.mg_face.specs.Place.{mode_view, mode_after, begins_word, is_of_word, word_of, is_fraction, starts_fraction, fraction_at, line_after, column_after, first_fraction};

use crate::number::whole_in;
use itoa::Buffer;
use mg_value::NoMemory;
use std::alloc::Global;
use std::marker::Model;

/// So many bytes of a number are shown.
const SHOWN: usize = 40;

/// The reason where no such number is found.
const NOT_WHOLE: &str =
    "{\"error\":\"bad_request\",\"reason\":\"numbers are whole here: a number has a fraction, or more than 64 bits.\"}\n";

/// A number of a JSON text that is not whole: the first bytes of its text, at most `SHOWN`, and its place. Lines and columns
/// are counted from 1, columns in bytes.
#[derive(Debug, Drop)]
pub struct Fraction {
    number: Vec<u8>,
    line: usize,
    column: usize,
}

impl Model for Fraction {
    ghost use Rattle.mg_face.specs.Place as spec;

    ghost Value = { spec.Fraction };

    ghost view = { λ f. record { number = f.number.items; line = f.line; column = f.column } };
}

impl Fraction {
    /// Returns the first bytes of the number's text.
    pub fn number(&self) -> &[u8]
        ensures { result.now ≡ self.now.number }
    {
        self.number.as_slice()
    }

    /// Returns the line, counted from 1.
    pub fn line(&self) -> usize
        ensures { result ≡ self.now.line }
    {
        self.line
    }

    /// Returns the column in bytes, counted from 1.
    pub fn column(&self) -> usize
        ensures { result ≡ self.now.column }
    {
        self.column
    }
}

/// Between words and strings, or inside one.
#[derive(Clone, Copy, Drop)]
enum Mode {
    Between,
    InWord,
    InString,
    /// After a backslash in a string.
    InEscape,
}

/// Whether a byte belongs to a word: it is no operator and no space.
fn is_of_word(byte: u8) -> bool
    ensures { result ≡ is_of_word byte }
{
    !matches!(
        byte,
        b'{' | b'}' | b'[' | b']' | b':' | b',' | b' ' | b'\t' | b'\n' | b'\r'
    )
}

/// Whether a word begins at a byte.
fn begins_word(mode: Mode, byte: u8) -> bool
    ensures { result ≡ begins_word (mode_view mode) (class byte) }
{
    match mode {
        Mode::Between => is_of_word(byte) && byte != b'"' && byte != b'\\',
        _ => false,
    }
}

/// Returns the mode after a byte.
fn mode_after(mode: Mode, byte: u8) -> Mode
    ensures { mode_view result ≡ mode_after (mode_view mode) (class byte) }
{
    match mode {
        Mode::Between => if byte == b'"' {
            Mode::InString
        } else if is_of_word(byte) {
            Mode::InWord
        } else {
            Mode::Between
        },
        Mode::InWord => if is_of_word(byte) {
            Mode::InWord
        } else {
            Mode::Between
        },
        Mode::InString => match byte {
            b'"' => Mode::Between,
            b'\\' => Mode::InEscape,
            _ => Mode::InString,
        },
        Mode::InEscape => Mode::InString,
    }
}

/// Returns the word that a text begins with.
fn word_of(text: &[u8]) -> &[u8]
    ensures { result.now ≡ word_of text.now }
{
    let mut end = 0;
    while end < text.len() && is_of_word(text[end]) {
        end += 1;
    }
    &text[..end]
}

/// Whether a word is a number that is not whole.
fn is_fraction(word: &[u8]) -> bool
    ensures { result ≡ is_fraction word.now }
{
    match word.first() {
        Some(byte) => (byte.is_ascii_digit() || *byte == b'-') && whole_in(word).is_none(),
        None => false,
    }
}

/// Whether a number that is not whole stands at the front of a text.
fn starts_fraction(mode: Mode, text: &[u8]) -> bool
    ensures { result ≡ starts_fraction (mode_view mode) text.now }
{
    match text.first() {
        Some(byte) => begins_word(mode, *byte) && is_fraction(word_of(text)),
        None => false,
    }
}

/// Returns what is shown of a number's text.
fn shown(word: &[u8]) -> &[u8]
    ensures { result.now ≡ take 40 word.now }
{
    if word.len() < SHOWN {
        word
    } else {
        &word[..SHOWN]
    }
}

/// Makes a fraction of the word at the front of a text.
///
/// Errors: out of memory.
fn fraction_at(alloc: Global, text: &[u8], line: usize, column: usize) -> Result<Fraction, NoMemory>
    ensures { IfOk result (λ f. f ≡ fraction_at line column text.now) }
{
    let number = Vec::from_slice(alloc, shown(word_of(text)))?;
    Ok(Fraction {
        number,
        line,
        column,
    })
}

/// Returns the line after a byte.
fn line_after(byte: u8, line: usize) -> usize
    requires { line < usize.MAX }
    ensures { result ≡ line_after byte line }
{
    if byte == b'\n' { line + 1 } else { line }
}

/// Returns the column after a byte.
fn column_after(byte: u8, column: usize) -> usize
    requires { column < usize.MAX }
    ensures { result ≡ column_after byte column }
{
    if byte == b'\n' { 1 } else { column + 1 }
}

/// Returns the first number of a text that is not whole.
///
/// Errors: out of memory. Cost: the length of the text as far as that number.
pub(crate) fn first_fraction(alloc: Global, bytes: &[u8]) -> Result<Option<Fraction>, NoMemory>
    ensures { IfOk result (λ o. o ≡ first_fraction bytes.now) }
{
    let mut mode = Mode::Between;
    let mut line: usize = 1;
    let mut column: usize = 1;
    for (i, byte) in bytes.iter().enumerate() {
        if starts_fraction(mode, &bytes[i..]) {
            return Ok(Some(fraction_at(alloc, &bytes[i..], line, column)?));
        }
        mode = mode_after(mode, *byte);
        line = line_after(*byte, line);
        column = column_after(*byte, column);
    }
    Ok(None)
}

/// Refuses a number that is not whole, with its place.
///
/// Errors: out of memory.
fn fraction_body(alloc: Global, fraction: &Fraction) -> Result<Vec<u8>, NoMemory>
    ensures { IfOk result (λ v. v.items ≡ not_whole_body (Some fraction.now)) }
{
    let mut buffer = Buffer::new();
    let mut body = Vec::new(alloc);
    body.extend_from_slice(b"{\"error\":\"bad_request\",\"reason\":\"numbers are whole here: ")?;
    body.extend_from_slice(fraction.number())?;
    body.extend_from_slice(b" at line ")?;
    body.extend_from_slice(buffer.format(fraction.line()).as_bytes())?;
    body.extend_from_slice(b" column ")?;
    body.extend_from_slice(buffer.format(fraction.column()).as_bytes())?;
    body.extend_from_slice(b"\"}\n")?;
    Ok(body)
}

/// Refuses a number that is not whole, with its place if it is known.
///
/// Errors: out of memory.
pub(crate) fn not_whole_body(alloc: Global, found: &Option<Fraction>) -> Result<Vec<u8>, NoMemory>
    ensures { IfOk result (λ v. v.items ≡ not_whole_body found.now) }
{
    match found {
        Some(fraction) => fraction_body(alloc, fraction),
        None => Ok(Vec::from_slice(alloc, NOT_WHOLE.as_bytes())?),
    }
}
