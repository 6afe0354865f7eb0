//! The letters with which bookmarks are spelled.
ghost use Rattle.std.specs.Prelude.{◌≡◌, None, false};
ghost use Rattle.std.specs.List.{list_all};
ghost use Rattle.mg_bookmark.specs.Letters.{has_only_letters, is_letter};
ghost use Rattle.mg_bookmark.specs.Reading.{bookmark_read};

/// Whether a text has no character but the letters of URL-safe base64: `A` to `Z`, `a` to `z`, `0` to `9`, `-` and `_`. A text
/// that has any other is not a bookmark. Takes no memory. Cost: the length of the text.
pub fn has_only_letters(text: &str) -> bool
    ensures letters { result ≡ has_only_letters text.now }
    ensures unread { result ≡ false → bookmark_read text.now ≡ None }
{
    are_letters(text.as_bytes())
}

fn are_letters(bytes: &[u8]) -> bool
    ensures { result ≡ list_all is_letter bytes.now }
{
    bytes.iter().all(|byte| is_letter(*byte))
}

fn is_letter(byte: u8) -> bool
    ensures { result ≡ is_letter byte }
{
    byte.is_ascii_alphanumeric() || byte == b'-' || byte == b'_'
}
