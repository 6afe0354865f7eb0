//! Whether a client has a document.
ghost use Rattle.std.specs.Prelude.{◌≡◌, ◌==◌, ◌||◌};
ghost use Rattle.std.specs.List.{list_any, slice_split};
ghost use Rattle.mg_face.specs.Tag.{is_same_tag, is_in_tags, is_blank};

/// Whether a tag of `If-None-Match` is this one, also as a weak tag.
fn is_same_tag(tag: &[u8], item: &[u8]) -> bool
    ensures { result ≡ is_same_tag tag.now item.now }
{
    item == tag || (item.len() > 2 && &item[..2] == b"W/".as_slice() && &item[2..] == tag)
}

/// Whether one of the tags of `If-None-Match` is this one.
pub(crate) fn is_current(value: &[u8], tag: &[u8]) -> bool
    ensures { result ≡ is_in_tags tag.now value.now }
{
    value
        .split(|b| *b == b',' || *b == b' ')
        .any(|item| is_same_tag(tag, item))
}
