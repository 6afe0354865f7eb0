// Compares bytes with an id's row in the index of all documents; the key of that row is the id alone.
ghost use Rattle.std.specs.Prelude.{◌≡◌, ◌∷◌};
ghost use Rattle.mg_value.specs.Value.{no_items, item, text as text_value};
ghost use Rattle.mg_rows.specs.Bytes.{bytes_order, text_before, row_bytes};

use std::cmp::Ordering;

// The type of a string.
const TEXT: u8 = 5;

/// Compares bytes with those of the id's row. Takes no memory.
pub(crate) fn against_id_row(bytes: &[u8], id: &str) -> Ordering
    ensures { result ≡ bytes_order bytes.now (row_bytes (item (text_value id.now) no_items, id.now)) }
{
    let Some((tag, after)) = bytes.split_first() else {
        return Ordering::Less;
    };
    match tag.cmp(&TEXT) {
        Ordering::Equal => against_id(after, id),
        order => order,
    }
}

// Compares bytes with those that follow the type of the string in the id's row.
fn against_id(bytes: &[u8], id: &str) -> Ordering
    ensures { result ≡ bytes_order bytes.now (text_before id.now (0 ∷ id.now)) }
{
    let mut left = bytes;
    for byte in id.as_bytes() {
        let Some((first, after)) = left.split_first() else {
            return Ordering::Less;
        };
        let order = first.cmp(&(*byte + 1));
        if order != Ordering::Equal {
            return order;
        }
        left = after;
    }
    against_end(left, id)
}

// Compares bytes with those that follow the bytes of the string in the id's row: the end of the string and what comes after.
fn against_end(bytes: &[u8], id: &str) -> Ordering
    ensures { result ≡ bytes_order bytes.now (0 ∷ 0 ∷ id.now) }
{
    let Some((text_end, after)) = bytes.split_first() else {
        return Ordering::Less;
    };
    if *text_end != 0 {
        return Ordering::Greater;
    }
    let Some((key_end, rest)) = after.split_first() else {
        return Ordering::Less;
    };
    if *key_end != 0 {
        return Ordering::Greater;
    }
    rest.cmp(id.as_bytes())
}
