ghost use Rattle.std.specs.Prelude.{◌≡◌, ◌+◌, ◌≤◌, OnOk, vec_capacity, vec_len};

use mg_value::NoMemory;

// A list of fewer items than this gets exactly the capacity that it needs: most documents have one revision or a few.
const SHORT: usize = 4;

/// Reserves capacity for `more` items. A short list gets exactly that; a longer one grows as a `Vec` does. Errors: `NoMemory` if an
/// allocation fails. The items stay as they were.
pub fn reserve<T>(list: &mut Vec<T>, more: usize) -> Result<(), NoMemory>
    ensures items { list.new.items ≡ list.old.items }
    ensures ok { OnOk result (vec_len list.new + more ≤ vec_capacity list.new) }
{
    if list.len() < SHORT {
        list.reserve_exact(more)?;
        return Ok(());
    }
    list.reserve(more)?;
    Ok(())
}
