//! How many ids are asked for.
ghost use Rattle.std.specs.Prelude.{◌≡◌, true};
ghost use Rattle.std.specs.Char.{is_ascii_digit};
ghost use Rattle.std.specs.List.{list_all};
ghost use Rattle.std.specs.Option.{option_map};
ghost use Rattle.std.specs.String.{string_bytes};
ghost use Rattle.std.specs.Str.Parse.{digits_value};
ghost use Rattle.mg_face.specs.Count.{is_number, count_of, count_given};

/// The most ids that one request gets.
pub const MAX_COUNT: usize = 1000;

/// Why a number of ids is refused.
#[derive(Clone, Copy, Debug, PartialEq, Eq)]
pub enum CountFault {
    /// It is no whole number from 1.
    NotPositive,
    /// It is more than `MAX_COUNT`.
    TooLarge,
}

fn is_number(text: &[u8]) -> bool
    ensures { result ≡ is_number text.now }
{
    !text.is_empty() && text.iter().all(|b| b.is_ascii_digit())
}

fn read_count(digits: &[u8]) -> Result<usize, CountFault>
    requires { list_all is_ascii_digit digits.now ≡ true }
    ensures { result ≡ count_of (digits_value 10 digits.now) }
{
    let mut n: usize = 0;
    for b in digits {
        n = n * 10 + usize::from(*b - b'0');
        if n > MAX_COUNT {
            return Err(CountFault::TooLarge);
        }
    }
    if n == 0 {
        Err(CountFault::NotPositive)
    } else {
        Ok(n)
    }
}

/// Returns how many ids a text asks for; without one, 1.
pub(crate) fn count_in(text: Option<&str>) -> Result<usize, CountFault>
    ensures { result ≡ count_given (option_map (λ s. s.now) text.entry) }
{
    let Some(text) = text else {
        return Ok(1);
    };
    if is_number(text.as_bytes()) {
        read_count(text.as_bytes())
    } else {
        Err(CountFault::NotPositive)
    }
}
