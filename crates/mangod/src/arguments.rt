ghost use Rattle.std.specs.Prelude.{◌≡◌, ◌≤◌, IfSome, map, option_map, string_bytes};
ghost use Rattle.std.specs.List.{list_all};
ghost use Rattle.mangod.specs.Arguments.{is_database_name, is_name_byte, number_of, sessions_in, settings_of, settings_with};
ghost use Rattle.mangod.specs.View.{settings_view};

use crate::config::Settings;

/// The most shards.
const SHARDS: usize = 64;
/// The most workers.
const WORKERS: usize = 32;
/// The most sessions.
const SESSIONS: usize = 16;

/// Parses the arguments `DB SHARDS WORKERS SESSIONS ADDR`; `None` if they are wrong. Allocates nothing.
///
/// DB is a database name, SHARDS is 1 to 64, WORKERS is 1 to 32, and SESSIONS is 1 to 16. ADDR is any text.
pub(crate) fn settings(args: &[String]) -> Option<Settings<'_>>
    ensures { option_map settings_view result ≡ settings_of (map (λ arg. string_bytes arg) args.now) }
{
    match args {
        [db, shards, workers, sessions, addr] => check_settings(
            db.as_str(),
            addr.as_str(),
            number(shards.as_str(), SHARDS),
            number(workers.as_str(), WORKERS),
            number(sessions.as_str(), SESSIONS),
        ),
        _ => None,
    }
}

/// Returns the number of sessions asked for; 1 if the arguments are wrong.
pub(crate) fn sessions(asked: Option<Settings<'_>>) -> usize
    ensures { result ≡ sessions_in (option_map settings_view asked.entry) }
{
    match asked {
        Some(settings) => settings.sessions,
        None => 1,
    }
}

// Makes the settings of a name, an address and three numbers; `None` if the name is not a database name or a number is `None`.
fn check_settings<'a>(
    db: &'a str,
    addr: &'a str,
    shards: Option<usize>,
    workers: Option<usize>,
    sessions: Option<usize>,
) -> Option<Settings<'a>>
    requires shards { IfSome shards (λ n. (1 ≤ n) × (n ≤ 64)) }
    requires workers { IfSome workers (λ n. (1 ≤ n) × (n ≤ 32)) }
    requires sessions { IfSome sessions (λ n. (1 ≤ n) × (n ≤ 16)) }
    ensures { option_map settings_view result ≡ settings_with db.now addr.now shards workers sessions }
{
    match (shards, workers, sessions) {
        (Some(shards), Some(workers), Some(sessions)) => {
            if !is_database_name(db) {
                return None;
            }
            Some(Settings {
                db,
                shards,
                workers,
                sessions,
                addr,
            })
        }
        _ => None,
    }
}

// Whether an argument is a database name: a lower case letter, then lower case letters, digits and `_$()+-`.
fn is_database_name(arg: &str) -> bool
    ensures { result ≡ is_database_name arg.now }
{
    match arg.as_bytes().split_first() {
        Some((first, rest)) => first.is_ascii_lowercase() && are_name_bytes(rest),
        None => false,
    }
}

fn are_name_bytes(bytes: &[u8]) -> bool
    ensures { result ≡ list_all is_name_byte bytes.now }
{
    bytes.iter().all(|byte| is_name_byte(*byte))
}

fn is_name_byte(byte: u8) -> bool
    ensures { result ≡ is_name_byte byte }
{
    byte.is_ascii_lowercase() || byte.is_ascii_digit() || b"_$()+-".contains(&byte)
}

// Parses a decimal number from 1 to `most`, which may begin with zeros; `None` for anything else.
fn number(arg: &str, most: usize) -> Option<usize>
    requires { most ≤ 1000 }
    ensures value { result ≡ number_of arg.now most }
    ensures within { IfSome result (λ n. (1 ≤ n) × (n ≤ most)) }
{
    let mut number: usize = 0;
    for digit in arg.as_bytes() {
        if !digit.is_ascii_digit() {
            return None;
        }
        number = number * 10 + usize::from(*digit - b'0');
        if number > most {
            return None;
        }
    }
    if number == 0 { None } else { Some(number) }
}
