//! The date of a response.
use httpdate::HttpDate;
use std::rt::HostRuntime;
use std::time::Clock;

/// Returns the present date; `None` if the clock fails.
pub(crate) fn date_of(clock: &HostRuntime) -> Option<HttpDate> {
    let time = clock.since_1970().ok()?;
    HttpDate::from_unix_secs(time.as_secs()).ok()
}
