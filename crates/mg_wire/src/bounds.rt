//! What a connection takes from its client.

use http1::Limits;

/// The bounds of a connection.
#[derive(Clone, Copy, Debug, PartialEq, Eq)]
pub struct Bounds {
    pub limits: Limits,
    /// A longer body is refused with 413.
    pub max_body: usize,
    /// While more bytes than this wait to be sent, no request is answered.
    pub max_pending: usize,
}
