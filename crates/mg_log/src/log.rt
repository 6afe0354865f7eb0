ghost use Rattle.std.specs.Prelude.{◌≡◌, ◌<◌, ◌-◌, ◌^◌, false};

use crate::header::Header;
use sqlite::{Alter, Connection};

/// A log of commits, open for appending.
pub struct Log<S: Alter> {
    pub(crate) conn: Connection<S>,
    pub(crate) header: Header,
    pub(crate) count: u32,
    // false once a fault has ended the log
    pub(crate) is_usable: bool,
    ghost idle: { conn.in_transaction ≡ false },
    ghost bounded: { count < 2 ^ 32 - 1 },
}

impl<S: Alter + Drop> Drop for Log<S> {
    fn drop(self) {
        let Log {
            conn: _,
            header: _,
            count: _,
            is_usable: _,
        } = self;
    }
}

impl<S: Alter> Log<S> {
    /// Gives the connection back. Takes no memory.
    pub fn into_connection(self) -> Connection<S>
        ensures { result ≡ self.conn }
    {
        let Log {
            conn,
            header: _,
            count: _,
            is_usable: _,
        } = self;
        conn
    }
}
