ghost use Rattle.std.specs.Prelude.{◌≡◌};
ghost use Rattle.mangod.specs.Exits.{exit_of};

use mg_http::SessionEnd;

/// How the program ends: its exit status, and its line on standard error (empty: no line).
#[derive(Clone, Copy, PartialEq, Debug)]
pub(crate) struct Exit {
    pub(crate) status: u8,
    pub(crate) line: &'static str,
}

/// The arguments are wrong.
pub(crate) const WRONG_ARGUMENTS: Exit = Exit {
    status: 2,
    line: "mangod: usage: mangod DB SHARDS WORKERS SESSIONS ADDR",
};

/// Memory ran out at the start, or after the last session.
pub(crate) const NO_MEMORY: Exit = Exit {
    status: 1,
    line: "mangod: out of memory",
};

/// The program cannot listen at the address, or cannot watch the socket for another reason than memory.
pub(crate) const CANNOT_LISTEN: Exit = Exit {
    status: 1,
    line: "mangod: cannot listen",
};

/// The listener or the poll failed: no more clients can be served.
pub(crate) const STOPPED: Exit = Exit {
    status: 1,
    line: "",
};

/// Returns the exit status and the line for standard error (empty: no line) after a session with this end. Allocates nothing.
pub(crate) fn ending(end: &SessionEnd) -> (u8, &'static str)
    ensures status { result.0 ≡ (exit_of end.now).status }
    ensures line { result.1.now ≡ (exit_of end.now).line }
{
    match end {
        SessionEnd::Eof | SessionEnd::Closed => (0, ""),
        SessionEnd::Refused => (1, "mangod: refused"),
        SessionEnd::ReadFault => (1, "mangod: read fault"),
        SessionEnd::WriteFault => (1, "mangod: write fault"),
        SessionEnd::Limit => (1, "mangod: limit"),
    }
}

impl Exit {
    ghost use Rattle.mangod.specs.View.{exit_view};

    /// Returns how the program ends after a session with this end.
    pub(crate) fn after(end: &SessionEnd) -> Exit
        ensures { exit_view result ≡ exit_of end.now }
    {
        let (status, line) = ending(end);
        Exit { status, line }
    }
}
