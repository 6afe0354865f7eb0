//! How the program ends.

/// An exit status, and a line for standard error (empty: none).
#[derive(Clone, Copy, PartialEq, Debug)]
pub(crate) struct Exit {
    pub(crate) status: u8,
    pub(crate) line: &'static str,
}

impl Exit {
    pub(crate) const WRONG_NAME: Exit = Exit {
        status: 2,
        line: "mango_server: the database's name is not valid; mango_server --help says more",
    };

    pub(crate) const NO_MEMORY: Exit = Exit {
        status: 1,
        line: "mango_server: out of memory",
    };

    pub(crate) const NO_RANDOM: Exit = Exit {
        status: 1,
        line: "mango_server: the system gives no random bytes",
    };

    pub(crate) const CANNOT_LISTEN: Exit = Exit {
        status: 1,
        line: "mango_server: cannot listen",
    };

    pub(crate) const STORAGE: Exit = Exit {
        status: 1,
        line: "mango_server: the file cannot be written; the last writes may or may not be stored",
    };
    /// What cannot be served was said before.
    pub(crate) const REFUSED: Exit = Exit {
        status: 1,
        line: "",
    };

    pub(crate) const STOPPED: Exit = Exit {
        status: 1,
        line: "mango_server: the listener failed",
    };
}
