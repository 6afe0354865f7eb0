//! What to do after a failed accept.
ghost use Rattle.std.specs.Prelude.{◌≡◌};
ghost use Rattle.mg_server.specs.Faults.{after_fault, is_gone, is_shortage};

use std::io::ErrorKind;

/// What to do after a failed accept.
#[derive(Clone, Copy, PartialEq, Debug)]
pub(crate) enum AfterFault {
    /// Accept again: the fault concerns one connection only.
    Again,
    /// Accept again at the next event of the listener: no connection is waiting.
    AtAnEvent,
    /// Accept again soon.
    Soon,
    /// Accept again soon: descriptors or memory ran out, so close a connection meanwhile.
    WithMore,
    /// Accept no more: the listener is gone.
    Never,
}

/// Returns what to do after a failed accept, by the kind of the error and its number on Linux (`None`: it has no number). Interruption by
/// a signal does not occur here: std repeats an interrupted accept.
pub(crate) fn after_fault(kind: ErrorKind, number: Option<i32>) -> AfterFault
    ensures { result ≡ after_fault kind number }
{
    match number {
        Some(number) if is_gone(number) => AfterFault::Never,
        Some(number) if is_shortage(number) => AfterFault::WithMore,
        _ => match kind {
            ErrorKind::WouldBlock => AfterFault::AtAnEvent,
            ErrorKind::OutOfMemory => AfterFault::WithMore,
            ErrorKind::ConnectionAborted => AfterFault::Again,
            _ => AfterFault::Soon,
        },
    }
}

// Whether on Linux this number means that the listener is gone: no descriptor, none that listens, or no socket.
fn is_gone(number: i32) -> bool
    ensures { result ≡ is_gone number }
{
    number == 9 || number == 22 || number == 88
}

// Whether on Linux this number means that the system or the process ran out of descriptors, buffers or memory.
fn is_shortage(number: i32) -> bool
    ensures { result ≡ is_shortage number }
{
    number == 12 || number == 23 || number == 24 || number == 105
}
