ghost use Rattle.std.specs.Prelude.{◌≡◌, IfOk, Some};
ghost use Rattle.mg_engine.specs.Commands.{refused};

use crate::refusal::{OUT_OF_MEMORY, Refusal};
use mg_value::NoMemory;
use std::alloc::Global;

/// The reply to a command.
#[derive(Debug, Drop)]
pub enum Reply {
    /// A complete reply: its status, and its body with the final line feed.
    Full { status: u16, body: Vec<u8> },
    /// An allocation failed, or there were too many references to a part of the engine. Nothing has changed.
    NoMemory,
}

impl Reply {
    ghost use Rattle.mg_engine.specs.View.{answer_in, reply_view};

    /// Returns the status; 503 for `NoMemory`. Takes no memory.
    pub fn status(&self) -> u16
        ensures { result ≡ (answer_in self.now).status }
    {
        match self {
            Reply::Full { status, body: _ } => *status,
            Reply::NoMemory => 503,
        }
    }

    /// Returns the body with its final line feed; for `NoMemory`, the body of `Refusal::OutOfMemory`. Takes no memory.
    pub fn body(&self) -> &[u8]
        ensures { result.now ≡ (answer_in self.now).body }
    {
        match self {
            Reply::Full { status: _, body } => body,
            Reply::NoMemory => OUT_OF_MEMORY.as_bytes(),
        }
    }

    /// Makes the reply that refuses a command. Errors: `NoMemory` if an allocation fails. Cost: the length of its body.
    pub fn refusing(alloc: Global, refusal: Refusal) -> Result<Reply, NoMemory>
        ensures { IfOk result (λ r. reply_view r ≡ Some (refused refusal)) }
    {
        let body = Vec::from_slice(alloc, refusal.body().as_bytes())?;
        Ok(Reply::Full {
            status: refusal.status(),
            body,
        })
    }
}
