//! A connection is what an edge drives.
ghost use Rattle.mg_server.specs.Meeting.{Meets};
ghost use Rattle.mg_wire.specs.Connection.{received, sent, pending, Told, Rests, IsDone, IsIdle, held_by};

use crate::connection::Connection;
use crate::service::Service;
use mg_server::{Conversation, Handover};
use std::io;
use std::io::Read;
use std::sync::Wait;
use std::thread::Threads;

impl<S: Service + Handover> Conversation<S> for Connection {
    ghost received = { received };

    ghost sent = { sent };

    ghost pending = { pending };

    ghost told = { λ moves from c now. Told (Meets S.follows moves) S.answers from c now };

    ghost rests = { Rests };

    ghost done = { IsDone };

    ghost idle = { IsIdle };

    ghost held = { held_by };

    fn another(&self) -> Connection {
        Connection::new(self.alloc, self.bounds)
    }

    fn read_from<R: Read>(&mut self, reader: &mut R) -> io::Result<Option<usize>> {
        self.receive(reader)
    }

    fn advance<H: Wait + Threads + Sync>(&mut self, rt: &H, service: &mut S) {
        self.run(rt, service);
    }

    fn output(&self) -> &[u8] {
        self.chunk()
    }

    fn count_sent(&mut self, count: usize) {
        self.count(count);
    }

    fn wants_read(&self) -> bool {
        !self.has_pending() && !self.is_over()
    }

    fn wants_write(&self) -> bool {
        self.has_pending()
    }

    fn is_done(&self) -> bool {
        self.is_over()
    }

    fn is_idle(&self) -> bool {
        self.is_unused()
    }

    fn held(&self) -> usize {
        self.room()
    }
}
