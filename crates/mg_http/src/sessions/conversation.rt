//! A connection is what an edge drives.
ghost use Rattle.mg_server.specs.Meeting.{Meets};
ghost use Rattle.mg_http.specs.Connection.{received, sent, waiting, ToldMet, Rests, IsDone, IsIdle, held_by};

use crate::sessions::connection::Connection;
use crate::sessions::service::Service;
use mg_server::{Conversation, Handover};
use std::io;
use std::io::Read;
use std::sync::Wait;
use std::thread::Threads;

impl<'a, S: Service + Handover> Conversation<S> for Connection<'a> {
    ghost received = { received };

    ghost sent = { sent };

    ghost pending = { waiting };

    ghost told = { λ moves from c now. ToldMet (Meets S.follows moves) S.answers from c now };

    ghost rests = { Rests };

    ghost done = { IsDone };

    ghost idle = { IsIdle };

    ghost held = { held_by };

    fn another(&self) -> Connection<'a> {
        Connection::new(self.alloc, self.db)
    }

    fn read_from<R: Read>(&mut self, reader: &mut R) -> io::Result<Option<usize>> {
        self.receive(reader)
    }

    fn advance<H: Wait + Threads + Sync>(&mut self, rt: &H, service: &mut S) {
        self.run(rt, service);
    }

    fn output(&self) -> &[u8] {
        self.output.chunk()
    }

    fn count_sent(&mut self, count: usize) {
        self.count(count);
    }

    fn wants_read(&self) -> bool {
        self.output.is_empty() && !self.has_ended()
    }

    fn wants_write(&self) -> bool {
        !self.output.is_empty()
    }

    fn is_done(&self) -> bool {
        self.has_ended() && self.output.is_empty()
    }

    fn is_idle(&self) -> bool {
        self.is_unused()
    }

    fn held(&self) -> usize {
        self.input.held().saturating_add(self.output.held())
    }
}
