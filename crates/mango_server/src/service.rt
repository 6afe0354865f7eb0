//! The service of a seat whose commits are kept.
ghost use Rattle.mg_engine.specs.View.{reply_view};
ghost use Rattle.mango_server.specs.Stored.{IsPassedOn};

use mg_engine::{Command, Question, Reply};
use mg_face::Store;
use mg_http::{SeatService, Service};
use mg_live::{Database, Keeper, Seen};
use mg_server::{Handover, Learner};
use std::alloc::Global;
use std::sync::atomic::{AtomicBool, Ordering};
use std::sync::{Arc, Wait};
use std::thread::Threads;

/// What a client gets whose write may or may not be stored.
const STORAGE: &str =
    "{\"error\":\"storage\",\"reason\":\"The write may or may not be stored.\"}\n";

/// A seat, and whether the file is lost.
#[derive(Drop)]
pub(crate) struct StoredService<D: Database, C: Keeper> {
    pub(crate) service: SeatService<D, C>,
    pub(crate) lost: Arc<AtomicBool>,
}

/// Returns the reply to a write once the file is lost.
fn storage_reply(alloc: Global, reply: Reply) -> Reply
    ensures { IsPassedOn (reply_view reply) (reply_view result) }
{
    match reply {
        Reply::NoMemory => match Vec::from_slice(alloc, STORAGE.as_bytes()) {
            Ok(body) => Reply::Full { status: 503, body },
            Err(_) => Reply::NoMemory,
        },
        reply => reply,
    }
}

impl<D: Database, C: Keeper> Service for StoredService<D, C> {
    ghost use Rattle.mango_server.specs.Stored.{StoredAnswer};

    ghost answers = { λ old command answer new.
        StoredAnswer D.db old.service.seat command answer new.service.seat };

    fn ask<H: Wait + Threads + Sync>(&mut self, rt: &H, alloc: Global, command: &Command) -> Reply {
        match command.copy(alloc) {
            Ok(command) => self.execute(rt, alloc, command),
            Err(_) => Reply::NoMemory,
        }
    }

    fn execute<H: Wait + Threads + Sync>(
        &mut self,
        rt: &H,
        alloc: Global,
        command: Command,
    ) -> Reply {
        let is_write = command.is_write();
        let reply = self.service.execute(rt, alloc, command);
        if is_write && self.lost.load(Ordering::SeqCst) {
            storage_reply(alloc, reply)
        } else {
            reply
        }
    }
}

impl<D: Database, C: Keeper> Store for StoredService<D, C> {
    ghost use Rattle.mg_live.specs.SeatView.{SeatLooks};

    // The seat gives the answer, from the commits that it has then seen.
    ghost sees = { λ old question answer new. SeatLooks D.db old.service.seat question answer new.service.seat };

    fn look<H: Wait + Threads + Sync>(
        &mut self,
        rt: &H,
        _alloc: Global,
        question: &Question,
    ) -> Reply {
        self.service.look(rt, question)
    }

    fn is_lost(&self) -> bool {
        self.lost.load(Ordering::SeqCst)
    }
}

impl<D: Database, C: Keeper> Handover for StoredService<D, C> {
    ghost use Rattle.mg_machine.specs.Laws.{IsPrefix};
    ghost use Rattle.mg_machine.proofs.Beginnings.{itself, in_turn};

    // The second seat has seen all commits that the first one has seen.
    ghost follows = { λ old new. IsPrefix old.service.seat.seen new.service.seat.seen };

    ghost same = { λ a. itself a.service.seat.seen };

    ghost onward = { λ a b c p q. in_turn a.service.seat.seen b.service.seat.seen c.service.seat.seen p q };
}

impl<D: Database, C: Keeper> Learner for StoredService<D, C> {
    ghost use Rattle.std.specs.Prelude.{◌≡◌};

    // A client carries the commits that its last seat had seen.
    type Seen = Seen<D>;

    ghost shows = { λ seen state. seen ≡ state.service.seat.seen };

    fn seen(&self) -> Seen<D> {
        self.service.seen()
    }

    fn has_failed(&self) -> bool {
        self.lost.load(Ordering::SeqCst)
    }

    fn learn(&mut self, seen: &Seen<D>) {
        self.service.learn(seen);
    }
}
