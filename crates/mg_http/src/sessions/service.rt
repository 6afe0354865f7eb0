ghost use denote.Param.Send.{IsSync};
ghost use Rattle.std.specs.Prelude.{◌≡◌, ◌≤◌, Option, IfNone};
ghost use Rattle.std.proofs.Common.{refl, ◌∙◌};
ghost use Rattle.mg_machine.specs.Laws.{IsPrefix};
ghost use Rattle.mg_machine.proofs.Beginnings.{itself, in_turn};
ghost use Rattle.mg_engine.specs.Commands.{Asked, Answer};
ghost use Rattle.mg_engine.specs.QuestionView.{question_view};
ghost use Rattle.mg_engine.specs.View.{command_view, reply_view};
ghost use Rattle.mg_http.specs.Solo.{EngineAnswers};
ghost use Rattle.mg_live.specs.SeatView.{Answered, SeatLooks};

use left_right::Absorb;
use mg_engine::{Command, Engine, Question, Reply};
use mg_live::{Database, Keeper, Seat, Seen, Snapshot};
use mg_server::{Handover, Learner};
use mg_shard::{Md5Placement, Placement};
use std::alloc::Global;
use std::sync::Wait;
use std::thread::Threads;

/// Answers one command after another.
pub trait Service {
    // From the first state, the command may get the answer (`None`: out of memory) and leave the last state.
    ghost answers: { Self → Asked → Option Answer → Self → Type 0 };

    /// Answers the command. The clause `requires` repeats the bound `Sync`, since an impl does not get the bounds of its trait's method.
    fn ask<H: Wait + Threads + Sync>(&mut self, rt: &H, alloc: Global, command: &Command) -> Reply
        requires { IsSync H.row }
        ensures { answers self.old (command_view command.now) (reply_view result) self.new };

    /// Does what `ask` does, but takes the command by value, so that the body of a bulk can be dropped once its documents are read.
    fn execute<H: Wait + Threads + Sync>(
        &mut self,
        rt: &H,
        alloc: Global,
        command: Command,
    ) -> Reply
        requires { IsSync H.row }
        ensures { answers self.old (command_view command) (reply_view result) self.new }
    {
        self.ask(rt, alloc, &command)
    }
}

/// An engine for one caller, and the number of workers, 1 to 32, with which it answers.
#[derive(Drop)]
pub struct Solo<P> {
    pub engine: Engine<P>,
    pub workers: usize,
    ghost some_worker: { 1 ≤ workers },
    ghost most_workers: { workers ≤ 32 },
}

impl<P: Placement + Drop> Service for Solo<P> {
    // The answer is right at each world that the engine stands for; or memory ran out, and the engine is unchanged.
    ghost answers = { λ old command answer new.
        EngineAnswers P.place old.engine command answer new.engine
        × IfNone answer (new.engine ≡ old.engine) };

    fn ask<H: Wait + Threads + Sync>(&mut self, rt: &H, alloc: Global, command: &Command) -> Reply {
        self.engine.step(rt, alloc, command, self.workers)
    }

    fn execute<H: Wait + Threads + Sync>(
        &mut self,
        rt: &H,
        alloc: Global,
        command: Command,
    ) -> Reply {
        self.engine.execute(rt, alloc, command, self.workers)
    }
}

impl<P> Handover for Solo<P> {
    // No other engine follows.
    ghost follows = { λ old new. new ≡ old };

    ghost same = { λ a. refl };

    ghost onward = { λ a b c p q. q ∙ p };
}

/// A seat at a database that other sessions use too, and the number of workers, 1 to 32, with which it answers.
#[derive(Drop)]
pub struct SeatService<D: Database, C: Keeper, P: Placement + Drop = Md5Placement>
where
    Snapshot<P>: Absorb<(), State = ()>,
{
    pub seat: Seat<D, C, P>,
    pub workers: usize,
    ghost some_worker: { 1 ≤ workers },
    ghost most_workers: { workers ≤ 32 },
}

impl<D: Database, C: Keeper, P: Placement + Drop> SeatService<D, C, P>
where
    Snapshot<P>: Absorb<(), State = ()>,
{
    /// Answers the question at the seat, with its workers, as `Seat::look` does.
    pub fn look<R: Threads + Sync>(&mut self, rt: &R, question: &Question) -> Reply
        ensures { SeatLooks D.db self.old.seat (question_view question.now) (reply_view result) self.new.seat }
    {
        self.seat.look(rt, question, self.workers)
    }
}

impl<D: Database, C: Keeper, P: Placement + Drop> Service for SeatService<D, C, P>
where
    Snapshot<P>: Absorb<(), State = ()>,
{
    // The seat gives the answer: to a read, from the commits that it has then seen; to a write, after a list of commits that begins with
    // those that it had seen. A command for which memory ran out makes no commit.
    ghost answers = { λ old command answer new. Answered D.db old.seat command answer new.seat };

    fn ask<H: Wait + Threads + Sync>(&mut self, rt: &H, alloc: Global, command: &Command) -> Reply {
        match command.copy(alloc) {
            Ok(command) => self.seat.answer(rt, command, self.workers),
            Err(_) => Reply::NoMemory,
        }
    }

    fn execute<H: Wait + Threads + Sync>(
        &mut self,
        rt: &H,
        _alloc: Global,
        command: Command,
    ) -> Reply {
        self.seat.answer(rt, command, self.workers)
    }
}

impl<D: Database, C: Keeper, P: Placement + Drop> Handover for SeatService<D, C, P>
where
    Snapshot<P>: Absorb<(), State = ()>,
{
    // The second seat has seen all commits that the first one has seen.
    ghost follows = { λ old new. IsPrefix old.seat.seen new.seat.seen };

    ghost same = { λ a. itself a.seat.seen };

    ghost onward = { λ a b c p q. in_turn a.seat.seen b.seat.seen c.seat.seen p q };
}

impl<D: Database, C: Keeper, P: Placement + Drop> Learner for SeatService<D, C, P>
where
    Snapshot<P>: Absorb<(), State = ()>,
{
    // A client carries the commits that its last seat had seen.
    type Seen = Seen<D>;

    ghost shows = { λ seen state. seen ≡ state.seat.seen };

    fn seen(&self) -> Seen<D> {
        self.seat.seen()
    }

    fn has_failed(&self) -> bool {
        false
    }

    fn learn(&mut self, seen: &Seen<D>) {
        self.seat.learn(seen);
    }
}
