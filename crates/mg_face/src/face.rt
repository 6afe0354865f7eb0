//! The service.
ghost use denote.Param.Send.{IsSync};
ghost use Rattle.std.specs.Prelude.{◌≡◌, ◌⊎◌, map};
ghost use Rattle.std.specs.String.{string_bytes};
ghost use Rattle.mg_wire.specs.Request.{field_parts, fields_in};
ghost use Rattle.mg_wire.specs.Response.{IsBlank};
ghost use Rattle.mg_face.specs.Answer.{IsAnswered, IsBegun, IsLack, answer_of_said};
ghost use Rattle.mg_engine.specs.QuestionView.{question_view};
ghost use Rattle.mg_engine.specs.View.{command_view, reply_view};
ghost use Rattle.mg_face.specs.Face.{Carries, GoesOn, IsFound, IsShown, Serves};
ghost use Rattle.mg_face.specs.Plan.{plan_of, plan_view};
ghost use Rattle.mg_face.specs.Way.{way_view};

use crate::answer::{begin, fill, lack, say, say_lost, status_of};
use crate::clock::date_of;
use crate::ids::draw;
use crate::plan::{Plan, Way, plan_of};
use crate::said::Said;
use crate::show::show;
use crate::store::Store;
use httpdate::HttpDate;
use mg_engine::{Command, Question, Reply};
use mg_live::Database;
use mg_server::{Handover, Learner};
use mg_value::ReadBuffer;
use mg_wire::{Field, Request, Response, Service};
use rand_chacha::ChaCha20Rng;
use rand_core::SeedableRng;
use std::alloc::Global;
use std::marker::{Model, PhantomData};
use std::rt::HostRuntime;
use std::sync::Wait;
use std::thread::Threads;

/// A store, as an HTTP service for one database. Contracts see the store.
#[derive(Drop)]
pub struct Face<D: Database, S: Drop> {
    alloc: Global,
    db: String,
    store: S,
    /// Draws a number for each request, from which its ids are counted.
    source: ChaCha20Rng,
    /// Memory for reading JSON, kept from request to request.
    buffer: ReadBuffer,
    /// Says the date of each response, and of each refusal of a connection.
    clock: HostRuntime,
    of: PhantomData<D>,
}

impl<D: Database, S: Drop> Model for Face<D, S> {
    ghost use Rattle.std.specs.Prelude.{◌≡◌};
    ghost use Rattle.std.specs.String.{string_bytes};

    ghost Value = { S };

    ghost coded = { S.code };

    ghost view = { λ f. f.store };

    ghost invariant = { λ f. string_bytes f.db ≡ D.db };
}

impl<D: Database, S: Store + Drop> Face<D, S> {
    /// Makes the face of a store; `db` is the name of the database, and the clock is the system's. The seed is a secret of the system's random
    /// source, and no other face gets it, so that ids of two faces are the same only by chance. Allocates nothing. From request to request it
    /// keeps a `ReadBuffer`: a table of 16 KiB in itself, and five bytes for each byte of the longest text that it read, less than 640 KiB.
    pub fn new(
        alloc: Global,
        clock: HostRuntime,
        db: String,
        seed: [u8; 32],
        store: S,
    ) -> Face<D, S>
        requires { string_bytes db ≡ D.db }
        ensures { result ≡ store }
    {
        Face {
            alloc,
            db,
            store,
            source: ChaCha20Rng::from_seed(seed),
            buffer: ReadBuffer::new(alloc),
            clock,
            of: PhantomData,
        }
    }

    /// Executes a command, and shows its answer in a response that has begun.
    fn execute<H: Wait + Threads + Sync>(
        &mut self,
        rt: &H,
        fields: &[Field],
        command: Command,
        way: Way,
        response: &mut Response,
    )
        requires sync { IsSync H.row }
        requires begun { IsBegun response.old }
        ensures { IsShown D.db (map field_parts fields.now) (S.answers self.old (command_view command)) (way_view way) response.new self.new }
    {
        let reply = self.store.execute(rt, self.alloc, command);
        show(
            self.alloc,
            self.db.as_str(),
            fields,
            response,
            way,
            reply,
            &mut self.buffer,
        );
    }

    /// Executes the command after the reply to a `Get` that found its document; else shows this reply.
    fn go_on<H: Wait + Threads + Sync>(
        &mut self,
        rt: &H,
        fields: &[Field],
        reply: Reply,
        command: Command,
        way: Way,
        response: &mut Response,
    )
        requires sync { IsSync H.row }
        requires begun { IsBegun response.old }
        ensures { GoesOn S.answers D.db (map field_parts fields.now) (reply_view reply) (command_view command) (way_view way)
            self.old response.new self.new }
    {
        match reply {
            Reply::NoMemory => {
                drop(command);
                lack(self.alloc, response);
            }
            Reply::Full { status, body } => {
                if status == 200 {
                    self.execute(rt, fields, command, way, response);
                } else {
                    drop(command);
                    fill(response, status_of(status), body);
                }
            }
        }
    }

    /// Executes a command if a document with this id is found; else shows why it is not.
    fn find<H: Wait + Threads + Sync>(
        &mut self,
        rt: &H,
        fields: &[Field],
        id: String,
        command: Command,
        way: Way,
        response: &mut Response,
    )
        requires sync { IsSync H.row }
        requires begun { IsBegun response.old }
        ensures { IsFound S.answers D.db (map field_parts fields.now) (string_bytes id) (command_view command) (way_view way)
            self.old response.new self.new }
    {
        let get = Command::Get {
            id,
            conflicts: false,
        };
        let reply = self.store.execute(rt, self.alloc, get);
        self.go_on(rt, fields, reply, command, way, response);
    }

    /// Asks a question, and shows its answer in a response that has begun.
    fn look<H: Wait + Threads + Sync>(
        &mut self,
        rt: &H,
        fields: &[Field],
        question: &Question,
        way: Way,
        response: &mut Response,
    )
        requires sync { IsSync H.row }
        requires begun { IsBegun response.old }
        ensures { IsShown D.db (map field_parts fields.now) (S.sees self.old (question_view question.now)) (way_view way) response.new self.new }
    {
        let reply = self.store.look(rt, self.alloc, question);
        show(
            self.alloc,
            self.db.as_str(),
            fields,
            response,
            way,
            reply,
            &mut self.buffer,
        );
    }

    /// Says what is said at once, in a response that has begun; not that writes are kept, once the store is lost.
    fn speak(&self, response: &mut Response, said: Said)
        requires { IsBegun response.old }
        ensures { IsAnswered (answer_of_said D.db said) response.new ⊎ IsLack response.new }
    {
        if said.is_of_store() && self.store.is_lost() {
            say_lost(self.alloc, response);
            return;
        }
        if say(self.alloc, self.db.as_str(), response, said).is_err() {
            lack(self.alloc, response);
        }
    }

    /// Carries out the plan of a request with these fields, in a response that has begun.
    fn carry_out<H: Wait + Threads + Sync>(
        &mut self,
        rt: &H,
        fields: &[Field],
        plan: Plan,
        response: &mut Response,
    )
        requires sync { IsSync H.row }
        requires begun { IsBegun response.old }
        ensures { Carries S.answers S.sees D.db (map field_parts fields.now) (plan_view plan)
            self.old response.new self.new }
    {
        match plan {
            Plan::Says(said) => self.speak(response, said),
            Plan::Asks(command, way) => self.execute(rt, fields, command, way, response),
            Plan::Finds(id, command, way) => self.find(rt, fields, id, command, way, response),
            Plan::Looks(question, way) => self.look(rt, fields, &question, way, response),
        }
    }

    /// Answers a request, for which this number was drawn.
    fn answer<H: Wait + Threads + Sync>(
        &mut self,
        rt: &H,
        drawn: u128,
        request: &Request,
        response: &mut Response,
    )
        requires sync { IsSync H.row }
        requires blank { IsBlank response.old }
        ensures { Carries S.answers S.sees D.db (fields_in request.now) (plan_of D.db drawn request.now)
            self.old response.new self.new }
    {
        if begin(response, date_of(&self.clock)).is_err() {
            lack(self.alloc, response);
            return;
        }
        match plan_of(
            self.alloc,
            self.db.as_str(),
            drawn,
            request,
            &mut self.buffer,
        ) {
            Ok(plan) => self.carry_out(rt, request.fields.as_slice(), plan, response),
            Err(_) => lack(self.alloc, response),
        }
    }
}

impl<D: Database, S: Store + Drop> Service for Face<D, S> {
    // The response is the face's to the request, from the store's first state to its second.
    ghost answers = { λ old request response new. Serves S.answers S.sees D.db old request response new };

    fn call<H: Wait + Threads + Sync>(
        &mut self,
        rt: &H,
        request: &Request,
        response: &mut Response,
    ) {
        let drawn = draw(&mut self.source);
        self.answer(rt, drawn, request, response);
    }

    fn date(&self) -> Option<HttpDate> {
        date_of(&self.clock)
    }
}

impl<D: Database, S: Handover + Drop> Handover for Face<D, S> {
    // A client may go from face to face as it may go from store to store.
    ghost follows = { λ old new. S.follows old new };

    ghost same = { λ a. S.same a };

    ghost onward = { λ a b c p q. S.onward a b c p q };
}

impl<D: Database, S: Learner + Drop> Learner for Face<D, S> {
    // A client carries what it carries from store to store.
    type Seen = S::Seen;

    ghost shows = { λ seen state. S.shows seen state };

    fn seen(&self) -> S::Seen {
        self.store.seen()
    }

    fn has_failed(&self) -> bool {
        self.store.has_failed()
    }

    fn learn(&mut self, seen: &S::Seen) {
        self.store.learn(seen);
    }
}
