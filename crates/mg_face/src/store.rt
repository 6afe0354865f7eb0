//! What a face asks.
ghost use denote.Param.Send.{IsSync};
ghost use Rattle.std.specs.Prelude.{Option};
ghost use Rattle.mg_engine.specs.Commands.{Answer};
ghost use Rattle.mg_engine.specs.Questions.{Question};
ghost use Rattle.mg_engine.specs.QuestionView.{question_view};
ghost use Rattle.mg_engine.specs.View.{reply_view};

use mg_engine::{Question, Reply};
use mg_http::Service;
use std::alloc::Global;
use std::sync::Wait;
use std::thread::Threads;

/// A store that answers commands, and questions beside them.
pub trait Store: Service {
    // From the first state, the question may get the answer (`None`: out of memory) and leave the last state.
    ghost sees: { Self → Question → Option Answer → Self → Type 0 };

    /// Answers the question.
    fn look<H: Wait + Threads + Sync>(
        &mut self,
        rt: &H,
        alloc: Global,
        question: &Question,
    ) -> Reply
        requires { IsSync H.row }
        ensures { sees self.old (question_view question.now) (reply_view result) self.new };

    /// Whether the store is lost, and keeps no write any more.
    fn is_lost(&self) -> bool;
}
