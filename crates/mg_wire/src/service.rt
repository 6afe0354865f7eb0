//! What a connection asks.
ghost use denote.Param.Send.{IsSync};
ghost use Rattle.mg_wire.specs.declared.request.Request.{Request};
ghost use Rattle.mg_wire.specs.declared.response.Response.{Response};
ghost use Rattle.mg_wire.specs.Response.{IsBlank};

use crate::request::Request;
use crate::response::Response;
use httpdate::HttpDate;
use std::sync::Wait;
use std::thread::Threads;

/// Answers requests. It may wait and start threads, by the handle. One value may serve many connections.
pub trait Service {
    // In the first state, the service may answer the request with the response, and is then in the second state.
    ghost answers: { Self → Request → Response → Self → Type 0 };

    /// Fills the response, which is blank. A service that lacks memory responds that it does.
    fn call<H: Wait + Threads + Sync>(&mut self, rt: &H, request: &Request, response: &mut Response)
        requires sync { IsSync H.row }
        requires blank { IsBlank response.old }
        ensures { answers self.old request.now response.new self.new };

    /// The date of a response that the connection gives by itself, if the service has a clock.
    fn date(&self) -> Option<HttpDate> {
        None
    }
}
