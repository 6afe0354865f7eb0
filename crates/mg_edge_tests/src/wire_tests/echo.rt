//! A service that says what it was asked.

use bytes::Bytes;
use httpdate::HttpDate;
use mg_server::Handover;
use mg_wire::{Request, Response, Service, Status};
use std::alloc::AllocError;
use std::sync::Wait;
use std::thread::Threads;

/// Responds with the method, the target and the body of a request, and with this date; to a request for `/304`, that it has not changed. Its
/// clock shows this date.
#[derive(Drop)]
pub(crate) struct Echo {
    pub(crate) date: Option<HttpDate>,
}

impl Handover for Echo {
    ghost follows = { λ _ _. Unit {0} };

    ghost same = { λ _. tt };

    ghost onward = { λ _ _ _ _ _. tt };
}

fn write_body(request: &Request, response: &mut Response) -> Result<(), AllocError> {
    response.body.extend_from_slice(request.method.as_slice())?;
    response.body.push(b' ')?;
    response.body.extend_from_slice(request.target.as_slice())?;
    response.body.push(b' ')?;
    response.body.extend_from_slice(request.body.as_slice())
}

impl Service for Echo {
    ghost answers = { λ _ _ _ _. Unit {0} };

    fn call<H: Wait + Threads + Sync>(
        &mut self,
        _rt: &H,
        request: &Request,
        response: &mut Response,
    ) {
        response.date = self.date;
        if request.target.as_slice() == b"/304".as_slice() {
            response.status = Status::NotModified;
        }
        let text = Bytes::from_static(b"text/plain");
        let is_added = response.fields.add(b"content-type", text).is_ok();
        if !is_added || write_body(request, response).is_err() {
            response.status = Status::ServiceUnavailable;
        }
    }

    fn date(&self) -> Option<HttpDate> {
        self.date
    }
}
