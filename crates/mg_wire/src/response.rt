//! A response, as a service gives it.
ghost use Rattle.std.specs.Prelude.{◌≡◌};
ghost use Rattle.mg_wire.specs.Response.{IsBlank};

use crate::fields::Fields;
use crate::status::Status;
use httpdate::HttpDate;
use std::alloc::Global;

/// A response. Whatever its parts are, it can be sent.
#[derive(Debug, Drop)]
pub struct Response {
    pub status: Status,
    /// When it was made, which is sent as its first field, `Date`. A service without a clock gives none.
    pub date: Option<HttpDate>,
    pub fields: Fields,
    /// Its content, which is sent unless its status has none.
    pub body: Vec<u8>,
}

impl Response {
    /// Makes a 200 with no date, no field and no body. Allocates nothing.
    pub fn new(alloc: Global) -> Response
        ensures { IsBlank result }
    {
        Response {
            status: Status::Ok,
            date: None,
            fields: Fields::new(alloc),
            body: Vec::new(alloc),
        }
    }
}
