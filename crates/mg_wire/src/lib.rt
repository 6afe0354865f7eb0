//! A connection of HTTP/1.1 as a value, without input or output (RFC 9112, RFC 9110).
//!
//! Promises. A `Connection` reads and writes nothing: it is what an edge drives (`mg_server::Conversation`). What
//! was received begins with the requests that its service was asked, and what was sent and waits to be sent is
//! their responses, in order, each to its own request, with a `100 Continue` exactly before those that ask for
//! one (`told`). It reads on only to await a request (`rests`): each whole one is answered, what came of the next
//! head is no error, and the client has not ended its side. A request that the client cuts short is refused: the
//! end of the input is reported only between two requests. A service is asked only requests with one `Host`, a
//! target of a form that the method may have, no `CONNECT` (`IsProper`), and a body that is no longer than may
//! be. Each response that a service gives is sent: no value of `Status` or `Fields` is refused, and to its fields
//! only `Content-Length` and `Connection` are added. It has a `Date` exactly if the service gives its date, since
//! a connection has no clock. A refusal has the date that the service shows, if it shows one (`Service::date`):
//! `told` leaves open which. It has no content where the bytes that are refused begin with `HEAD ` (RFC 9110,
//! section 9.3.2). A refusal has a reason that holds whatever bytes follow (`Refuses`); want of memory is one
//! only for a read, and for a request whose head has come. The connection closes after a response only if the
//! request or the response asks for it, and goes on only if neither does (`keeps_open`). It is done as soon as
//! its last response is sent: what the client still sends is the edge's to drop, for some time, once it has
//! closed its own side (RFC 9112, section 9.6). A connection that is idle gives its buffers back.
#![tactic(auto)]

mod advance;
mod body;
mod bounds;
mod connection;
mod conversation;
mod fields;
mod refusal;
mod reply;
mod request;
mod response;
mod sendable;
mod service;
mod start;
mod status;
mod target;

pub use crate::bounds::Bounds;
pub use crate::connection::{Connection, Ending};
pub use crate::fields::{FieldError, Fields, MAX_LINES_LEN, MAX_RESPONSE_FIELDS};
pub use crate::refusal::Refusal;
pub use crate::request::{Field, Request};
pub use crate::response::Response;
pub use crate::service::Service;
pub use crate::status::Status;
