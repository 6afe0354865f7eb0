//! Tests of mg_wire: the bytes of whole conversations, written by hand after RFC 9110 and RFC 9112. That a call succeeds, that a response has
//! the bytes of its parts, and what a refusal says.

mod conversations;
mod echo;
