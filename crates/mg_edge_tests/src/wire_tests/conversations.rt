//! Conversations of one client, from its bytes to those that it gets.

use crate::wire_tests::echo::Echo;
use http1::Limits;
use httpdate::HttpDate;
use mg_server::{Fault, Outcome, turn};
use mg_wire::{Bounds, Connection};
use std::alloc::Global;
use std::io::ErrorKind;
use std::process::Abort;
use std::str;
use std::sync::Wait;
use std::test::Fail;
use std::thread::Threads;

const BOUNDS: Bounds = Bounds {
    limits: Limits {
        max_head_len: 256,
        max_extensions_len: 64,
        max_trailers_len: 64,
    },
    max_body: 16,
    max_pending: 65536,
};

/// Returns what a new connection sends for the input of a client, which then ends its side.
fn reply<H: Abort + Wait + Threads + Sync>(
    rt: &H,
    alloc: Global,
    date: Option<HttpDate>,
    input: &str,
) -> Result<Vec<u8>, Fail> {
    let mut connection = Connection::new(alloc, BOUNDS);
    let mut service = Echo { date };
    let mut reader = input.as_bytes();
    let mut sent = Vec::new(alloc);
    for _ in 0..64 {
        match turn(rt, &mut connection, &mut service, &mut reader, &mut sent) {
            Ok(Outcome::Ended) | Ok(Outcome::Done) => return Ok(sent),
            Ok(_) => {}
            Err(Fault::Read(error)) if error.kind() == ErrorKind::Interrupted => {}
            Err(_) => return Err("a turn failed".into()),
        }
    }
    Err("the connection goes on".into())
}

fn check<H: Abort + Wait + Threads + Sync>(
    rt: &H,
    alloc: Global,
    cases: &[(&str, &str)],
) -> Result<(), Fail> {
    for (input, expected) in cases {
        let sent = reply(rt, alloc, None, input)?;
        assert_eq!(rt; str::from_utf8(&sent).unwrap_or(""), *expected);
    }
    Ok(())
}

// RFC 9112, sections 7.1, 9.3 and 9.3.2; RFC 9110, sections 9.3.2 and 10.1.1.
#[test]
fn answers_each_request_in_order(rt: HostRuntime) -> Result<(), Fail> {
    check(
        &rt,
        rt.alloc(),
        &[
            (
                "GET /a HTTP/1.1\r\nHost: h\r\n\r\n",
                "HTTP/1.1 200 OK\r\ncontent-type: text/plain\r\ncontent-length: 7\r\n\r\nGET /a ",
            ),
            (
                "POST / HTTP/1.1\r\nHost: h\r\nTransfer-Encoding: chunked\r\n\r\n3\r\nabc\r\nA;x=y\r\n0123456789\r\n0\r\nT: v\r\n\r\n",
                "HTTP/1.1 200 OK\r\ncontent-type: text/plain\r\ncontent-length: 20\r\n\r\nPOST / abc0123456789",
            ),
            (
                "HEAD /1 HTTP/1.1\r\nHost: h\r\n\r\nPOST /2 HTTP/1.1\r\nHost: h\r\nConnection: close\r\nContent-Length: 2\r\n\r\nhiGET /3 HTTP/1.1\r\nHost: h\r\n\r\n",
                "HTTP/1.1 200 OK\r\ncontent-type: text/plain\r\ncontent-length: 8\r\n\r\nHTTP/1.1 200 OK\r\ncontent-type: text/plain\r\ncontent-length: 10\r\nconnection: close\r\n\r\nPOST /2 hi",
            ),
            (
                "PUT /a HTTP/1.1\r\nHost: h\r\nExpect: 100-continue\r\nContent-Length: 2\r\n\r\nhi",
                "HTTP/1.1 100 Continue\r\n\r\nHTTP/1.1 200 OK\r\ncontent-type: text/plain\r\ncontent-length: 9\r\n\r\nPUT /a hi",
            ),
        ],
    )
}

// RFC 9110, section 15.4.5, and RFC 9112, section 6.3.
#[test]
fn a_304_ends_with_its_head(rt: HostRuntime) -> Result<(), Fail> {
    check(
        &rt,
        rt.alloc(),
        &[(
            "GET /304 HTTP/1.1\r\nHost: h\r\n\r\nHEAD /304 HTTP/1.1\r\nHost: h\r\n\r\nGET /1 HTTP/1.1\r\nHost: h\r\n\r\n",
            "HTTP/1.1 304 Not Modified\r\ncontent-type: text/plain\r\n\r\nHTTP/1.1 304 Not Modified\r\ncontent-type: text/plain\r\n\r\nHTTP/1.1 200 OK\r\ncontent-type: text/plain\r\ncontent-length: 7\r\n\r\nGET /1 ",
        )],
    )
}

// The example of RFC 9110, section 5.6.7, which is 784,111,777 seconds after 1970; section 6.6.1.
#[test]
fn sends_the_date_of_a_response_and_of_a_refusal(rt: HostRuntime) -> Result<(), Fail> {
    let Ok(date) = HttpDate::from_unix_secs(784_111_777) else {
        return Err("no date".into());
    };
    let sent = reply(
        &rt,
        rt.alloc(),
        Some(date),
        "GET /a HTTP/1.1\r\nHost: h\r\n\r\nGET / HTTP/1.1\r\n\r\n",
    )?;
    assert_eq!(&rt;
        str::from_utf8(&sent).unwrap_or(""),
        "HTTP/1.1 200 OK\r\ndate: Sun, 06 Nov 1994 08:49:37 GMT\r\ncontent-type: text/plain\r\ncontent-length: 7\r\n\r\nGET /a HTTP/1.1 400 Bad Request\r\ndate: Sun, 06 Nov 1994 08:49:37 GMT\r\ncontent-type: application/json\r\ncontent-length: 58\r\nconnection: close\r\n\r\n{\"error\":\"bad_request\",\"reason\":\"the request is invalid\"}\n"
    );
    Ok(())
}

// RFC 9112, sections 3.2, 6.1 and 8; RFC 9110, sections 9.3.6, 15.5.14 and 15.5.15.
#[test]
fn refuses_by_its_reason(rt: HostRuntime) -> Result<(), Fail> {
    check(
        &rt,
        rt.alloc(),
        &[
            (
                "GET / HTTP/1.1\r\n\r\n",
                "HTTP/1.1 400 Bad Request\r\ncontent-type: application/json\r\ncontent-length: 58\r\nconnection: close\r\n\r\n{\"error\":\"bad_request\",\"reason\":\"the request is invalid\"}\n",
            ),
            (
                "HEAD / HTTP/1.1\r\nHost: h\r\n\r\nPOST / HTTP/1.1\r\nHost: h\r\nContent-Length: 3\r\n\r\nab",
                "HTTP/1.1 200 OK\r\ncontent-type: text/plain\r\ncontent-length: 7\r\n\r\nHTTP/1.1 400 Bad Request\r\ncontent-type: application/json\r\ncontent-length: 55\r\nconnection: close\r\n\r\n{\"error\":\"bad_request\",\"reason\":\"the request was cut\"}\n",
            ),
            (
                "POST / HTTP/1.1\r\nHost: h\r\nContent-Length: 17\r\n\r\n",
                "HTTP/1.1 413 Content Too Large\r\ncontent-type: application/json\r\ncontent-length: 65\r\nconnection: close\r\n\r\n{\"error\":\"too_large\",\"reason\":\"the request entity is too large\"}\n",
            ),
            (
                "POST / HTTP/1.1\r\nHost: h\r\nTransfer-Encoding: chunked\r\n\r\n8\r\n01234567\r\n9\r\n012345678\r\n0\r\n\r\n",
                "HTTP/1.1 413 Content Too Large\r\ncontent-type: application/json\r\ncontent-length: 65\r\nconnection: close\r\n\r\n{\"error\":\"too_large\",\"reason\":\"the request entity is too large\"}\n",
            ),
            (
                "POST / HTTP/1.1\r\nHost: h\r\nTransfer-Encoding: gzip, chunked\r\n\r\n",
                "HTTP/1.1 501 Not Implemented\r\ncontent-type: application/json\r\ncontent-length: 63\r\nconnection: close\r\n\r\n{\"error\":\"not_implemented\",\"reason\":\"unknown transfer coding\"}\n",
            ),
            (
                "CONNECT h:80 HTTP/1.1\r\nHost: h\r\n\r\n",
                "HTTP/1.1 501 Not Implemented\r\ncontent-type: application/json\r\ncontent-length: 63\r\nconnection: close\r\n\r\n{\"error\":\"not_implemented\",\"reason\":\"CONNECT is not answered\"}\n",
            ),
        ],
    )
}

// RFC 9110, section 9.3.2; RFC 9112, section 6.3. The length is that of the same refusal with its content.
#[test]
fn refuses_head_without_content(rt: HostRuntime) -> Result<(), Fail> {
    check(
        &rt,
        rt.alloc(),
        &[
            (
                "HEAD / HTTP/1.1\r\nHost: h\r\nTransfer-Encoding: gzip, chunked\r\n\r\n",
                "HTTP/1.1 501 Not Implemented\r\ncontent-type: application/json\r\ncontent-length: 63\r\nconnection: close\r\n\r\n",
            ),
            (
                "GET /a HTTP/1.1\r\nHost: h\r\n\r\nHEAD b HTTP/1.1\r\nHost: h\r\n\r\n",
                "HTTP/1.1 200 OK\r\ncontent-type: text/plain\r\ncontent-length: 7\r\n\r\nGET /a HTTP/1.1 400 Bad Request\r\ncontent-type: application/json\r\ncontent-length: 57\r\nconnection: close\r\n\r\n",
            ),
            (
                "GET b HTTP/1.1\r\nHost: h\r\n\r\n",
                "HTTP/1.1 400 Bad Request\r\ncontent-type: application/json\r\ncontent-length: 57\r\nconnection: close\r\n\r\n{\"error\":\"bad_request\",\"reason\":\"the target is invalid\"}\n",
            ),
        ],
    )
}
