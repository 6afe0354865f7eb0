//! The arguments and the ends of the program, and `serve` over sockets of the loopback, one connection for each seat. A failing test ends the
//! process.
ghost use Rattle.std.specs.Prelude.{◌≡◌, string_bytes};

use crate::arguments::settings;
use crate::ends::{Exit, STOPPED, ending};
use crate::serving::serve;
use mg_http::SessionEnd;
use mg_live::{CommitLog, Database, Live, WaitForReaders};
use mg_shard::Md5Placement;
use std::io;
use std::io::{Eprint, Write};
use std::marker::Brand;
use std::net::{Net, Shutdown, SocketAddr, TcpListener, TcpStream};
use std::process::Abort;
use std::sync::Wait;
use std::sync::ledger::Blank;
use std::thread::{Threads, join};
use std::time::Clock;

const BULK: &str =
    "POST /db/_bulk_docs HTTP/1.1\r\nContent-Length: 60\r\n\r\n{\"docs\":[{\"_id\":\"d1\",\"_rev\":\"1-a\",\"v\":1}],\"new_edits\":false}";

const DONE: &str =
    "HTTP/1.1 201 Created\r\nContent-Type: application/json\r\nContent-Length: 3\r\n\r\n[]\n";

const FIND: &str = "POST /db/_find HTTP/1.1\r\nContent-Length: 20\r\n\r\n{\"selector\":{\"v\":1}}";

// The bookmark spells `[null,"_all_docs","asc",["d1"],"d1"]`.
const PAGE: &str =
    "HTTP/1.1 200 OK\r\nContent-Type: application/json\r\nContent-Length: 105\r\n\r\n{\"bookmark\":\"W251bGwsIl9hbGxfZG9jcyIsImFzYyIsWyJkMSJdLCJkMSJd\",\"docs\":[{\"_id\":\"d1\",\"_rev\":\"1-a\",\"v\":1}]}\n";

// Sends a message over a connection of its own, and checks what comes back until the connection is closed.
fn expect_reply<R: Net<Stream = TcpStream> + AllocGlobal + Abort>(
    rt: &R,
    address: SocketAddr,
    message: &str,
    reply: &str,
) {
    let mut stream = TcpStream::connect(rt, address).expect(rt, "it connects");
    stream
        .write_all(message.as_bytes())
        .expect(rt, "the message is sent");
    stream
        .shutdown(Shutdown::Write)
        .expect(rt, "the message is all");
    let found = io::read_to_string(rt.alloc(), stream).expect(rt, "the reply is read");
    assert!(rt; found.as_str() == reply);
}

// Serves two clients, one after another, at two seats that end after one connection each.
fn serve_two<
    D: Database + Send + Sync,
    R: Wait
        + Threads
        + Abort
        + Send
        + Sync
        + Copy
        + Drop
        + AllocGlobal
        + Clock
        + Eprint
        + Net<Listener = TcpListener, Stream = TcpStream>,
>(rt: R, blank: Blank, commit_log: CommitLog, db: String)
    requires name { string_bytes db ≡ D.db }
    requires commit_log { commit_log ≡ D.commit_log }
    requires ledger { (blank.name ≡ D.name) × (blank.parts ≡ D.parts) }
    requires parts { blank.parts ≡ 2 }
    requires opened { 1 ≡ D.shards }
{
    let Ok((live, seats)) = Live::<D, WaitForReaders<R>>::open(
        WaitForReaders(rt),
        rt.alloc(),
        blank,
        commit_log,
        db.as_str(),
        Md5Placement,
        1,
        2,
    ) else {
        rt.panic("memory")
    };
    let listener = TcpListener::bind(&rt, "127.0.0.1:0").expect(&rt, "it listens");
    let address = listener.local_addr().expect(&rt, "it has an address");
    let (_, exit) = join(
        &rt,
        || {
            expect_reply(&rt, address, BULK, DONE);
            expect_reply(&rt, address, FIND, PAGE);
        },
        || -> Exit
            requires { live ≡ D.parts }
        { serve::<D, R>(rt, db.as_str(), listener, live, seats, 1, Some(1)) },
    );
    assert!(rt; exit == STOPPED);
}

// The second client is served at the other seat. It fails if that seat does not find what the first one wrote, or serves a second client.
#[test]
fn two_clients_over_tcp(rt: HostRuntime) {
    let db = String::from_str(rt.alloc(), "db").expect(&rt, "memory");
    serve_two::<Brand, _>(rt, Blank::new(2), CommitLog::new(), db)
}

fn arguments<R: AllocGlobal + Abort>(rt: &R, words: &[&str]) -> Vec<String> {
    let mut args = Vec::new(rt.alloc());
    for word in words {
        let arg = String::from_str(rt.alloc(), word).expect(rt, "memory");
        args.push(arg).expect(rt, "memory");
    }
    args
}

fn expect_usage<R: AllocGlobal + Abort>(rt: &R, words: &[&str]) {
    assert!(rt; settings(&arguments(rt, words)).is_none());
}

#[test]
fn settings_of_arguments(rt: HostRuntime) {
    let args = arguments(&rt, &["a_$()+-0", "064", "32", "16", "-"]);
    let Some(asked) = settings(&args) else {
        rt.panic("the arguments are right")
    };
    assert!(rt; asked.db == "a_$()+-0");
    assert!(rt; asked.shards == 64);
    assert!(rt; asked.workers == 32);
    assert!(rt; asked.sessions == 16);
    assert!(rt; asked.addr == "-");
}

#[test]
fn wrong_arguments(rt: HostRuntime) {
    expect_usage(&rt, &[]);
    expect_usage(&rt, &["db", "1", "1", "1"]);
    expect_usage(&rt, &["db", "1", "1", "1", "-", "-"]);
    expect_usage(&rt, &["", "1", "1", "1", "-"]);
    expect_usage(&rt, &["Db", "1", "1", "1", "-"]);
    expect_usage(&rt, &["_db", "1", "1", "1", "-"]);
    expect_usage(&rt, &["d b", "1", "1", "1", "-"]);
    expect_usage(&rt, &["db", "0", "1", "1", "-"]);
    expect_usage(&rt, &["db", "65", "1", "1", "-"]);
    expect_usage(&rt, &["db", "1", "33", "1", "-"]);
    expect_usage(&rt, &["db", "1", "1", "17", "-"]);
    expect_usage(&rt, &["db", "1", "1", "+1", "-"]);
    expect_usage(&rt, &["db", "1", "1", "", "-"]);
}

fn expect_end<R: Abort>(rt: &R, end: SessionEnd, status: u8, line: &str) {
    let found = ending(&end);
    assert!(rt; found.0 == status);
    assert!(rt; found.1 == line);
}

#[test]
fn ends_of_sessions(rt: HostRuntime) {
    expect_end(&rt, SessionEnd::Eof, 0, "");
    expect_end(&rt, SessionEnd::Closed, 0, "");
    expect_end(&rt, SessionEnd::Refused, 1, "mangod: refused");
    expect_end(&rt, SessionEnd::ReadFault, 1, "mangod: read fault");
    expect_end(&rt, SessionEnd::WriteFault, 1, "mangod: write fault");
    expect_end(&rt, SessionEnd::Limit, 1, "mangod: limit");
}
