// Drives client 1 and n servers, and then clients 1 and 2, through writes and reads with the proved ends
// alone, and prints each message as it is sent and each outcome: with f = 0 and n = 1, with f = 1 and n = 4,
// and with f = 1 and n = 5. With two clients and f = 1 the last server serves nothing, so that n - f have to
// be enough.
//
// `tests/exchange_oracle.py` works the same lines out from 01, and `stdout` is what it wrote. That comparison
// says that the lines are right; what is proved here is that the program never stops short, but where its
// output cannot be written, and what a read or a write makes of a client's memory, and a served message of its
// server's.
#![tactic(auto)]

ghost use Rattle.std.specs.Prelude.{◌+◌, ◌<◌, ◌≤◌};

mod group;
mod print;

use group::{Group, Who};
use message::Entry;
use std::io;

// 29 February 2024 and 29 February 2028, 40 copies, open.
const FIRST: Entry = Entry(0x7E_82E8_0141);

const SECOND: Entry = Entry(0x7E_C2E8_0141);

// ---- who reads and writes when, and which servers serve which message. A client never has its own write
// forwarded: on each channel its WRITE_INFO comes behind its DONE. So client 2 reads while client 1 writes.

// Client 1 writes: GET_INFO, which is its message j, DONE and WRITE_INFO reach the servers that serve.
fn whole_write(rt: &impl Print, group: &mut Group, entry: Entry, j: usize) -> io::Result<()>
    requires { j + 2 < 10 }
{
    group.write(rt, Who::First, entry)?;
    for message in j..j + 3 {
        group.serve_all(rt, Who::First, message)?;
    }
    Ok(())
}

// Client 1 reads: GET_INFO, its message j, and DONE reach them.
fn whole_read(rt: &impl Print, group: &mut Group, j: usize) -> io::Result<()>
    requires { j + 1 < 10 }
{
    group.read(rt, Who::First)?;
    group.serve_all(rt, Who::First, j)?;
    group.serve_all(rt, Who::First, j + 1)
}

// Client 1 writes, reads, writes and reads.
fn one_client(rt: &impl Print, n: u8, f: u8, live: u8) -> io::Result<()>
    requires { live ≤ 5 }
{
    let mut group = Group::new(n, f, live);
    whole_write(rt, &mut group, FIRST, 0)?;
    whole_read(rt, &mut group, 3)?;
    whole_write(rt, &mut group, SECOND, 5)?;
    whole_read(rt, &mut group, 8)
}

// Client 2 reads; its DONE stays on its way.
fn other_read(rt: &impl Print, group: &mut Group) -> io::Result<()> {
    group.read(rt, Who::Second)?;
    group.serve_all(rt, Who::Second, 0)
}

// Client 1 writes again, and client 2 starts to read before server 1 serves the WRITE_INFO. The server still
// has client 2 as a reader: the forward is taken before any INFO.
fn second_write(rt: &impl Print, group: &mut Group) -> io::Result<()> {
    group.write(rt, Who::First, SECOND)?;
    group.serve_all(rt, Who::First, 5)?;
    group.serve_all(rt, Who::First, 6)?;
    group.read(rt, Who::Second)?;
    group.serve_from(rt, Who::First, 7, 1, 1)
}

// The read goes on. With n = 4 no pair counts until server 2 forwards the write, and what server 3 forwards
// is dropped. With n = 5 the fourth INFO already makes the first write count.
fn last_read(rt: &impl Print, group: &mut Group) -> io::Result<()> {
    group.serve_all(rt, Who::Second, 1)?;
    group.serve_all(rt, Who::Second, 2)?;
    group.serve_from(rt, Who::First, 7, 2, group.live)?;
    group.serve_all(rt, Who::Second, 3)
}

fn two_clients(rt: &impl Print, n: u8, f: u8, live: u8) -> io::Result<()>
    requires { live ≤ 5 }
{
    let mut group = Group::new(n, f, live);
    whole_write(rt, &mut group, FIRST, 0)?;
    whole_read(rt, &mut group, 3)?;
    other_read(rt, &mut group)?;
    second_write(rt, &mut group)?;
    last_read(rt, &mut group)
}

fn main(rt: HostRuntime) -> io::Result<()> {
    println!(rt; "one client, f = 0, n = 1")?;
    one_client(&rt, 1, 0, 1)?;
    println!(rt; "one client, f = 1, n = 4")?;
    one_client(&rt, 4, 1, 4)?;
    println!(rt; "two clients, f = 0, n = 1")?;
    two_clients(&rt, 1, 0, 1)?;
    println!(rt; "two clients, f = 1, n = 4")?;
    two_clients(&rt, 4, 1, 3)?;
    println!(rt; "one client, f = 1, n = 5")?;
    one_client(&rt, 5, 1, 5)?;
    println!(rt; "two clients, f = 1, n = 5")?;
    two_clients(&rt, 5, 1, 4)
}
