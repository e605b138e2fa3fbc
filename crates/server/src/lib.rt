// The server (01: the keeper end): one pair and a set of reading clients, and what it answers to each
// message. It stands in memory that it is lent (specs/Memory). Inside a step it is loaded, goes by value, and
// is stored again.
#![tactic(auto)]

ghost use Rattle.std.specs.Prelude.{◌≡◌, true, ℕ, ◌≤◌, length};
ghost use Rattle.register.specs.Server.{stored};
ghost use Rattle.register.specs.Settings.{most_clients};
ghost use Rattle.server.specs.Memory.{server_length, loaded, numbers_of, is_sound};
ghost use Rattle.server.specs.State.{sound};
ghost use Rattle.server.specs.Serving.{sent_by, after_of, served_of, served_in, given};
ghost use Rattle.server.specs.Serving.{result_of, became, bytes_served};

use message::{Message, Pair, ReadNumber};
use refusal::Refusal;

// One pair, and the clients that read: bit d - 1 is client d.
#[derive(Clone, Copy)]
pub struct Server {
    pub pair: Pair,
    pub readers: u8,
}

// What a server sends for a message of a client. Forward: FWD of the pair to each client of the set, lowest
// first, and then WRITE_ACK with the pair's counter to the sender.
#[derive(Clone, Copy)]
pub enum Sends {
    Nothing,
    Info(ReadNumber, Pair),
    Forward(u8, Pair),
}

// A message served: the next server, and what it sends.
#[derive(Clone, Copy)]
pub struct Served {
    pub server: Server,
    pub sends: Sends,
}

// A server in memory is two numbers: the pair, and the readers.
pub const PAIR_AT: usize = 0;

pub const READERS_AT: usize = 1;

pub const LENGTH: usize = 2;

// The highest number of a client.
const MOST_CLIENTS: u32 = register::MOST_CLIENTS as u32;

// The first number that is no set of clients, and the set of all clients.
const OVER_SETS: u64 = 1 << MOST_CLIENTS;

const ALL_CLIENTS: u8 = (OVER_SETS - 1) as u8;

// The server that stands in memory.
pub fn load(memory: &[u64]) -> Server
    requires { length memory.now ≡ server_length }
    ensures { result ≡ loaded memory.now }
{
    Server {
        pair: Pair(memory[PAIR_AT]),
        readers: (memory[READERS_AT] % 256) as u8,
    }
}

// Puts it back.
pub fn store(memory: &mut [u64], server: Server)
    requires { length memory.old ≡ server_length }
    ensures { memory.new ≡ numbers_of server }
{
    let pair = server.pair;
    memory[PAIR_AT] = pair.0;
    memory[READERS_AT] = server.readers as u64;
}

// The pair of the higher timestamp; the old one where both are the same.
#[tactic(auto, unfolding(register::specs::Server::stored))]
fn higher(old: Pair, new: Pair) -> Pair
    ensures { result ≡ stored old new }
{
    if message::stamp_of(old) < message::stamp_of(new) {
        new
    } else {
        old
    }
}

// That a server is sound stands in each `requires` and is no invariant of the type: `load` loads any memory.

// GET_INFO: client d reads now, and gets INFO with its tag and the pair.
fn added(server: Server, d: u8, tag: ReadNumber) -> Served
    requires { (sound server ≡ true) × (1 ≤ d) × (d ≤ most_clients) }
    ensures { after_of d result ≡ served_of server d (Message.GetInfo tag) }
{
    let pair = server.pair;
    let bit: u8 = 1 << (d - 1);
    Served {
        server: Server {
            pair: pair,
            readers: server.readers | bit,
        },
        sends: Sends::Info(tag, pair),
    }
}

// DONE: client d reads no more.
fn removed(server: Server, d: u8) -> Served
    requires { (sound server ≡ true) × (1 ≤ d) × (d ≤ most_clients) }
    ensures { after_of d result ≡ served_of server d Message.Done }
{
    let pair = server.pair;
    let bit: u8 = 1 << (d - 1);
    let others = ALL_CLIENTS - bit;
    Served {
        server: Server {
            pair: pair,
            readers: server.readers & others,
        },
        sends: Sends::Nothing,
    }
}

// WRITE_INFO: the pair of the higher timestamp stays, the message's goes to the readers, WRITE_ACK to the
// sender.
fn replaced(server: Server, pair: Pair) -> Served
    requires { sound server ≡ true }
    ensures { (d : ℕ) → after_of d result ≡ served_of server d (Message.WriteInfo pair) }
{
    let readers = server.readers;
    let kept = higher(server.pair, pair);
    Served {
        server: Server {
            pair: kept,
            readers: readers,
        },
        sends: Sends::Forward(readers, pair),
    }
}

// Serves a message of client d. A reply is dropped: no client sends one.
pub fn after(server: Server, d: u8, message: Message) -> Served
    requires { (sound server ≡ true) × (1 ≤ d) × (d ≤ most_clients) }
    ensures { after_of d result ≡ served_of server d message }
{
    if let Message::GetInfo(tag) = message {
        return added(server, d, tag);
    }
    if let Message::Done = message {
        return removed(server, d);
    }
    let Message::WriteInfo(pair) = message else {
        return Served {
            server: server,
            sends: Sends::Nothing,
        };
    };
    replaced(server, pair)
}

// Two numbers, and no reader but clients 1 to 6.
fn is_sound(memory: &[u64]) -> bool
    ensures { result ≡ is_sound memory.now }
{
    if memory.len() != LENGTH {
        return false;
    }
    memory[READERS_AT] < OVER_SETS
}

// Serves a message of client d, in memory.
fn serve_message(d: u8, message: Message, memory: &mut [u64]) -> Sends
    requires { (is_sound memory.old ≡ true) × (1 ≤ d) × (d ≤ most_clients) }
    ensures { became (Ok (given result (sent_by d result))) memory.new
        ≡ served_in memory.old d message }
{
    let served = after(load(memory), d, message);
    let sends = served.sends;
    store(memory, served.server);
    sends
}

// Serves the bytes that sender d sent to the server in memory. Refuses (3, 4, 9, the lowest first) unsound
// memory, a sender that is not 1 to 6, and bytes that are no message or a reply; the memory stays as it was.
pub fn serve(d: u32, bytes: &[u8], memory: &mut [u64]) -> Result<Sends, Refusal>
    ensures { became (result_of d result) memory.new
        ≡ bytes_served memory.old d bytes.now }
{
    if !is_sound(memory) {
        return Err(Refusal::Unsound);
    }
    if d < 1 || MOST_CLIENTS < d {
        return Err(Refusal::NoSuchProcess);
    }
    let Ok(message) = message::unpack(bytes) else {
        return Err(Refusal::Malformed);
    };
    if message::is_reply(message) {
        return Err(Refusal::Malformed);
    }
    Ok(serve_message(d as u8, message, memory))
}
