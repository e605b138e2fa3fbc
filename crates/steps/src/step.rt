// The six steps. Each refuses first, in the table's order, and works after: it loads the one server or client
// that it concerns, and stores it back. What it comes to is in specs/InMemory.
ghost use Rattle.std.specs.Prelude.{true, false, not, ◌||◌, ◌≡◌, eqb, length, ℕ, ◌-◌, ◌<◌, ◌≤◌, ◌^◌};
ghost use Rattle.basics.specs.BitSets.{contains, set_of};
ghost use Rattle.message.specs.Layout.{goes, unpack_of, goes_down, head_bits};
ghost use Rattle.register.specs.Settings.{most_clients, most_servers, capacity};
ghost use Rattle.channel.specs.Sound.{CountsFit};
ghost use Rattle.server.specs.Memory as server_memory;
ghost use Rattle.client.specs.Memory as client_memory;
ghost use Rattle.client.specs.Outcome.{taken_of};
ghost use Rattle.client.specs.Sound.{is_sound_memory};
ghost use Rattle.state.specs.State.{bytes_in, server_at, stopped_in, client_at};
ghost use Rattle.steps.specs.Ready.{OldestGoes, Ready, SpareEmpty};
ghost use Rattle.steps.specs.InMemory as memory;

use crate::link::Link;
use crate::process::{both_exist, has, is_client};
use crate::transport::{
    broadcast, count_sent, deliver, empty_down, has_room, has_room_up, oldest_reply,
    oldest_request, send_up,
};
use channel::Slots;
use client::Client;
use message::{Entry, Message, Words};
use refusal::Refusal;
use register::{Answer, Phase, Step};
use state::allowed::Allowed;
use state::{Clients, STOPPED, Servers, Settings, State, client_start, server_start};

// The slots that a read and a write count at their start.
const READ_SLOTS: u64 = 2;

const WRITE_SLOTS: u64 = 3;

// The most messages that a client sends at once to a server.
const MOST_SENT: u64 = 2;

// ---- R and W

// The last refusals of a start, 11 and 12, and the start: the next read number, and GET_INFO on every
// channel.
fn begin(
    known: Allowed,
    d: u32,
    client: Client,
    phase: Phase,
    more: u64,
    clients: &mut Clients,
    slots: &mut Slots,
) -> Result<Answer, Refusal>
    requires few { (1 ≤ d) × (d ≤ most_clients) × (more ≤ capacity) }
    requires loaded { client
        ≡ client_memory.loaded d known.settings.n known.settings.f (client_at clients.old (d - 1)) }
    requires counts { CountsFit slots.old }
    requires spare { SpareEmpty known.settings slots.old }
    ensures { memory.result result clients.new slots.new
        ≡ memory.begin_step known.settings clients.old slots.old d phase more }
{
    let reads = client.reads;
    if message::is_last_read(reads) {
        return Err(Refusal::Exhausted);
    }
    let i = (d - 1) as usize;
    if !has_room_up(known, slots, i, more) {
        return Err(Refusal::FullChannel);
    }
    let next = message::next_read(reads);
    broadcast(known, slots, i, Message::GetInfo(next));
    let at = client_start(i);
    let end = at + client::LENGTH;
    let begun = Client {
        number: client.number,
        n: client.n,
        f: client.f,
        phase: phase,
        reads: next,
    };
    client::store(&mut clients[at..end], begun);
    Ok(Answer::Went)
}

// A start in a phase, whose entry, if it has one, is a licence entry or not: 4, 6, 7, 8 and then those of
// `begin`.
fn start(
    known: Allowed,
    d: u32,
    phase: Phase,
    is_entry: bool,
    more: u64,
    clients: &mut Clients,
    slots: &mut Slots,
) -> Result<Answer, Refusal>
    requires few { more ≤ capacity }
    requires counts { CountsFit slots.old }
    requires spare { SpareEmpty known.settings slots.old }
    ensures { memory.result result clients.new slots.new
        ≡ memory.start_step known.settings clients.old slots.old d phase
        (not is_entry) more }
{
    if !is_client(known.settings, d) {
        return Err(Refusal::NoSuchProcess);
    }
    let at = client_start((d - 1) as usize);
    let end = at + client::LENGTH;
    let client = client::load(
        &clients[at..end],
        d as u8,
        known.settings.n,
        known.settings.f,
    );
    let has_stopped = has(clients[STOPPED], d);
    let old = client.phase;
    let is_busy = !client::is_idle(old);
    if has_stopped {
        return Err(Refusal::Stopped);
    }
    if is_busy {
        return Err(Refusal::Busy);
    }
    if !is_entry {
        return Err(Refusal::NoEntry);
    }
    begin(known, d, client, phase, more, clients, slots)
}

// Beside `write`, since as two calls of `start` in `make_step` rehearse took 3.8 % more instructions.
fn read(known: Allowed, d: u32, clients: &mut Clients, slots: &mut Slots) -> Result<Answer, Refusal>
    requires counts { CountsFit slots.old }
    requires spare { SpareEmpty known.settings slots.old }
    ensures { memory.result result clients.new slots.new
        ≡ memory.read_step known.settings clients.old slots.old d }
{
    start(known, d, Phase::Reading, true, READ_SLOTS, clients, slots)
}

fn write(
    known: Allowed,
    d: u32,
    entry: Entry,
    clients: &mut Clients,
    slots: &mut Slots,
) -> Result<Answer, Refusal>
    requires counts { CountsFit slots.old }
    requires spare { SpareEmpty known.settings slots.old }
    ensures { memory.result result clients.new slots.new
        ≡ memory.write_step known.settings clients.old slots.old d entry }
{
    start(
        known,
        d,
        Phase::ReadingForWrite(entry),
        licence::is_licence(entry.0),
        WRITE_SLOTS,
        clients,
        slots,
    )
}

// ---- K

// K and D share no function: each end of a link has refusals and an array of its own.

// The server serves a message, the oldest of its channel, unless there is no room for what it sends (12).
fn serve_message(
    link: Link,
    stopped: u64,
    message: Message,
    servers: &mut Servers,
    slots: &mut Slots,
) -> Result<Answer, Refusal>
    requires sound { server_memory.is_sound (server_at servers.old (link.server - 1)) ≡ true }
    requires asked { memory.request_at slots.old link.server link.client ≡ Ok message }
    requires counts { CountsFit slots.old }
    ensures { memory.result result servers.new slots.new
        ≡ memory.serve_oldest link.known.settings stopped servers.old slots.old link.server link.client }
{
    let at = server_start((link.server - 1) as usize);
    let end = at + server::LENGTH;
    let served = server::after(server::load(&servers[at..end]), link.client as u8, message);
    let sends = served.sends;
    let next = served.server;
    if !deliver(link, stopped, slots, sends) {
        return Err(Refusal::FullChannel);
    }
    server::store(&mut servers[at..end], next);
    Ok(Answer::Went)
}

// The server serves the oldest message. What is none is dropped.
fn serve_oldest(
    link: Link,
    stopped: u64,
    servers: &mut Servers,
    slots: &mut Slots,
) -> Result<Answer, Refusal>
    requires sound { server_memory.is_sound (server_at servers.old (link.server - 1)) ≡ true }
    requires goes_up { goes false (memory.request_at slots.old link.server link.client) ≡ true }
    requires counts { CountsFit slots.old }
    ensures { memory.result result servers.new slots.new
        ≡ memory.serve_oldest link.known.settings stopped servers.old slots.old link.server link.client }
{
    let from = link.up();
    let Ok(message) = oldest_request(slots, from) else {
        channel::remove(slots, from);
        return Ok(Answer::Went);
    };
    serve_message(link, stopped, message, servers, slots)
}

fn serve(
    known: Allowed,
    stopped: u64,
    k: u32,
    d: u32,
    servers: &mut Servers,
    slots: &mut Slots,
) -> Result<Answer, Refusal>
    requires sound { (j : ℕ) → j < most_servers → server_memory.is_sound (server_at servers.old j) ≡ true }
    requires counts { CountsFit slots.old }
    requires ways { OldestGoes slots.old }
    ensures { memory.result result servers.new slots.new
        ≡ memory.serve_step known.settings stopped servers.old slots.old k d }
{
    if !both_exist(known.settings, d, k) {
        return Err(Refusal::NoSuchProcess);
    }
    let link = Link {
        known,
        client: d,
        server: k,
    };
    if has(known.settings.faulty as u64, k) {
        return Err(Refusal::WrongRole);
    }
    if channel::count(slots, link.up()) == 0 {
        return Err(Refusal::EmptyChannel);
    }
    serve_oldest(link, stopped, servers, slots)
}

// ---- D

// Whether there is room for what a client makes of a message of server k. Nothing is sent for an
// acknowledgement, and two free slots are enough for anything, so the message is tried on a copy only where a
// channel is short.
fn has_room_for(link: Link, slots: &Slots, client: Client, message: Message, own: &[u64]) -> bool
    requires loaded { client
        ≡ client_memory.loaded link.client link.known.settings.n link.known.settings.f own.now }
    requires sound { is_sound_memory link.known.settings.n link.known.settings.f own.now ≡ true }
    requires counts { CountsFit slots.now }
    requires spare { SpareEmpty link.known.settings slots.now }
    ensures { let settings = link.known.settings in
        result ≡ memory.room_up settings slots.now (link.client - 1)
        (length (taken_of link.client settings.n settings.f own.now link.server message).sends) }
{
    if let Message::WriteAck(_counter) = message {
        return true;
    }
    let i = (link.client - 1) as usize;
    if has_room_up(link.known, slots, i, MOST_SENT) {
        return true;
    }
    let sends = client::would_send(client, link.server as u8, message, own);
    has_room_up(link.known, slots, i, count_sent(sends))
}

// A client takes a message of server k, the oldest of its channel, unless there is no room for what it sends
// (12).
fn take_message(
    link: Link,
    client: Client,
    message: Message,
    clients: &mut Clients,
    slots: &mut Slots,
) -> Result<Answer, Refusal>
    requires loaded { client ≡ client_memory.loaded link.client link.known.settings.n link.known.settings.f
        (client_at clients.old (link.client - 1)) }
    requires sound { is_sound_memory link.known.settings.n link.known.settings.f
        (client_at clients.old (link.client - 1)) ≡ true }
    requires asked { memory.reply_at slots.old link.client link.server ≡ Ok message }
    requires counts { CountsFit slots.old }
    requires spare { SpareEmpty link.known.settings slots.old }
    ensures { memory.result result clients.new slots.new
        ≡ memory.take_oldest link.known.settings clients.old slots.old link.client link.server }
{
    let i = (link.client - 1) as usize;
    let at = client_start(i);
    let end = at + client::LENGTH;
    if !has_room_for(link, slots, client, message, &clients[at..end]) {
        return Err(Refusal::FullChannel);
    }
    let outcome = client::take_message(client, link.server as u8, message, &mut clients[at..end]);
    channel::remove(slots, link.down());
    let sends = outcome.sends;
    send_up(link.known, slots, i, sends);
    Ok(outcome.answer)
}

// The client takes the oldest message. What is none, or one that it does not take, is dropped, and nothing is
// stored.
fn take_oldest(link: Link, clients: &mut Clients, slots: &mut Slots) -> Result<Answer, Refusal>
    requires sound { is_sound_memory link.known.settings.n link.known.settings.f
        (client_at clients.old (link.client - 1)) ≡ true }
    requires goes_down { goes true (memory.reply_at slots.old link.client link.server) ≡ true }
    requires counts { CountsFit slots.old }
    requires spare { SpareEmpty link.known.settings slots.old }
    ensures { memory.result result clients.new slots.new
        ≡ memory.take_oldest link.known.settings clients.old slots.old link.client link.server }
{
    let from = link.down();
    let Ok(message) = oldest_reply(slots, from) else {
        channel::remove(slots, from);
        return Ok(Answer::Went);
    };
    let at = client_start((link.client - 1) as usize);
    let end = at + client::LENGTH;
    let settings = link.known.settings;
    let client = client::load(&clients[at..end], link.client as u8, settings.n, settings.f);
    if !client::is_taken(client, link.server as u8, message, &clients[at..end]) {
        channel::remove(slots, from);
        return Ok(Answer::Went);
    }
    take_message(link, client, message, clients, slots)
}

fn take(
    known: Allowed,
    d: u32,
    k: u32,
    clients: &mut Clients,
    slots: &mut Slots,
) -> Result<Answer, Refusal>
    requires sound { (i : ℕ) → i < most_clients
        → is_sound_memory known.settings.n known.settings.f (client_at clients.old i) ≡ true }
    requires counts { CountsFit slots.old }
    requires spare { SpareEmpty known.settings slots.old }
    requires ways { OldestGoes slots.old }
    ensures { memory.result result clients.new slots.new
        ≡ memory.take_step known.settings clients.old slots.old d k }
{
    if !both_exist(known.settings, d, k) {
        return Err(Refusal::NoSuchProcess);
    }
    let link = Link {
        known,
        client: d,
        server: k,
    };
    if has(clients[STOPPED], d) {
        return Err(Refusal::Stopped);
    }
    if channel::count(slots, link.down()) == 0 {
        return Err(Refusal::EmptyChannel);
    }
    take_oldest(link, clients, slots)
}

// ---- C

// The stopped clients and one more.
fn with_stopped(stopped: u64, d: u32) -> u64
    requires { (stopped < 2 ^ most_clients) × (1 ≤ d) × (d ≤ most_clients) }
    ensures { result ≡ set_of (λ e. eqb d e || contains stopped e) most_clients }
{
    let bit: u64 = 1 << (d - 1);
    stopped | bit
}

fn stop(known: Allowed, d: u32, clients: &mut Clients, slots: &mut Slots) -> Result<Answer, Refusal>
    requires { stopped_in clients.old < 2 ^ most_clients }
    ensures { memory.result result clients.new slots.new
        ≡ memory.stop_step known.settings clients.old slots.old d }
{
    if !is_client(known.settings, d) {
        return Err(Refusal::NoSuchProcess);
    }
    let stopped = clients[STOPPED];
    if has(stopped, d) {
        return Err(Refusal::Stopped);
    }
    empty_down(known, slots, (d - 1) as usize);
    clients[STOPPED] = with_stopped(stopped, d);
    Ok(Answer::Went)
}

// ---- L

// Whether two words are a message that a server sends.
fn is_reply(words: Words) -> bool
    ensures { result ≡ goes_down (unpack_of (bytes_in words)) }
{
    let Ok(message) = message::of_words(words) else {
        return false;
    };
    message::is_reply(message)
}

// The message goes on its channel, unless there is no room for it (12); to a stopped client it is dropped.
fn lie_with(link: Link, stopped: u64, words: Words, slots: &mut Slots) -> Result<Answer, Refusal>
    requires { words.0 < 2 ^ head_bits }
    ensures { memory.placed result slots.new
        ≡ memory.lie_with stopped slots.old link.server link.client words }
{
    if has(stopped, link.client) {
        return Ok(Answer::Went);
    }
    let to = link.down();
    if !has_room(slots, to, 1) {
        return Err(Refusal::FullChannel);
    }
    channel::put(slots, to, words);
    Ok(Answer::Went)
}

fn lie(
    known: Allowed,
    stopped: u64,
    k: u32,
    d: u32,
    words: Words,
    slots: &mut Slots,
) -> Result<Answer, Refusal>
    ensures { memory.placed result slots.new ≡ memory.lie_step known.settings stopped
        slots.old k d words }
{
    if !both_exist(known.settings, d, k) {
        return Err(Refusal::NoSuchProcess);
    }
    if !has(known.settings.faulty as u64, k) {
        return Err(Refusal::WrongRole);
    }
    if !is_reply(words) {
        return Err(Refusal::Malformed);
    }
    let link = Link {
        known,
        client: d,
        server: k,
    };
    lie_with(link, stopped, words, slots)
}

// ---- one step

// One step of a sound state. A refusal leaves the memory as it was.
pub fn make_step(settings: Settings, step: Step, state: &mut State) -> Result<Answer, Refusal>
    requires { Ready settings state.old.servers state.old.clients state.old.slots }
    ensures { memory.after result state.new.servers state.new.clients state.new.slots
        ≡ memory.in_memory settings state.old.servers state.old.clients state.old.slots step }
{
    let known = Allowed { settings };
    match step {
        Step::R(d) => read(known, d, &mut state.clients, &mut state.slots),
        Step::W(d, entry) => write(known, d, entry, &mut state.clients, &mut state.slots),
        Step::K(k, d) => serve(
            known,
            state.clients[STOPPED],
            k,
            d,
            &mut state.servers,
            &mut state.slots,
        ),
        Step::D(d, k) => take(known, d, k, &mut state.clients, &mut state.slots),
        Step::C(d) => stop(known, d, &mut state.clients, &mut state.slots),
        Step::L(k, d, words) => lie(known, state.clients[STOPPED], k, d, words, &mut state.slots),
    }
}
