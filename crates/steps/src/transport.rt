// Room on the channels, and messages put on them. That counts fit and that spare channels are empty stands in each
// `requires`: a type of slots that fit would owe the proof again behind each `put`.
//
// A client and a server are named by their places, counted from 0.
ghost use Rattle.std.specs.Prelude.{true, false, cond, ◌||◌, ◌≡◌, leb, length, suc, ◌+◌, ◌-◌, ◌≤◌, ◌<◌};
ghost use Rattle.basics.specs.BitSets.{contains};
ghost use Rattle.message.specs.Layout.{goes};
ghost use Rattle.register.specs.Server.{forwards, sent, sent_to};
ghost use Rattle.register.specs.Settings.{most_servers, most_clients, capacity};
ghost use Rattle.channel.specs.Memory.{channels, count_at, removed};
ghost use Rattle.channel.specs.Sound.{CountsFit};
ghost use Rattle.server.specs.Serving.{sent_by};
ghost use Rattle.client.specs.Outcome.{messages_of};
ghost use Rattle.state.specs.State.{up_index, down_index, message_at};
ghost use Rattle.steps.specs.InMemory as memory;
ghost use Rattle.steps.specs.Ready.{SpareEmpty};

use crate::link::Link;
use crate::process::has;
use channel::{CAPACITY, Slots};
use message::{Message, Pair};
use refusal::Refusal;
use server::Sends;
use state::allowed::Allowed;
use state::{CLIENTS, SERVERS, down, is_in, up};

// Twice the capacity of a channel, which is a power of 2 since the capacity is one, and what is added so that
// a sum over the capacity reaches it.
const OVER: u64 = 2 * CAPACITY;

const UNDER: u64 = OVER - 1 - CAPACITY;

// Whether a channel has room for more messages.
pub fn has_room(slots: &Slots, channel: usize, more: u64) -> bool
    requires { (channel < channels) × (more ≤ capacity) }
    ensures { result ≡ leb (count_at slots.now channel + more) capacity }
{
    channel::count(slots, channel) <= CAPACITY - more
}

// Whether every channel from a client to an honest server has room for more messages. All counts are looked
// at, and no test branches: a channel that drops or is not used is empty, and which of the others are full
// cannot be foreseen. A sum is at most CAPACITY exactly if it is below OVER with UNDER added, and numbers
// joined by OR are below a power of 2 exactly if each is.
pub fn has_room_up(known: Allowed, slots: &Slots, i: usize, more: u64) -> bool
    requires { (i < most_clients) × (more ≤ capacity) × CountsFit slots.now
        × SpareEmpty known.settings slots.now }
    ensures { result ≡ memory.room_up known.settings slots.now i more }
{
    let mut over: u64 = 0;
    for j in 0..SERVERS {
        over |= channel::count(slots, up(i, j)) + more + UNDER;
    }
    over < OVER
}

// A message on the channels from a client to all honest servers.
pub fn broadcast(known: Allowed, slots: &mut Slots, i: usize, message: Message)
    requires { i < most_clients }
    ensures { slots.new ≡ memory.to_all known.settings slots.old i message }
{
    let words = message::words_of(message);
    let faulty = known.settings.faulty as u64;
    for j in 0..known.settings.n as usize {
        if !is_in(faulty, j) {
            channel::put(slots, up(i, j), words);
        }
    }
}

// How many messages a client sends to each server.
pub fn count_sent(sends: client::Sends) -> u64
    ensures { (result ≡ length (messages_of sends)) × (result ≤ 2) }
{
    match sends {
        client::Sends::Nothing => 0,
        client::Sends::GetInfo(_) => 1,
        client::Sends::Done => 1,
        client::Sends::DoneAndWrite(_) => 2,
    }
}

// What a client sends, on the channels to all honest servers.
pub fn send_up(known: Allowed, slots: &mut Slots, i: usize, sends: client::Sends)
    requires { i < most_clients }
    ensures { slots.new ≡ memory.send_up known.settings slots.old i (messages_of sends) }
{
    match sends {
        client::Sends::Nothing => {}
        client::Sends::GetInfo(number) => broadcast(known, slots, i, Message::GetInfo(number)),
        client::Sends::Done => broadcast(known, slots, i, Message::Done),
        client::Sends::DoneAndWrite(pair) => {
            broadcast(known, slots, i, Message::Done);
            broadcast(known, slots, i, Message::WriteInfo(pair));
        }
    }
}

// What stands oldest on a channel to a server, and on one to a client: a message that goes that way.
// Two functions, since each goes over another one of `message`, for other kinds.
pub fn oldest_request(slots: &Slots, channel: usize) -> Result<Message, Refusal>
    requires { (channel < channels) × (goes false (message_at slots.now channel) ≡ true) }
    ensures { result ≡ message_at slots.now channel }
{
    message::request_of(channel::oldest(slots, channel))
}

pub fn oldest_reply(slots: &Slots, channel: usize) -> Result<Message, Refusal>
    requires { (channel < channels) × (goes true (message_at slots.now channel) ≡ true) }
    ensures { result ≡ message_at slots.now channel }
{
    message::reply_of(channel::oldest(slots, channel))
}

// How many messages go to the client at place `to` when a server forwards to a set and acknowledges to the
// client at place i.
fn count_to(set: u8, i: usize, to: usize) -> u64
    requires { (i < most_clients) × (to < most_clients) }
    ensures { ((pair : Pair)
        → result ≡ length (sent_to (suc to) (sent_by (suc i) (Sends.Forward set pair)))) × (result ≤ 2) }
{
    is_in(set as u64, to) as u64 + (i == to) as u64
}

// Whether the channel from a server to a client drops, or has room for more messages.
fn has_room_from(stopped: u64, slots: &Slots, i: usize, j: usize, more: u64) -> bool
    requires { (i < most_clients) × (j < most_servers) × (more ≤ capacity) }
    ensures { result ≡ (contains stopped (suc i)
        || leb (count_at slots.now (down_index i j) + more) capacity) }
{
    is_in(stopped, i) | has_room(slots, down(i, j), more)
}

// Whether every channel from a server to a working client has room for what is forwarded, and for the
// acknowledgement.
fn all_have_room(link: Link, stopped: u64, slots: &Slots, set: u8) -> bool
    ensures { (pair : Pair)
        → result ≡ memory.room_down link.known.settings stopped slots.now (link.server - 1)
        (sent_by link.client (Sends.Forward set pair)) }
{
    let i = (link.client - 1) as usize;
    let j = (link.server - 1) as usize;
    let mut fits = true;
    for to in 0..link.known.settings.clients as usize {
        fits &= has_room_from(stopped, slots, to, j, count_to(set, i, to));
    }
    fits
}

// A message on the channel from a server to a client, unless the client has stopped.
fn send_one(stopped: u64, slots: &mut Slots, i: usize, j: usize, message: Message)
    requires { (i < most_clients) × (j < most_servers) }
    ensures { slots.new ≡ memory.send_one stopped slots.old j
        (sent (suc i) message) }
{
    if !is_in(stopped, i) {
        channel::put(slots, down(i, j), message::words_of(message));
    }
}

// FWD of a pair on the channels from a server to the working clients of a set, lowest first.
fn forward(stopped: u64, slots: &mut Slots, j: usize, set: u8, pair: Pair)
    requires { j < most_servers }
    ensures { slots.new ≡ memory.send_down stopped slots.old j
        (forwards (contains set) pair most_clients) }
{
    for i in 0..CLIENTS {
        if is_in(set as u64, i) {
            send_one(stopped, slots, i, j, Message::Fwd(pair));
        }
    }
}

// One message replied: the client's oldest message goes off its channel, and the reply on the one back.
// Without room for it nothing changes, and the answer is false.
fn reply_one(link: Link, stopped: u64, slots: &mut Slots, message: Message) -> bool
    ensures room { result ≡ (contains stopped link.client
        || leb (count_at slots.old (down_index (link.client - 1) (link.server - 1)) + 1) capacity) }
    ensures slots { slots.new ≡ cond result
        (memory.send_one stopped (removed slots.old (up_index (link.client - 1) (link.server - 1)))
        (link.server - 1) (sent link.client message)) slots.old }
{
    if has(stopped, link.client) {
        channel::remove(slots, link.up());
        return true;
    }
    let to = link.down();
    if !has_room(slots, to, 1) {
        return false;
    }
    channel::remove(slots, link.up());
    channel::put(slots, to, message::words_of(message));
    true
}

// The same of a pair forwarded to a set of clients, and acknowledged.
fn reply_all(link: Link, stopped: u64, slots: &mut Slots, set: u8, pair: Pair) -> bool
    ensures { memory.Delivered link.known.settings stopped slots.old (link.client - 1) (link.server - 1)
        (sent_by link.client (Sends.Forward set pair)) result slots.new }
{
    if !all_have_room(link, stopped, slots, set) {
        return false;
    }
    channel::remove(slots, link.up());
    let i = (link.client - 1) as usize;
    let j = (link.server - 1) as usize;
    forward(stopped, slots, j, set, pair);
    send_one(
        stopped,
        slots,
        i,
        j,
        Message::WriteAck(message::counter_of(pair)),
    );
    true
}

// The same of whatever a server replies to the client.
pub fn deliver(link: Link, stopped: u64, slots: &mut Slots, reply: Sends) -> bool
    requires { CountsFit slots.old }
    ensures { memory.Delivered link.known.settings stopped slots.old (link.client - 1) (link.server - 1)
        (sent_by link.client reply) result slots.new }
{
    match reply {
        Sends::Nothing => {
            channel::remove(slots, link.up());
            true
        }
        Sends::Info(number, pair) => reply_one(link, stopped, slots, Message::Info(number, pair)),
        Sends::Forward(set, pair) => reply_all(link, stopped, slots, set, pair),
    }
}

// The channels to a client emptied.
pub fn empty_down(known: Allowed, slots: &mut Slots, i: usize)
    requires { i < most_clients }
    ensures { slots.new ≡ memory.emptied slots.old i known.settings.n }
{
    for j in 0..known.settings.n as usize {
        channel::clear(slots, down(i, j));
    }
}
