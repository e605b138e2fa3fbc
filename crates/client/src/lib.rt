// The client end (01: desk): how it starts, and what it does with one message of a server. All of it stands
// in memory that it is lent (specs/Memory). Inside a step the client is loaded, goes by value, and its head
// is stored again. The inner functions ask for a sound client; the entry points, at the end, ask for nothing
// and refuse. The memory has neither the client's number nor n and f: a caller gives the same at each call.
#![tactic(auto)]

ghost use Rattle.std.specs.Prelude.{◌≡◌, true, false, ◌+◌, ◌<◌, ◌≤◌, length, drop, replicate};
ghost use Rattle.basics.specs.Tests.{is_up_to};
ghost use Rattle.message.specs.Layout.{last_read};
ghost use Rattle.register.specs.Settings.{most_clients, most_servers};
ghost use Rattle.register.specs.Client.{is_idle, is_reading, is_storing, entry_of, uses_info};
ghost use Rattle.replies.specs.Replies.{replies_length};
ghost use Rattle.client.specs.State as by_value;
ghost use Rattle.client.specs.State.{in_phase};
ghost use Rattle.client.specs.Memory.{client_length, replies_at, phase_of, code_of, counter_in, loaded, stored, view};
ghost use Rattle.client.specs.Sound.{stores, is_sound_client, is_sound};
ghost use Rattle.client.specs.Sound.{is_sound_entry, is_sound_counter, is_sound_head, are_sound_replies};
ghost use Rattle.client.specs.Sound.{is_sound_memory};
ghost use Rattle.client.specs.Outcome.{messages_of};
ghost use Rattle.client.specs.Sends.{after, ends_with, concluded_of, chosen_of, received_of};
ghost use Rattle.client.specs.Taking.{is_taken};
ghost use Rattle.client.specs.Outcome as outcome;
ghost use Rattle.client.specs.Entry.{read_of, start_of, write_of, take_of};
ghost use Rattle.client.specs.Collecting.{Collected, received_pair_of};

use message::{Entry, Message, Pair, ReadNumber, WriteCounter};
use refusal::Refusal;
use register::{Answer, MOST_CLIENTS, Phase};
use replies::Replies;

// Where a memory has the read number, the phase, the entry, the counter and the replies.
pub const READS: usize = 0;

pub const PHASE: usize = 1;

const ENTRY: usize = 2;

const COUNTER: usize = 3;

const REPLIES: usize = 4;

// The numbers of the whole memory. Functions take it as a slice, not as an array: `steps` lends a part of its
// clients, and what is written through a part lent as an array is not known afterwards.
pub const LENGTH: usize = REPLIES + replies::LENGTH;

// The phase as a number, since lent memory has numbers: from READING_FOR_WRITE on it has an entry, and STORING
// has a counter too.
const IDLE: u64 = 0;

const READING: u64 = 1;

const READING_FOR_WRITE: u64 = 2;

const STORING: u64 = 3;

// A client by its number, of n servers of which f may be faulty, as a step loads it. What the servers replied
// stays in memory.
#[derive(Clone, Copy)]
pub struct Client {
    pub phase: Phase,
    pub reads: ReadNumber,
    pub number: u8,
    pub n: u8,
    pub f: u8,
}

// What goes on the channels to all servers.
#[derive(Clone, Copy)]
pub enum Sends {
    Nothing,
    GetInfo(ReadNumber),
    Done,
    DoneAndWrite(Pair),
}

// The client after a step, what it sends, and what it answers.
#[derive(Clone, Copy)]
pub struct Transition {
    pub client: Client,
    pub sends: Sends,
    pub answer: Answer,
}

// What a step sends and answers; the client after it stands in its memory.
#[derive(Clone, Copy)]
pub struct Outcome {
    pub sends: Sends,
    pub answer: Answer,
}

// ---- phases

#[tactic(auto, unfolding(register::specs::Client::is_idle))]
pub fn is_idle(phase: Phase) -> bool
    ensures { result ≡ is_idle phase }
{
    match phase {
        Phase::Idle => true,
        Phase::Reading => false,
        Phase::ReadingForWrite(_) => false,
        Phase::Storing(_, _) => false,
    }
}

#[tactic(auto, unfolding(register::specs::Client::is_reading))]
pub fn is_reading(phase: Phase) -> bool
    ensures { result ≡ is_reading phase }
{
    match phase {
        Phase::Idle => false,
        Phase::Reading => true,
        Phase::ReadingForWrite(_) => true,
        Phase::Storing(_, _) => false,
    }
}

#[tactic(auto, unfolding(crate::specs::Sound::stores))]
fn is_storing(phase: Phase) -> bool
    ensures { result ≡ stores phase }
{
    let Phase::Storing(_, _) = phase else {
        return false;
    };
    true
}

#[tactic(auto, unfolding(register::specs::Client::is_storing))]
fn is_storing_with(phase: Phase, counter: WriteCounter) -> bool
    ensures { result ≡ is_storing phase counter }
{
    let Phase::Storing(_, own) = phase else {
        return false;
    };
    own == counter
}

#[tactic(auto, unfolding(register::specs::Client::entry_of))]
fn entry_of(phase: Phase) -> u64
    ensures { result ≡ (entry_of phase).0 }
{
    match phase {
        Phase::Idle => 0,
        Phase::Reading => 0,
        Phase::ReadingForWrite(entry) => entry.0,
        Phase::Storing(entry, _) => entry.0,
    }
}

// ---- a client in another phase

fn in_phase(client: Client, phase: Phase) -> Client
    ensures { result ≡ in_phase client phase }
{
    let reads = client.reads;
    Client {
        number: client.number,
        n: client.n,
        f: client.f,
        phase,
        reads,
    }
}

fn unchanged(client: Client) -> Transition
    ensures { result ≡ record { client = client; sends = Sends.Nothing; answer = Answer.Went } }
{
    Transition {
        client,
        sends: Sends::Nothing,
        answer: Answer::Went,
    }
}

fn ends(client: Client, sends: Sends, answer: Answer) -> Transition
    ensures { result ≡ ends_with client sends answer }
{
    let idle = in_phase(client, Phase::Idle);
    Transition {
        client: idle,
        sends,
        answer,
    }
}

// ---- the choice and what follows from it

// What a chosen pair leads to, once the replies are emptied: a read ends. A write goes on with the counter
// above the chosen one and its own number, or ends as SPENT.
fn conclude(client: Client, pair: Pair) -> Transition
    requires { (is_sound_client client ≡ true) × (is_reading client.phase ≡ true) }
    ensures { after result (replicate replies_length 0) ≡ concluded_of client pair }
{
    let phase = client.phase;
    let Phase::ReadingForWrite(entry) = phase else {
        return ends(client, Sends::Done, Answer::Read(pair));
    };
    let highest = message::counter_of(pair);
    if message::is_last_counter(highest) {
        return ends(client, Sends::Done, Answer::Spent);
    }
    let counter = message::next_counter(highest);
    let own = message::pair_of(counter, client.number, entry);
    let next = in_phase(client, Phase::Storing(entry, counter));
    Transition {
        client: next,
        sends: Sends::DoneAndWrite(own),
        answer: Answer::Went,
    }
}

// After a taken INFO or FWD: what follows from the choice, if there is one.
fn follow_choice(client: Client, replies: &mut Replies) -> Transition
    requires { (is_sound client replies.old ≡ true) × (is_reading client.phase ≡ true) }
    ensures { after result replies.new ≡ chosen_of client replies.old }
{
    let Some(pair) = replies::choose(replies, client.n, client.f) else {
        return unchanged(client);
    };
    replies::clear(replies);
    conclude(client, pair)
}

// ---- one message of server k. Each `requires` says that it is there, and that client and replies are sound together:
// the functions that `steps` calls are named so in README, and two values have no invariant of one type.

// Whether an INFO with a tag is taken: while the client reads, of this read, and the first of its server.
fn takes_info(client: Client, k: u8, tag: ReadNumber, replies: &Replies) -> bool
    requires { (1 ≤ k) × (k ≤ most_servers) }
    ensures { result ≡ uses_info (by_value.view client replies.now) k tag }
{
    let phase = client.phase;
    if !is_reading(phase) {
        return false;
    }
    if tag != client.reads {
        return false;
    }
    !replies::is_noted(replies, (k - 1) as usize)
}

// Collects an INFO: whether it is taken.
fn info(client: Client, k: u8, tag: ReadNumber, pair: Pair, replies: &mut Replies) -> bool
    requires { (is_sound client replies.old ≡ true) × (1 ≤ k) × (k ≤ client.n) }
    ensures { Collected client replies.old k (Message.Info tag pair) result
        replies.new }
{
    if !takes_info(client, k, tag, replies) {
        return false;
    }
    let i = (k - 1) as usize;
    replies::note(replies, i, message::stamp_of(pair));
    replies::insert(replies, i, pair);
    true
}

// Collects a FWD: whether it is taken.
fn forwarded(client: Client, k: u8, pair: Pair, replies: &mut Replies) -> bool
    requires { (is_sound client replies.old ≡ true) × (1 ≤ k) × (k ≤ client.n) }
    ensures { Collected client replies.old k (Message.Fwd pair) result replies.new }
{
    let phase = client.phase;
    if !is_reading(phase) {
        return false;
    }
    replies::insert(replies, (k - 1) as usize, pair);
    true
}

// Collects an INFO or a FWD: whether it is taken. Another kind is not.
fn collect(client: Client, k: u8, message: Message, replies: &mut Replies) -> bool
    requires { (is_sound client replies.old ≡ true) × (1 ≤ k) × (k ≤ client.n) }
    ensures { Collected client replies.old k message result replies.new }
{
    if let Message::Info(tag, pair) = message {
        return info(client, k, tag, pair, replies);
    }
    let Message::Fwd(pair) = message else {
        return false;
    };
    forwarded(client, k, pair, replies)
}

// What a client does with an INFO or a FWD; another kind is dropped.
fn receive_pair(client: Client, k: u8, message: Message, replies: &mut Replies) -> Transition
    requires { (is_sound client replies.old ≡ true) × (1 ≤ k) × (k ≤ client.n) }
    ensures { after result replies.new
        ≡ received_pair_of client replies.old k message }
{
    if !collect(client, k, message, replies) {
        return unchanged(client);
    }
    follow_choice(client, replies)
}

// What a client does with a WRITE_ACK: enough of them end its write.
fn acknowledged(client: Client, k: u8, counter: WriteCounter, replies: &mut Replies) -> Transition
    requires { (is_sound client replies.old ≡ true) × (1 ≤ k) × (k ≤ client.n) }
    ensures { after result replies.new
        ≡ received_of client replies.old k (Message.WriteAck counter) }
{
    let phase = client.phase;
    if !is_storing_with(phase, counter) {
        return unchanged(client);
    }
    replies::acknowledge(replies, (k - 1) as usize);
    if !register::is_enough(client.n, client.f, replies::acknowledged(replies, client.n)) {
        return unchanged(client);
    }
    replies::clear(replies);
    let own = message::pair_of(counter, client.number, Entry(entry_of(phase)));
    ends(client, Sends::Nothing, Answer::Wrote(own))
}

// What a client does with one message of server k.
fn receive(client: Client, k: u8, message: Message, replies: &mut Replies) -> Transition
    requires { (is_sound client replies.old ≡ true) × (1 ≤ k) × (k ≤ client.n) }
    ensures { after result replies.new
        ≡ received_of client replies.old k message }
{
    let Message::WriteAck(counter) = message else {
        return receive_pair(client, k, message, replies);
    };
    acknowledged(client, k, counter, replies)
}

// What a message would have the client send, were the replies its own. It does not ask `receive_pair`: that
// is called for every message, and the compiler inlines it only while it has one caller.
fn foreseen(client: Client, k: u8, message: Message, replies: &mut Replies) -> Sends
    requires { (is_sound client replies.old ≡ true) × (1 ≤ k) × (k ≤ client.n) }
    ensures { messages_of result ≡ (received_pair_of client replies.old k message).sends }
{
    if !collect(client, k, message, replies) {
        return Sends::Nothing;
    }
    let Some(pair) = replies::choose(replies, client.n, client.f) else {
        return Sends::Nothing;
    };
    let step = conclude(client, pair);
    step.sends
}

// ---- a client in its memory

#[tactic(auto, unfolding(crate::specs::Memory::phase_of))]
fn phase_of(code: u64, entry: Entry, counter: WriteCounter) -> Phase
    ensures { result ≡ phase_of code entry.0 counter.0 }
{
    if code == IDLE {
        return Phase::Idle;
    }
    if code == READING {
        return Phase::Reading;
    }
    if code == READING_FOR_WRITE {
        return Phase::ReadingForWrite(entry);
    }
    Phase::Storing(entry, counter)
}

// The client of a step, from its memory.
pub fn load(memory: &[u64], number: u8, n: u8, f: u8) -> Client
    requires { length memory.now ≡ client_length }
    ensures { result ≡ loaded number n f memory.now }
{
    let counter = message::counter_from(memory[COUNTER]);
    let phase = phase_of(memory[PHASE], Entry(memory[ENTRY]), counter);
    let reads = message::read_from(memory[READS]);
    Client {
        number,
        n,
        f,
        phase,
        reads,
    }
}

#[tactic(auto, unfolding(crate::specs::Memory::code_of))]
fn code_of(phase: Phase) -> u64
    ensures { result ≡ code_of phase }
{
    match phase {
        Phase::Idle => IDLE,
        Phase::Reading => READING,
        Phase::ReadingForWrite(_) => READING_FOR_WRITE,
        Phase::Storing(_, _) => STORING,
    }
}

#[tactic(auto, unfolding(crate::specs::Memory::counter_in))]
fn counter_in(phase: Phase) -> u64
    ensures { result ≡ counter_in phase }
{
    let Phase::Storing(_, counter) = phase else {
        return 0;
    };
    u64::from(counter)
}

// The head of a memory, from the client of a step. The replies stay.
pub fn store(memory: &mut [u64], client: Client)
    requires { length memory.old ≡ client_length }
    ensures { memory.new ≡ stored memory.old client }
{
    let phase = client.phase;
    memory[READS] = u64::from(client.reads);
    memory[PHASE] = code_of(phase);
    memory[ENTRY] = entry_of(phase);
    memory[COUNTER] = counter_in(phase);
}

// The replies in a memory: the last of its numbers.
fn replies_in(memory: &[u64]) -> &Replies
    requires { length memory.now ≡ client_length }
    ensures { result.now ≡ drop replies_at memory.now }
{
    memory.last_chunk().unwrap()
}

// Whether a client takes a message of server k. One that it does not take changes nothing.
pub fn is_taken(client: Client, k: u8, message: Message, memory: &[u64]) -> bool
    requires { (length memory.now ≡ client_length) × (1 ≤ k) × (k ≤ most_servers)
        × (client ≡ loaded client.number client.n client.f memory.now) }
    ensures { result ≡ is_taken (view memory.now) k message }
{
    let phase = client.phase;
    if let Message::Fwd(_) = message {
        return is_reading(phase);
    }
    if let Message::WriteAck(counter) = message {
        return is_storing_with(phase, counter);
    }
    let Message::Info(tag, _) = message else {
        return false;
    };
    takes_info(client, k, tag, replies_in(memory))
}

// What a client does with one message of server k: the step on the client and its replies, in its memory.
pub fn take_message(client: Client, k: u8, message: Message, memory: &mut [u64]) -> Outcome
    requires { (client ≡ loaded client.number client.n client.f memory.old)
        × (is_sound_memory client.n client.f memory.old ≡ true)
        × (1 ≤ client.number) × (client.number ≤ most_clients) × (1 ≤ k) × (k ≤ client.n) }
    ensures { outcome.after (Ok result) memory.new
        ≡ outcome.taken_of client.number client.n client.f memory.old k message }
{
    let Some(replies) = memory.last_chunk_mut() else {
        unreachable!()
    };
    let step = receive(client, k, message, replies);
    let next = step.client;
    let sends = step.sends;
    let answer = step.answer;
    store(memory, next);
    Outcome { sends, answer }
}

// A copy of the replies in a memory, for a trial. It goes by number, and is no `*replies_in(memory)`, so that the edits
// `copied-every-other` and `copied-to-acks` fall at the numbers that they leave out, and not at their form.
fn copied(memory: &[u64]) -> Replies
    requires { length memory.now ≡ client_length }
    ensures { result ≡ drop replies_at memory.now }
{
    let replies = replies_in(memory);
    std::array::from_fn(|at| replies[at])
}

// What the message would have the client send. The memory is not touched: it is collected in a copy.
pub fn would_send(client: Client, k: u8, message: Message, memory: &[u64]) -> Sends
    requires { (client ≡ loaded client.number client.n client.f memory.now)
        × (is_sound_memory client.n client.f memory.now ≡ true)
        × (1 ≤ client.number) × (client.number ≤ most_clients) × (1 ≤ k) × (k ≤ client.n) }
    ensures { messages_of result
        ≡ (outcome.taken_of client.number client.n client.f memory.now k message).sends }
{
    let mut trial = copied(memory);
    foreseen(client, k, message, &mut trial)
}

// ---- a start

// An idle client starts in a phase. What the servers replied to it is empty, so only the head is stored.
fn begin(client: Client, phase: Phase, memory: &mut [u64]) -> Outcome
    requires { (client ≡ loaded client.number client.n client.f memory.old)
        × (is_sound_memory client.n client.f memory.old ≡ true)
        × (is_idle client.phase ≡ true) × (client.reads.0 < last_read) }
    ensures { outcome.after (Ok result) memory.new
        ≡ outcome.started_of memory.old phase }
{
    let reads = message::next_read(client.reads);
    let next = Client {
        number: client.number,
        n: client.n,
        f: client.f,
        phase,
        reads,
    };
    store(memory, next);
    Outcome {
        sends: Sends::GetInfo(reads),
        answer: Answer::Went,
    }
}

// ---- soundness

fn is_sound_entry(code: u64, entry: u64) -> bool
    ensures { result ≡ is_sound_entry code entry }
{
    if code < READING_FOR_WRITE {
        return entry == 0;
    }
    licence::is_licence(entry)
}

fn is_sound_counter(code: u64, counter: u64) -> bool
    ensures { result ≡ is_sound_counter code counter }
{
    if code == STORING {
        return message::fits_counter(counter);
    }
    counter < 1
}

fn is_sound_head(code: u64, entry: u64, counter: u64) -> bool
    ensures { result ≡ is_sound_head code entry counter }
{
    if STORING < code {
        return false;
    }
    if !is_sound_entry(code, entry) {
        return false;
    }
    is_sound_counter(code, counter)
}

// Whether the replies are sound, in the phase that is loaded; its client's number and f do not matter.
fn are_replies_sound(n: u8, memory: &[u64]) -> bool
    requires { length memory.now ≡ client_length }
    ensures { result ≡ are_sound_replies n memory.now }
{
    let client = load(memory, 1, n, 0);
    let phase = client.phase;
    let reading = is_reading(phase);
    let storing = is_storing(phase);
    replies::are_sound(replies_in(memory), n as usize, reading, storing)
}

// Whether a memory is sound, of n servers of which f may be faulty.
pub fn is_sound(n: u8, f: u8, memory: &[u64]) -> bool
    ensures { result ≡ is_sound_memory n f memory.now }
{
    if !register::are_servers_in_range(n, f) {
        return false;
    }
    if memory.len() != LENGTH {
        return false;
    }
    if !message::fits_read(memory[READS]) {
        return false;
    }
    if !is_sound_head(memory[PHASE], memory[ENTRY], memory[COUNTER]) {
        return false;
    }
    are_replies_sound(n, memory)
}

// ---- entry points. Each is told the client's number, n and f: a caller has them, and memory has not.

// Whether a number is one of those from 1 to the most: of the clients, or of the servers.
fn is_up_to(most: u8, number: u8) -> bool
    ensures { result ≡ is_up_to most number }
{
    1 <= number && number <= most
}

// Client `number` starts in a phase, whose entry, if it has one, is a licence entry or not.
fn start(
    number: u8,
    n: u8,
    f: u8,
    phase: Phase,
    licensed: bool,
    memory: &mut [u64],
) -> Result<Outcome, Refusal>
    ensures { outcome.after result memory.new
        ≡ start_of number n f memory.old phase licensed }
{
    if !is_sound(n, f, memory) {
        return Err(Refusal::Unsound);
    }
    if !is_up_to(MOST_CLIENTS, number) {
        return Err(Refusal::NoSuchProcess);
    }
    let client = load(memory, number, n, f);
    let old = client.phase;
    if !is_idle(old) {
        return Err(Refusal::Busy);
    }
    if !licensed {
        return Err(Refusal::NoEntry);
    }
    if message::is_last_read(client.reads) {
        return Err(Refusal::Exhausted);
    }
    Ok(begin(client, phase, memory))
}

// Client `number` starts a read.
pub fn read(number: u8, n: u8, f: u8, memory: &mut [u64]) -> Result<Outcome, Refusal>
    ensures { outcome.after result memory.new
        ≡ read_of number n f memory.old }
{
    start(number, n, f, Phase::Reading, true, memory)
}

// Client `number` starts a write of an entry.
pub fn write(number: u8, n: u8, f: u8, entry: Entry, memory: &mut [u64]) -> Result<Outcome, Refusal>
    ensures { outcome.after result memory.new
        ≡ write_of number n f memory.old entry }
{
    let licensed = licence::is_licence(entry.0);
    start(
        number,
        n,
        f,
        Phase::ReadingForWrite(entry),
        licensed,
        memory,
    )
}

// Client `number` takes bytes from server k.
pub fn take(
    number: u8,
    n: u8,
    f: u8,
    k: u8,
    bytes: &[u8],
    memory: &mut [u64],
) -> Result<Outcome, Refusal>
    ensures { outcome.after result memory.new
        ≡ take_of number n f memory.old k bytes.now }
{
    if !is_sound(n, f, memory) {
        return Err(Refusal::Unsound);
    }
    if !is_up_to(MOST_CLIENTS, number) {
        return Err(Refusal::NoSuchProcess);
    }
    if !is_up_to(n, k) {
        return Err(Refusal::NoSuchProcess);
    }
    let Ok(message) = message::unpack(bytes) else {
        return Err(Refusal::Malformed);
    };
    if !message::is_reply(message) {
        return Err(Refusal::Malformed);
    }
    let client = load(memory, number, n, f);
    Ok(take_message(client, k, message, memory))
}
