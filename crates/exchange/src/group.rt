// Two clients and five servers: the memory that they are lent, and the way of each message.
ghost use Rattle.std.specs.Prelude.{◌≡◌, ℕ, ◌-◌, ◌<◌, ◌≤◌, [], ◌∷◌, replicate, slice_get};
ghost use Rattle.server.specs.Memory.{server_length};
ghost use Rattle.exchange.specs.Clients.{number_of, index_of, new_client, WentTo, Went, SameNumbers, Serves};
ghost use Rattle.exchange.specs.Clients.{read_memory, written_memory, taken_memory};

use crate::print::{Bytes, Process, print_answer, print_message, print_refused};
use message::{Entry, MESSAGE_BYTES, Message, Pair};
use refusal::Refusal;
use std::io;

// The messages that are kept of a client, and the servers that there is memory for.
const MOST_SENT: usize = 10;

const MOST_SERVERS: usize = 5;

// One of the two clients.
#[derive(Clone, Copy)]
pub enum Who {
    First,
    Second,
}

impl Who {
    fn index(self) -> usize
        ensures { (result ≡ index_of self) × (result < 2) }
    {
        match self {
            Who::First => 0,
            Who::Second => 1,
        }
    }

    fn number(self) -> u8
        ensures { result ≡ number_of self }
    {
        self.index() as u8 + 1
    }
}

// A client among n servers of which f may be faulty: its memory, and the messages that it sent, which are the same
// for every server. They stand in an array, and not in a `Vec`, so that `serve` can ask for one of the ten that are
// kept.
#[derive(Drop)]
struct Client {
    who: Who,
    n: u8,
    f: u8,
    memory: [u64; client::LENGTH],
    sent: [Bytes; MOST_SENT],
    count: usize,
}

impl Client {
    // All memory is zero at setup.
    fn new(who: Who, n: u8, f: u8) -> Client
        ensures { result ≡ new_client who n f }
    {
        Client {
            who,
            n,
            f,
            memory: [0; client::LENGTH],
            sent: [Bytes([0; MESSAGE_BYTES]); MOST_SENT],
            count: 0,
        }
    }

    fn process(&self) -> Process {
        Process::Client(self.who.number())
    }

    fn is_in(&self, readers: u8) -> bool {
        (readers >> self.who.index()) & 1 == 1
    }

    // Keeps a message. More than ten are not kept.
    fn keep(&mut self, bytes: Bytes)
        ensures { WentTo self.old.memory self.old self.new }
    {
        let count = self.count;
        if count < MOST_SENT {
            self.sent[count] = bytes;
            self.count = count + 1;
        }
    }

    // Prints a message for each server, and keeps it.
    fn send(&mut self, rt: &impl Print, message: Message) -> io::Result<()>
        ensures { WentTo self.old.memory self.old self.new }
    {
        let bytes = Bytes::from(message);
        for k in 1..=self.n {
            print_message(rt, self.process(), Process::Server(k), bytes)?;
        }
        self.keep(bytes);
        Ok(())
    }

    fn send_all(&mut self, rt: &impl Print, sends: client::Sends) -> io::Result<()>
        ensures { WentTo self.old.memory self.old self.new }
    {
        match sends {
            client::Sends::Nothing => Ok(()),
            client::Sends::GetInfo(tag) => self.send(rt, Message::GetInfo(tag)),
            client::Sends::Done => self.send(rt, Message::Done),
            client::Sends::DoneAndWrite(pair) => {
                self.send(rt, Message::Done)?;
                self.send(rt, Message::WriteInfo(pair))
            }
        }
    }

    // What it sends after a step, and then what it answers.
    fn stepped(
        &mut self,
        rt: &impl Print,
        outcome: Result<client::Outcome, Refusal>,
    ) -> io::Result<()>
        ensures { WentTo self.old.memory self.old self.new }
    {
        match outcome {
            Ok(outcome) => {
                self.send_all(rt, outcome.sends)?;
                print_answer(rt, self.process(), outcome.answer)
            }
            Err(why) => print_refused(rt, self.process(), why),
        }
    }

    fn read(&mut self, rt: &impl Print) -> io::Result<()>
        ensures { WentTo (read_memory self.old) self.old self.new }
    {
        let outcome = client::read(self.who.number(), self.n, self.f, &mut self.memory);
        self.stepped(rt, outcome)
    }

    fn write(&mut self, rt: &impl Print, entry: Entry) -> io::Result<()>
        ensures { WentTo (written_memory entry self.old) self.old self.new }
    {
        let outcome = client::write(self.who.number(), self.n, self.f, entry, &mut self.memory);
        self.stepped(rt, outcome)
    }

    // Takes bytes from server k.
    fn take(&mut self, rt: &impl Print, k: u8, bytes: Bytes) -> io::Result<()>
        ensures { WentTo (taken_memory k bytes self.old) self.old self.new }
    {
        let (number, n, f) = (self.who.number(), self.n, self.f);
        let memory = &mut self.memory;
        let outcome = client::take(number, n, f, k, &bytes.0, memory);
        self.stepped(rt, outcome)
    }
}

// The clients and the servers, of which the first `live` serve messages. What prints is given `rt`, as in any program of
// the kit: the handle stays in `main`.
#[derive(Drop)]
pub struct Group {
    clients: [Client; 2],
    servers: [[u64; server::LENGTH]; MOST_SERVERS],
    pub live: u8,
    ghost within: { live ≤ 5 },
}

impl Group {
    pub fn new(n: u8, f: u8, live: u8) -> Group
        requires { live ≤ 5 }
        ensures live { result.live ≡ live }
        ensures servers { result.servers ≡ replicate 5 (replicate server_length 0) }
        ensures clients { result.clients ≡ new_client Who.First n f ∷ new_client Who.Second n f ∷ [] }
    {
        Group {
            clients: [
                Client::new(Who::First, n, f),
                Client::new(Who::Second, n, f),
            ],
            servers: [[0; server::LENGTH]; MOST_SERVERS],
            live,
        }
    }

    pub fn read(&mut self, rt: &impl Print, who: Who) -> io::Result<()>
        ensures live { self.new.live ≡ self.old.live }
        ensures servers { self.new.servers ≡ self.old.servers }
        ensures clients { Went who read_memory self.old.clients self.new.clients }
    {
        let clients = &mut self.clients;
        clients[who.index()].read(rt)
    }

    pub fn write(&mut self, rt: &impl Print, who: Who, entry: Entry) -> io::Result<()>
        ensures live { self.new.live ≡ self.old.live }
        ensures servers { self.new.servers ≡ self.old.servers }
        ensures clients { Went who (written_memory entry) self.old.clients self.new.clients }
    {
        let clients = &mut self.clients;
        clients[who.index()].write(rt, entry)
    }

    // A reply of server k to one client.
    fn reply(&mut self, rt: &impl Print, who: Who, k: u8, message: Message) -> io::Result<()>
        ensures live { self.new.live ≡ self.old.live }
        ensures servers { self.new.servers ≡ self.old.servers }
        ensures numbers { SameNumbers self.old.clients self.new.clients }
    {
        let bytes = Bytes::from(message);
        let clients = &mut self.clients;
        let client = &mut clients[who.index()];
        print_message(rt, Process::Server(k), client.process(), bytes)?;
        client.take(rt, k, bytes)
    }

    // FWD to the readers, the lowest first, and WRITE_ACK to the sender: all are sent before one is taken.
    fn forward(
        &mut self,
        rt: &impl Print,
        who: Who,
        k: u8,
        readers: u8,
        pair: Pair,
    ) -> io::Result<()>
        ensures live { self.new.live ≡ self.old.live }
        ensures servers { self.new.servers ≡ self.old.servers }
        ensures numbers { SameNumbers self.old.clients self.new.clients }
    {
        let fwd = Bytes::from(Message::Fwd(pair));
        let ack = Bytes::from(Message::WriteAck(message::counter_of(pair)));
        let server = Process::Server(k);
        for client in &self.clients {
            if client.is_in(readers) {
                print_message(rt, server, client.process(), fwd)?;
            }
        }
        print_message(rt, server, self.clients[who.index()].process(), ack)?;
        for client in &mut self.clients {
            if client.is_in(readers) {
                client.take(rt, k, fwd)?;
            }
        }
        self.clients[who.index()].take(rt, k, ack)
    }

    // Server k serves message j of a client.
    fn serve(&mut self, rt: &impl Print, who: Who, j: usize, k: u8) -> io::Result<()>
        requires { (j < 10) × (1 ≤ k) × (k ≤ 5) }
        ensures live { self.new.live ≡ self.old.live }
        ensures others { (i : ℕ) → (i ≡ k - 1 → ⊥)
            → slice_get self.new.servers i ≡ slice_get self.old.servers i }
        ensures own { Serves who j self.old.clients
            (slice_get self.old.servers (k - 1)) (slice_get self.new.servers (k - 1)) }
        ensures numbers { SameNumbers self.old.clients self.new.clients }
    {
        let sender = &self.clients[who.index()];
        let bytes = sender.sent[j];
        let memory = &mut self.servers[(k - 1) as usize];
        match server::serve(who.number() as u32, &bytes.0, memory) {
            Ok(server::Sends::Info(tag, pair)) => {
                self.reply(rt, who, k, Message::Info(tag, pair))
            }
            Ok(server::Sends::Forward(readers, pair)) => { self.forward(rt, who, k, readers, pair) }
            Ok(server::Sends::Nothing) | Err(_) => Ok(()),
        }
    }

    // Servers `first` to `last` serve message j of a client, one after the other.
    pub fn serve_from(
        &mut self,
        rt: &impl Print,
        who: Who,
        j: usize,
        first: u8,
        last: u8,
    ) -> io::Result<()>
        requires { (j < 10) × (1 ≤ first) × (last ≤ 5) }
        ensures live { self.new.live ≡ self.old.live }
        ensures before { (i : ℕ) → i < first - 1
            → slice_get self.new.servers i ≡ slice_get self.old.servers i }
        ensures behind { (i : ℕ) → last ≤ i
            → slice_get self.new.servers i ≡ slice_get self.old.servers i }
        ensures numbers { SameNumbers self.old.clients self.new.clients }
    {
        for k in first..=last {
            self.serve(rt, who, j, k)?;
        }
        Ok(())
    }

    // Every server that serves does so.
    pub fn serve_all(&mut self, rt: &impl Print, who: Who, j: usize) -> io::Result<()>
        requires { j < 10 }
        ensures live { self.new.live ≡ self.old.live }
        ensures behind { (i : ℕ) → self.old.live ≤ i
            → slice_get self.new.servers i ≡ slice_get self.old.servers i }
        ensures numbers { SameNumbers self.old.clients self.new.clients }
    {
        self.serve_from(rt, who, j, 1, self.live)
    }
}
