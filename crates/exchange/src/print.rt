// What the lines show: clients and servers by their numbers, the bytes of a message, and the outcome of a read or
// a write.
ghost use Rattle.std.specs.Prelude.{◌≡◌, replicate};
ghost use Rattle.message.specs.Layout.{message_bytes};
ghost use Rattle.message.specs.Packing.{pack_leaves};

use message::{MESSAGE_BYTES, Message, Pair};
use refusal::Refusal;
use register::Answer;
use std::{fmt, io};

// A client or a server, by its number from 1 on.
#[derive(Clone, Copy)]
pub enum Process {
    Client(u8),
    Server(u8),
}

impl fmt::Display for Process {
    fn fmt<W: fmt::Write>(&self, f: &mut fmt::Formatter<W>) -> fmt::Result {
        match self {
            Process::Client(number) => write!(f, "client {number}"),
            Process::Server(number) => write!(f, "server {number}"),
        }
    }
}

// A message as it is sent.
#[derive(Clone, Copy)]
pub struct Bytes(pub [u8; MESSAGE_BYTES]);

impl From<Message> for Bytes {
    ghost from_gives = { λ message bytes. bytes.0 ≡ pack_leaves message (replicate message_bytes 0) };

    fn from(message: Message) -> Bytes {
        let mut bytes = [0; MESSAGE_BYTES];
        // A buffer of eleven bytes is never too short, and the ends send nothing over its width.
        let _ = message::pack(message, &mut bytes);
        Bytes(bytes)
    }
}

impl fmt::Display for Bytes {
    fn fmt<W: fmt::Write>(&self, f: &mut fmt::Formatter<W>) -> fmt::Result {
        for byte in &self.0 {
            write!(f, "{byte:02X}")?;
        }
        Ok(())
    }
}

// A pair as its counter, its client and its entry.
#[derive(Clone, Copy)]
struct Fields(Pair);

impl fmt::Display for Fields {
    fn fmt<W: fmt::Write>(&self, f: &mut fmt::Formatter<W>) -> fmt::Result {
        let pair = self.0;
        let counter = u64::from(message::counter_of(pair));
        let client = message::client_of(pair);
        let entry = message::entry_of(pair).0;
        write!(f, "{counter} {client} {entry:010X}")
    }
}

pub fn print_message(rt: &impl Print, from: Process, to: Process, bytes: Bytes) -> io::Result<()> {
    println!(rt; "{from} to {to}: {bytes}")
}

// What a client answers, unless it only goes on.
pub fn print_answer(rt: &impl Print, client: Process, answer: Answer) -> io::Result<()> {
    match answer {
        Answer::Went => Ok(()),
        Answer::Read(pair) => println!(rt; "{client} READ {}", Fields(pair)),
        Answer::Wrote(pair) => println!(rt; "{client} WROTE {}", Fields(pair)),
        Answer::Spent => println!(rt; "{client} SPENT"),
    }
}

pub fn print_refused(rt: &impl Print, client: Process, why: Refusal) -> io::Result<()> {
    println!(rt; "{client} REFUSED {}", u8::from(why))
}
