// The types of the protocol and the message's eleven bytes (01, section 'Message').
#![tactic(auto)]

ghost use Rattle.std.specs.Prelude.{◌≡◌, true, false, cond, ◌&&◌, ◌<◌, ◌≤◌, ◌+◌, ◌*◌, ◌%◌, ◌^◌, eqb, leb, ltb, length, take, drop};
ghost use Rattle.std.proofs.lemmas.List.Edits.{sets};
ghost use Rattle.basics.specs.Bytes.{big_endian, spelt};
ghost use Rattle.message.specs.Layout.{kind_bits, tag_bits, last_read, last_counter, message_bytes};
ghost use Rattle.message.specs.Layout.{goes, malformed, message_of, is_reply, well_formed, unpack_of};
ghost use Rattle.message.specs.Layout.{words, words_number, words_of};
ghost use Rattle.message.specs.Packing.{pack_answer, pack_leaves};
ghost use Rattle.message.specs.Pair.{counter_bits, client_bits, entry_bits};
ghost use Rattle.message.specs.Pair.{counter, client, entry, stamp, pair_of, below};

use basics::OVER_32;
use refusal::Refusal;

// The number of a client's read (01: the tag). Never a write counter, although document 001 calls both
// my_ctr: only this module looks inside, and nothing compares the two.
#[derive(Clone, Copy, PartialEq, Eq)]
pub struct ReadNumber(u32);

// The counter of a write, half of its timestamp.
#[derive(Clone, Copy, PartialEq, Eq)]
pub struct WriteCounter(u32);

// The forty bits of a licence's end, whatever they say.
#[derive(Clone, Copy)]
pub struct Entry(pub u64);

// Counter and client in 24 bits, counter * 16 + client: the order of timestamps is that of the numbers.
#[derive(Clone, Copy, PartialEq, Eq, PartialOrd, Ord)]
pub struct Timestamp(pub u32);

// Timestamp and entry in 64 bits: counter 20, client 4, entry 40. Pairs are in order by timestamp, then by entry.
#[derive(Clone, Copy, PartialEq, Eq, PartialOrd, Ord)]
pub struct Pair(pub u64);

// A message by its kind.
#[derive(Clone, Copy)]
pub enum Message {
    GetInfo(ReadNumber), // 1
    Info(ReadNumber, Pair), // 2
    Done, // 3
    WriteInfo(Pair), // 4
    Fwd(Pair), // 5
    WriteAck(WriteCounter), // 6
}

// The eleven bytes as two numbers: the first three, and the last eight.
#[derive(Clone, Copy)]
pub struct Words(pub u32, pub u64);

// The bytes of a message's first word, of its second, and of all.
pub const HEAD_BYTES: usize = 3;

const LOW_BYTES: usize = 8;

pub const MESSAGE_BYTES: usize = HEAD_BYTES + LOW_BYTES;

// How many bits each field has.
pub const KIND_BITS: u32 = 4;

pub const TAG_BITS: u32 = 20;

pub const COUNTER_BITS: u32 = 20;

pub const CLIENT_BITS: u32 = 4;

pub const ENTRY_BITS: u32 = 40;

// The bits behind the kind in the first word, and behind client and counter in the second.
pub const KIND_AT: u32 = TAG_BITS;

const CLIENT_AT: u32 = ENTRY_BITS;

const COUNTER_AT: u32 = CLIENT_AT + CLIENT_BITS;

// The highest of each width, which is also its mask, and all bits behind the counter.
const TAG_MASK: u32 = (1 << TAG_BITS) - 1;

const COUNTER_MASK: u32 = (1 << COUNTER_BITS) - 1;

const CLIENT_MASK: u64 = (1 << CLIENT_BITS) - 1;

const ENTRY_MASK: u64 = (1 << ENTRY_BITS) - 1;

const BEHIND_COUNTER: u64 = (1 << COUNTER_AT) - 1;

// The highest read number (the tag is one), and the highest write counter.
const LAST_READ: u32 = TAG_MASK;

const LAST_COUNTER: u32 = COUNTER_MASK;

// The first numbers over the widths of tag and counter.
const OVER_TAG: u32 = TAG_MASK + 1;

const OVER_COUNTER: u32 = COUNTER_MASK + 1;

// ---- read numbers, and behind them write counters, with the same functions: they are two tuple structs so that
// none stands for the other, and a trait over both would repeat the bodies in its impls

// No higher one follows.
pub fn is_last_read(tag: ReadNumber) -> bool
    ensures { result ≡ leb last_read tag.0 }
{
    LAST_READ <= tag.0
}

pub fn next_read(tag: ReadNumber) -> ReadNumber
    requires { tag.0 < last_read }
    ensures { result ≡ record { 0 = tag.0 + 1 } }
{
    ReadNumber(tag.0 + 1)
}

// A word of memory has no more than a read number's twenty bits.
pub fn fits_read(word: u64) -> bool
    ensures { result ≡ ltb word (2 ^ tag_bits) }
{
    word < OVER_TAG as u64
}

// The read number of a word, of which the low 32 bits count.
pub fn read_from(word: u64) -> ReadNumber
    ensures { result ≡ record { 0 = word % 2 ^ 32 } }
{
    ReadNumber((word % OVER_32) as u32)
}

impl From<ReadNumber> for u64 {
    ghost from_gives = { λ tag word. word ≡ tag.0 };

    fn from(tag: ReadNumber) -> u64 {
        tag.0 as u64
    }
}

// ---- write counters

// It is the highest.
pub fn is_last_counter(count: WriteCounter) -> bool
    ensures { result ≡ eqb count.0 last_counter }
{
    count.0 == LAST_COUNTER
}

pub fn next_counter(count: WriteCounter) -> WriteCounter
    requires { count.0 < last_counter }
    ensures { result ≡ record { 0 = count.0 + 1 } }
{
    WriteCounter(count.0 + 1)
}

// A word of memory has no more than a counter's twenty bits.
pub fn fits_counter(word: u64) -> bool
    ensures { result ≡ ltb word (2 ^ counter_bits) }
{
    word < OVER_COUNTER as u64
}

// The counter of a word, of which the low 32 bits count.
pub fn counter_from(word: u64) -> WriteCounter
    ensures { result ≡ record { 0 = word % 2 ^ 32 } }
{
    WriteCounter((word % OVER_32) as u32)
}

impl From<WriteCounter> for u64 {
    ghost from_gives = { λ count word. word ≡ count.0 };

    fn from(count: WriteCounter) -> u64 {
        count.0 as u64
    }
}

// ---- pairs

pub fn counter_of(pair: Pair) -> WriteCounter
    ensures { result ≡ counter pair }
{
    WriteCounter((pair.0 >> COUNTER_AT) as u32)
}

pub fn client_of(pair: Pair) -> u8
    ensures { result ≡ client pair }
{
    ((pair.0 >> CLIENT_AT) & CLIENT_MASK) as u8
}

pub fn entry_of(pair: Pair) -> Entry
    ensures { result ≡ entry pair }
{
    Entry(pair.0 & ENTRY_MASK)
}

pub fn stamp_of(pair: Pair) -> Timestamp
    ensures { result.0 ≡ stamp pair }
{
    Timestamp((pair.0 >> CLIENT_AT) as u32)
}

// The pair of a counter, the client that writes, and an entry.
pub fn pair_of(count: WriteCounter, d: u8, content: Entry) -> Pair
    requires { (count.0 < 2 ^ counter_bits) × (d < 2 ^ client_bits) × (content.0 < 2 ^ entry_bits) }
    ensures { result ≡ pair_of count d content }
{
    Pair(((count.0 as u64) << COUNTER_AT) | ((d as u64) << CLIENT_AT) | content.0)
}

// ---- a message as a number in two words

// Kind and tag, of which the last twenty bits count.
fn head(kind: u32, tag: u32) -> u32
    requires { kind < 2 ^ kind_bits }
    ensures { result ≡ kind * 2 ^ tag_bits + tag % 2 ^ tag_bits }
{
    (kind << KIND_AT) | (tag & TAG_MASK)
}

// The number of a message. A tag or counter over its width loses bits here; `pack` refuses it.
pub fn words_of(message: Message) -> Words
    ensures { result ≡ words_of message }
{
    match message {
        Message::GetInfo(tag) => Words(head(1, tag.0), 0),
        Message::Info(tag, pair) => Words(head(2, tag.0), pair.0),
        Message::Done => Words(head(3, 0), 0),
        Message::WriteInfo(pair) => Words(head(4, 0), pair.0),
        Message::Fwd(pair) => Words(head(5, 0), pair.0),
        Message::WriteAck(count) => Words(
            head(6, 0),
            ((count.0 & COUNTER_MASK) as u64) << COUNTER_AT,
        ),
    }
}

// The message, if what it does not use of the tag and the low bits is zero.
fn if_zero(tag: u32, low: u64, message: Message) -> Result<Message, Refusal>
    ensures { result ≡ cond (eqb tag 0 && eqb low 0) (Ok message) malformed }
{
    if tag != 0 {
        return Err(Refusal::Malformed);
    }
    if low != 0 {
        return Err(Refusal::Malformed);
    }
    Ok(message)
}

// The message of a number, or the refusal of one that is none: always 9.
pub fn of_words(words: Words) -> Result<Message, Refusal>
    ensures { result ≡ message_of (words_number words) }
{
    let kind = words.0 >> KIND_AT;
    let tag = words.0 & TAG_MASK;
    let low = words.1;
    match kind {
        1 => if_zero(0, low, Message::GetInfo(ReadNumber(tag))),
        2 => Ok(Message::Info(ReadNumber(tag), Pair(low))),
        3 => if_zero(tag, low, Message::Done),
        4 => if_zero(tag, 0, Message::WriteInfo(Pair(low))),
        5 => if_zero(tag, 0, Message::Fwd(Pair(low))),
        6 => if_zero(
            tag,
            low & BEHIND_COUNTER,
            Message::WriteAck(WriteCounter((low >> COUNTER_AT) as u32)),
        ),
        _ => Err(Refusal::Malformed),
    }
}

// The message of a number that is known to go up to a server, or down from one, as on a sound channel: the
// kind alone tells which. By what is known no other kind comes here, so the last line is never reached. Two
// functions, since they have no kind in common.
pub fn request_of(words: Words) -> Result<Message, Refusal>
    requires { goes false (message_of (words_number words)) ≡ true }
    ensures { result ≡ message_of (words_number words) }
{
    let kind = words.0 >> KIND_AT;
    if kind == 1 {
        return Ok(Message::GetInfo(ReadNumber(words.0 & TAG_MASK)));
    }
    if kind == 4 {
        return Ok(Message::WriteInfo(Pair(words.1)));
    }
    if kind == 3 {
        return Ok(Message::Done);
    }
    Err(Refusal::Malformed)
}

pub fn reply_of(words: Words) -> Result<Message, Refusal>
    requires { goes true (message_of (words_number words)) ≡ true }
    ensures { result ≡ message_of (words_number words) }
{
    let kind = words.0 >> KIND_AT;
    if kind == 5 {
        return Ok(Message::Fwd(Pair(words.1)));
    }
    if kind == 6 {
        let counter = WriteCounter((words.1 >> COUNTER_AT) as u32);
        return Ok(Message::WriteAck(counter));
    }
    if kind == 2 {
        return Ok(Message::Info(ReadNumber(words.0 & TAG_MASK), Pair(words.1)));
    }
    Err(Refusal::Malformed)
}

// ---- words as bytes

// Writes the last bytes of a number, count of them, from place at on.
fn write_bytes(number: u64, count: usize, out: &mut [u8], at: usize)
    requires { (count ≤ 8) × (at + count ≤ length out.old) }
    ensures { out.new ≡ sets out.old at (big_endian count number) }
{
    for i in 0..count {
        out[at + i] = basics::byte(number, (8 * (count - 1 - i)) as u32);
    }
}

// The number that the bytes from place at on spell, count of them.
fn read_bytes(bytes: &[u8], at: usize, count: usize) -> u64
    requires { (count ≤ 8) × (at + count ≤ length bytes.now) }
    ensures within { result < 256 ^ count }
    ensures spelt { result ≡ spelt 0 (take count (drop at bytes.now)) }
{
    let mut number = 0;
    for i in 0..count {
        number = basics::push(number, bytes[at + i]);
    }
    number
}

// Writes the bytes of a message's number from place at on.
pub fn store(words: Words, out: &mut [u8], at: usize)
    requires { at + message_bytes ≤ length out.old }
    ensures { out.new
        ≡ sets out.old at (big_endian message_bytes (words_number words)) }
{
    write_bytes(words.0 as u64, HEAD_BYTES, out, at);
    write_bytes(words.1, LOW_BYTES, out, at + HEAD_BYTES);
}

// The number that the bytes of a message from place at on spell.
pub fn load(bytes: &[u8], at: usize) -> Words
    requires { at + message_bytes ≤ length bytes.now }
    ensures { result ≡ words (spelt 0 (take message_bytes (drop at bytes.now))) }
{
    Words(
        read_bytes(bytes, at, HEAD_BYTES) as u32,
        read_bytes(bytes, at + HEAD_BYTES, LOW_BYTES),
    )
}

// ---- kinds and widths

// Whether a message goes to a client: INFO, FWD and WRITE_ACK are replies, the others requests.
#[tactic(auto, unfolding(crate::specs::Layout::is_reply))]
pub fn is_reply(message: Message) -> bool
    ensures { result ≡ is_reply message }
{
    match message {
        Message::GetInfo(_) => false,
        Message::Info(_, _) => true,
        Message::Done => false,
        Message::WriteInfo(_) => false,
        Message::Fwd(_) => true,
        Message::WriteAck(_) => true,
    }
}

// No field over its width. A pair's are not, since it has 64 bits.
pub fn is_well_formed(message: Message) -> bool
    ensures { result ≡ well_formed message }
{
    match message {
        Message::GetInfo(tag) => tag.0 < OVER_TAG,
        Message::Info(tag, _pair) => tag.0 < OVER_TAG,
        Message::Done => true,
        Message::WriteInfo(_pair) => true,
        Message::Fwd(_pair) => true,
        Message::WriteAck(count) => count.0 < OVER_COUNTER,
    }
}

// ---- packing and unpacking

// Packs a message into the first bytes of out, or refuses (9, then 13) and leaves out as it was.
pub fn pack(message: Message, out: &mut [u8]) -> Result<(), Refusal>
    ensures answer { result ≡ pack_answer message out.old }
    ensures bytes { out.new ≡ pack_leaves message out.old }
{
    if !is_well_formed(message) {
        return Err(Refusal::Malformed);
    }
    if out.len() < MESSAGE_BYTES {
        return Err(Refusal::ShortBuffer);
    }
    store(words_of(message), out, 0);
    Ok(())
}

// The message of a slice of any length, or a refusal (9).
pub fn unpack(bytes: &[u8]) -> Result<Message, Refusal>
    ensures { result ≡ unpack_of bytes.now }
{
    if bytes.len() != MESSAGE_BYTES {
        return Err(Refusal::Malformed);
    }
    of_words(load(bytes, 0))
}
