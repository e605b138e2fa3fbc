// Digests of packing and unpacking messages at the edges of every field.
ghost use Rattle.std.specs.Prelude.{◌≡◌, ◌≤◌, ◌<◌, ◌^◌};
ghost use Rattle.message.specs.Layout.{kind_bits};
ghost use Rattle.message.specs.Packing.{pack_leaves};
ghost use Rattle.sheets.specs.Messages.{with_pair, with_message, with_bytes, with_unpacked, with_packed};
ghost use Rattle.sheets.specs.Messages.{with_lengths, edge_of, pattern_of, kind_digest};
ghost use Rattle.sheets.specs.Messages.{sample_of, with_buffers, pack_digest};

use crate::digest::{mix, with_answer};
use message::{MESSAGE_BYTES, Message, Pair, Words};

// The highest of each width.
const HIGHEST_TAG: u64 = (1 << message::TAG_BITS) - 1;

const HIGHEST_COUNTER: u64 = (1 << message::COUNTER_BITS) - 1;

const HIGHEST_CLIENT: u64 = (1 << message::CLIENT_BITS) - 1;

const HIGHEST_ENTRY: u64 = (1 << message::ENTRY_BITS) - 1;

const PATTERNS: u64 = 81;

// Tags and counters, two of them over their width; pairs, each at an edge of a field.
const TAGS: [u32; 5] = [0, 1, 0xF_FFFF, 0x10_0000, 0xFFFF_FFFF];

const PAIRS: [u64; 6] = [
    0,
    1,
    0xFF_FFFF_FFFF,
    0x100_0000_0000,
    0x1000_0000_0000,
    0xFFFF_FFFF_FFFF_FFFF,
];

const SAMPLES: usize = 30;

// One byte fewer than a message has, and one more.
const SHORT: usize = MESSAGE_BYTES - 1;

const LONG: usize = MESSAGE_BYTES + 1;

// The bytes of the longest buffer, and how many lengths there are up to it.
const MOST_BYTES: usize = MESSAGE_BYTES + 2;

const LENGTHS: usize = MOST_BYTES + 1;

fn with_pair(digest: u64, pair: Pair) -> u64
    ensures { result ≡ with_pair pair digest }
{
    let counter = message::counter_of(pair);
    let entry = message::entry_of(pair);
    mix(
        mix(
            mix(digest, u64::from(counter)),
            u64::from(message::client_of(pair)),
        ),
        entry.0,
    )
}

// A message's kind and fields.
fn with_message(digest: u64, message: Message) -> u64
    ensures { result ≡ with_message message digest }
{
    match message {
        Message::GetInfo(tag) => mix(mix(digest, 1), u64::from(tag)),
        Message::Info(tag, pair) => with_pair(mix(mix(digest, 2), u64::from(tag)), pair),
        Message::Done => mix(digest, 3),
        Message::WriteInfo(pair) => with_pair(mix(digest, 4), pair),
        Message::Fwd(pair) => with_pair(mix(digest, 5), pair),
        Message::WriteAck(counter) => mix(mix(digest, 6), u64::from(counter)),
    }
}

// What the bytes are unpacked to.
#[tactic(auto, unfolding(crate::specs::Messages::with_unpacked))]
fn with_unpacked(digest: u64, bytes: &[u8]) -> u64
    ensures { result ≡ with_unpacked bytes.now digest }
{
    with_answer(digest, message::unpack(bytes), with_message)
}

#[tactic(auto, unfolding(crate::specs::Messages::with_bytes))]
fn with_bytes(digest: u64, bytes: &[u8]) -> u64
    ensures { result ≡ with_bytes bytes.now digest }
{
    bytes
        .iter()
        .fold(digest, |before, byte| mix(before, u64::from(*byte)))
}

// What packing answers, and all that the buffer holds afterwards.
#[tactic(auto, unfolding(crate::specs::Messages::with_packed))]
fn with_packed(digest: u64, message: Message, out: &mut [u8]) -> u64
    ensures value { result ≡ with_packed message out.old digest }
    ensures out_after { out.new ≡ pack_leaves message out.old }
{
    let answer = message::pack(message, out);
    with_bytes(with_answer(digest, answer, |before, _packed| before), out)
}

// Ten, eleven and twelve bytes that begin with a number's.
fn with_lengths(digest: u64, number: Words) -> u64
    ensures { result ≡ with_lengths number digest }
{
    let mut space = [0u8; LONG];
    message::store(number, &mut space, 0);
    let of_ten = with_unpacked(digest, &space[..SHORT]);
    let of_eleven = with_unpacked(of_ten, &space[..MESSAGE_BYTES]);
    with_unpacked(of_eleven, &space)
}

// The lowest of a field, one more, and the highest.
fn edge(highest: u64, i: u64) -> u64
    requires { 1 ≤ highest }
    ensures value { result ≡ edge_of highest i }
    ensures upper_bound { result ≤ highest }
{
    match i {
        0 => 0,
        1 => 1,
        _ => highest,
    }
}

// The i-th pattern of a kind: each field at each of its edges.
fn pattern(kind: u64, i: u64) -> Words
    requires { kind < 2 ^ kind_bits }
    ensures { result ≡ pattern_of kind i }
{
    let tag = edge(HIGHEST_TAG, i / 27);
    let counter = edge(HIGHEST_COUNTER, i / 9 % 3);
    let client = edge(HIGHEST_CLIENT, i / 3 % 3);
    let entry = edge(HIGHEST_ENTRY, i % 3);
    Words(
        (kind * 0x10_0000 + tag) as u32,
        counter * 0x1000_0000_0000 + client * 0x100_0000_0000 + entry,
    )
}

// What the patterns of a kind are unpacked to.
#[tactic(auto, unfolding(crate::specs::Digest::in_turn))]
pub fn of_kind(kind: u64) -> u64
    requires { kind < 2 ^ kind_bits }
    ensures { result ≡ kind_digest kind }
{
    (0..PATTERNS).fold(0, |before, i| with_lengths(before, pattern(kind, i)))
}

// A message of a kind, 6 where there is no other.
#[tactic(auto, unfolding(crate::specs::Messages::sample_of))]
fn sample(kind: u64, number: u32, pair: u64) -> Message
    ensures { result ≡ sample_of kind number pair }
{
    match kind {
        1 => Message::GetInfo(message::read_from(u64::from(number))),
        2 => Message::Info(message::read_from(u64::from(number)), Pair(pair)),
        3 => Message::Done,
        4 => Message::WriteInfo(Pair(pair)),
        5 => Message::Fwd(Pair(pair)),
        _ => Message::WriteAck(message::counter_from(u64::from(number))),
    }
}

// A message packed into buffers of 0 to 13 bytes.
#[tactic(auto, unfolding(crate::specs::Digest::in_turn, crate::specs::Messages::with_buffers))]
fn with_buffers(digest: u64, message: Message) -> u64
    ensures { result ≡ with_buffers message digest }
{
    (0..LENGTHS).fold(digest, |before, n| {
        let mut space = [0xA5u8; MOST_BYTES];
        with_packed(before, message, &mut space[..n])
    })
}

// What messages of a kind are packed to.
#[tactic(auto, unfolding(crate::specs::Digest::in_turn))]
pub fn packed_kind(kind: u64) -> u64
    ensures { result ≡ pack_digest kind }
{
    (0..SAMPLES).fold(
        0,
        |before, i| with_buffers(before, sample(kind, TAGS[i / 6], PAIRS[i % 6])),
    )
}
