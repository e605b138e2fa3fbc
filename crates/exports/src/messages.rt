// Packing and unpacking. A message is five numbers: kind, tag, counter, client, entry (01, section
// 'Message').
ghost use Rattle.std.specs.Prelude.{◌≡◌, [], ◌∷◌};
ghost use Rattle.message.specs.Pair.{counter, client, entry};
ghost use Rattle.message.specs.Layout.{unpack_of};
ghost use Rattle.exports.specs.Fields.{message_by, message_in, fields_of, packed_number};
ghost use Rattle.exports.specs.Fields.{packed_bytes};
ghost use Rattle.exports.specs.Fields.{unpacked_fields};
ghost use Rattle.exports.specs.Status.{status_of};

use crate::status;
use message::{Entry, KIND_AT, Message, Pair, Words, client_of, counter_of, entry_of};
use refusal::Refusal;

// The first numbers over the widths of the fields.
const OVER_KIND: u64 = 1 << message::KIND_BITS;

const OVER_CLIENT: u64 = 1 << message::CLIENT_BITS;

const OVER_ENTRY: u64 = 1 << message::ENTRY_BITS;

// The message that five numbers are, or that they are none.
fn message_of(
    kind: u64,
    tag: u64,
    counter: u64,
    client: u64,
    entry: u64,
) -> Result<Message, Refusal>
    ensures { result ≡ message_by kind tag counter client entry }
{
    if OVER_KIND <= kind {
        return Err(Refusal::Malformed);
    }
    if !message::fits_read(tag) {
        return Err(Refusal::Malformed);
    }
    if !message::fits_counter(counter) {
        return Err(Refusal::Malformed);
    }
    if OVER_CLIENT <= client {
        return Err(Refusal::Malformed);
    }
    if OVER_ENTRY <= entry {
        return Err(Refusal::Malformed);
    }
    let pair = message::pair_of(message::counter_from(counter), client as u8, Entry(entry));
    message::of_words(Words(((kind as u32) << KIND_AT) | (tag as u32), pair.0))
}

// The five numbers of a message that has a pair.
fn fields_with(kind: u64, tag: u64, pair: Pair) -> [u64; 5]
    ensures { result ≡ kind ∷ tag ∷ (counter pair).0 ∷ client pair ∷ (entry pair).0 ∷ [] }
{
    [
        kind,
        tag,
        u64::from(counter_of(pair)),
        client_of(pair) as u64,
        entry_of(pair).0,
    ]
}

// The five numbers of a message.
#[tactic(auto, unfolding(crate::specs::Fields::fields_of))]
fn fields_of(message: Message) -> [u64; 5]
    ensures { result ≡ fields_of message }
{
    match message {
        Message::GetInfo(tag) => [1, u64::from(tag), 0, 0, 0],
        Message::Info(tag, pair) => fields_with(2, u64::from(tag), pair),
        Message::Done => [3, 0, 0, 0, 0],
        Message::WriteInfo(pair) => fields_with(4, 0, pair),
        Message::Fwd(pair) => fields_with(5, 0, pair),
        Message::WriteAck(counter) => [6, 0, u64::from(counter), 0, 0],
    }
}

// Packs five numbers into the first eleven bytes of out. Answers 0, or the refusal's number (9, then 13) and
// leaves out as it is.
#[unsafe(no_mangle)]
pub extern "C" fn exports_pack(fields: &[u64; 5], out: &mut [u8]) -> u32
    ensures answer { result ≡ packed_number (message_in fields.now) out.old }
    ensures bytes { out.new
        ≡ packed_bytes (message_in fields.now) out.old }
{
    let given = message_of(fields[0], fields[1], fields[2], fields[3], fields[4]);
    match given {
        Err(why) => u8::from(why) as u32,
        Ok(message) => status(message::pack(message, out)),
    }
}

// Unpacks eleven bytes into five numbers. Answers 0, or the refusal's number (9) and leaves fields as they
// were.
#[unsafe(no_mangle)]
pub extern "C" fn exports_unpack(bytes: &[u8], fields: &mut [u64; 5]) -> u32
    ensures answer { result ≡ status_of (unpack_of bytes.now) }
    ensures fields { fields.new
        ≡ unpacked_fields (unpack_of bytes.now) fields.old }
{
    let given = message::unpack(bytes);
    match given {
        Err(why) => u8::from(why) as u32,
        Ok(message) => {
            *fields = fields_of(message);
            0
        }
    }
}
