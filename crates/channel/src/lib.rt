// FIFO channels between clients and servers, all in one long array of numbers that the caller lends (01:
// wires).
//
// Channel i has its count at place i. Behind the counts each channel has eight slots of two numbers, oldest
// message first. A slot that is not used is zero. What the numbers stand for is in specs/Layout; proofs/ has
// the laws that callers use. A channel goes by its index, and each `requires` has the bound, as for an array.
#![tactic(auto)]

ghost use Rattle.std.specs.Prelude.{◌≡◌, ◌+◌, ◌*◌, ◌<◌, ◌≤◌, replicate};
ghost use Rattle.basics.specs.Tests.{all_pass, all_below};
ghost use Rattle.channel.specs.Sound.{channel_tests, slot_goes, sound, words_go, zero_from};
ghost use Rattle.channel.specs.Memory.{channels, per_message, per_channel, slots_length, count_at};
ghost use Rattle.channel.specs.Memory.{cleared, oldest_on, put_on, shifted, removed, zeroed};

use basics::OVER_32;
use message::Words;

// Servers and clients that there are places for.
pub const SERVERS: usize = register::MOST_SERVERS as usize;

pub const CLIENTS: usize = register::MOST_CLIENTS as usize;

// Channels from clients to servers, which stand before those back.
pub const UPWARD: usize = CLIENTS * SERVERS;

// All channels, which is also where the slots begin.
const CHANNELS: usize = 2 * UPWARD;

// Messages that a channel holds at most.
pub const CAPACITY: u64 = register::CAPACITY as u64;

// Numbers of a message, and of a channel's slots.
const PER_MESSAGE: usize = 2;

const PER_CHANNEL: usize = CAPACITY as usize * PER_MESSAGE;

// Numbers of all of them but the last: those that move down.
const MOVED: usize = PER_CHANNEL - PER_MESSAGE;

// Numbers of the memory of all channels.
pub const SLOTS_LENGTH: usize = CHANNELS + CHANNELS * PER_CHANNEL;

// The memory of all channels.
pub type Slots = [u64; SLOTS_LENGTH];

// No message anywhere, and every slot zero.
pub fn empty_slots() -> Slots
    ensures { result ≡ replicate slots_length 0 }
{
    [0u64; SLOTS_LENGTH]
}

// How many messages channel i holds.
pub fn count(slots: &Slots, i: usize) -> u64
    requires { i < channels }
    ensures { result ≡ count_at slots.now i }
{
    slots[i]
}

// The n numbers from `at` on become zero.
fn zero(slots: &mut Slots, at: usize, n: usize)
    requires { at + n ≤ slots_length }
    ensures { slots.new ≡ zeroed slots.old at n }
{
    slots[at..at + n].fill(0);
}

// Puts a message on channel i, behind those that it holds. A full channel stays as it is.
#[tactic(auto, unfolding(crate::specs::Memory::put_on))]
pub fn put(slots: &mut Slots, i: usize, words: Words)
    requires { i < channels }
    ensures { slots.new ≡ put_on slots.old i words }
{
    let held = slots[i];
    if held < CAPACITY {
        let free = CHANNELS + i * PER_CHANNEL + held as usize * PER_MESSAGE;
        slots[free] = words.0 as u64;
        slots[free + 1] = words.1;
        slots[i] = held + 1;
    }
}

// The message in the first slot of channel i, which is the oldest. Of its first number the low 32 bits count:
// in sound memory it has no more, and an empty channel has zeros there.
pub fn oldest(slots: &Slots, i: usize) -> Words
    requires { i < channels }
    ensures { result ≡ oldest_on slots.now i }
{
    let at = CHANNELS + i * PER_CHANNEL;
    Words((slots[at] % OVER_32) as u32, slots[at + 1])
}

// Each of the seven slots from `at` on gets what the next one held.
fn shift(slots: &mut Slots, at: usize)
    requires { at + per_channel ≤ slots_length }
    ensures { slots.new ≡ shifted slots.old at }
{
    slots.copy_within(at + PER_MESSAGE..at + PER_CHANNEL, at);
}

// Takes the oldest message off channel i: the rest moves down, and the slot that falls free is zeroed.
pub fn remove(slots: &mut Slots, i: usize)
    requires { i < channels }
    ensures { slots.new ≡ removed slots.old i }
{
    let held = slots[i];
    if 0 < held {
        let at = CHANNELS + i * PER_CHANNEL;
        shift(slots, at);
        zero(slots, at + MOVED, PER_MESSAGE);
        slots[i] = held - 1;
    }
}

// Empties channel i.
pub fn clear(slots: &mut Slots, i: usize)
    requires { i < channels }
    ensures { slots.new ≡ cleared slots.old i }
{
    zero(slots, CHANNELS + i * PER_CHANNEL, PER_CHANNEL);
    slots[i] = 0;
}

// ---- soundness

// Whether the n numbers from `at` on are zero. They are joined by OR with no early leave, so that this
// becomes vector code.
fn zeros(slots: &Slots, at: usize, n: usize) -> bool
    requires { at + n ≤ slots_length }
    ensures { result ≡ zero_from slots.now at n }
{
    let all = slots[at..at + n].iter();
    all.fold(0, |joined, number| joined | *number) == 0
}

// Whether two numbers are the words of a message that goes that way. A first number over 32 bits is no
// message's.
fn words_go(first: u64, second: u64, down: bool) -> bool
    ensures { result ≡ words_go down first second }
{
    if OVER_32 <= first {
        return false;
    }
    let Ok(message) = message::of_words(Words(first as u32, second)) else {
        return false;
    };
    message::is_reply(message) == down
}

// Whether the n slots from `at` on hold messages that go that way.
fn slots_go(slots: &Slots, at: usize, n: usize, down: bool) -> bool
    requires { at + n * per_message ≤ slots_length }
    ensures { result ≡ all_below (λ j. slot_goes down slots.now (at + j * per_message)) n }
{
    (0..n).all(|j| {
        let place = at + j * PER_MESSAGE;
        words_go(slots[place], slots[place + 1], down)
    })
}

// Whether channel i is sound. Most are empty, and one pass over their slots says so.
#[tactic(auto, unfolding(crate::specs::Sound::channel_tests))]
fn channel_sound(slots: &Slots, i: usize) -> bool
    requires { i < channels }
    ensures { result ≡ all_pass (channel_tests slots.now i) }
{
    let at = CHANNELS + i * PER_CHANNEL;
    let held = slots[i];
    if held == 0 {
        return zeros(slots, at, PER_CHANNEL);
    }
    if CAPACITY < held {
        return false;
    }
    let n = held as usize;
    if !slots_go(slots, at, n, UPWARD <= i) {
        return false;
    }
    zeros(slots, at + n * PER_MESSAGE, PER_CHANNEL - n * PER_MESSAGE)
}

// Whether the memory is sound: every count in range, every used slot a message that goes its channel's way,
// all else zero.
pub fn is_sound(slots: &Slots) -> bool
    ensures { result ≡ sound slots.now }
{
    (0..CHANNELS).all(|i| channel_sound(slots, i))
}
