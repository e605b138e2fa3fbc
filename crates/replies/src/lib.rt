// What the servers have replied to one client, in memory that it is lent, in four rows (specs/Replies).
// A server is named here by its place, which is its number less one. Each `requires` has its bound and that of n,
// as for an index: the documents name these functions as they are called.
#![tactic(auto)]

ghost use Rattle.std.specs.Prelude.{◌≡◌, cond, suc, ◌+◌, ◌*◌, ◌<◌, ◌≤◌, length, drop, replicate};
ghost use Rattle.basics.specs.Counting.{count_below};
ghost use Rattle.register.specs.Settings.{most_servers};
ghost use Rattle.register.specs.Thresholds.{counted};
ghost use Rattle.register.specs.PairSet.{has, add};
ghost use Rattle.register.specs.Client.{is_noted, is_at_most, higher, chosen, set_limit};
ghost use Rattle.replies.specs.Replies.{replies_length, note_of, pairs_of, four_at, noted_in, set_in, ack_in};
ghost use Rattle.replies.specs.Replies.{put_note, put_ack, put_set, Padded};
ghost use Rattle.replies.specs.Sound.{is_rising, is_padded, is_within, is_sound_at, are_sound};
ghost use Rattle.replies.specs.Loops.{is_used, held_in, counts_in, is_above, best_of, rank_of};
ghost use Rattle.replies.specs.Loops.{placed_at, widened_by};

use message::{Pair, Timestamp};

// The most servers, and the most pairs of a set.
const SERVERS: usize = register::MOST_SERVERS as usize;

const LIMIT: usize = register::SET_LIMIT as usize;

// Where each row begins, and the length of all; the noted timestamps begin at 0.
const SIZES: usize = SERVERS;

const ACKS: usize = 2 * SERVERS;

const PAIRS: usize = 3 * SERVERS;

pub const LENGTH: usize = PAIRS + SERVERS * LIMIT;

// The memory of what the servers have replied.
pub type Replies = [u64; LENGTH];

// The bits of a timestamp, and the highest one plus one.
const STAMP_BITS: u32 = message::COUNTER_BITS + message::CLIENT_BITS;

const MOST_NOTED: u64 = 1 << STAMP_BITS;

// How many of the n numbers from at on are in use.
fn used(replies: &Replies, at: usize, n: usize) -> u32
    requires { (at + n ≤ replies_length) × (n ≤ most_servers) }
    ensures { result ≡ count_below (is_used replies.now at) n }
{
    basics::count_where(n, |i| replies[at + i] != 0)
}

// Whether a number notes a timestamp, at or below the stamp.
fn is_at_most(number: u64, stamp: Timestamp) -> bool
    ensures { result ≡ is_at_most stamp.0 (note_of number) }
{
    if number == 0 {
        return false;
    }
    number <= (stamp.0 as u64) + 1
}

// How many noted timestamps are at or below the stamp.
fn at_most(replies: &Replies, n: usize, stamp: Timestamp) -> u32
    requires { n ≤ most_servers }
    ensures { result
        ≡ counted (λ k. is_at_most stamp.0 (noted_in replies.now k)) n }
{
    basics::count_where(n, |i| is_at_most(replies[i], stamp))
}

// The size of a set, never above the limit.
fn size_of(replies: &Replies, i: usize) -> usize
    requires { i < most_servers }
    ensures { (result ≡ length (set_in replies.now (suc i))) × (result ≤ set_limit) }
{
    let size = replies[SIZES + i];
    if size < LIMIT as u64 {
        size as usize
    } else {
        LIMIT
    }
}

// The numbers of the pairs of the set at place i.
fn pairs(replies: &Replies, i: usize) -> &[u64]
    requires { i < most_servers }
    ensures { pairs_of result.now ≡ set_in replies.now (suc i) }
{
    let at = PAIRS + i * LIMIT;
    &replies[at..at + size_of(replies, i)]
}

// Whether the set of the server at place i has the pair.
// All four numbers are read, so that nothing branches: which of them is the pair's cannot be foreseen. They are
// read one by one: taken out by `four`, they made `choose` a fifth slower.
fn holds(replies: &Replies, i: usize, pair: Pair) -> bool
    requires { i < most_servers }
    ensures { result ≡ has pair (set_in replies.now (suc i)) }
{
    let size = size_of(replies, i);
    let at = PAIRS + i * LIMIT;
    let first = (0 < size) & (pair.0 == replies[at]);
    let second = (1 < size) & (pair.0 == replies[at + 1]);
    let third = (2 < size) & (pair.0 == replies[at + 2]);
    let fourth = (3 < size) & (pair.0 == replies[at + 3]);
    (first | second) | (third | fourth)
}

// How many sets have the pair.
fn holders(replies: &Replies, n: usize, pair: Pair) -> u32
    requires { n ≤ most_servers }
    ensures { result ≡ counted (λ k. has pair (set_in replies.now k)) n }
{
    basics::count_where(n, |i| holds(replies, i, pair))
}

// Whether a pair counts: its timestamp is not old, and it stands in enough sets.
fn does_count(replies: &Replies, n: u8, f: u8, pair: Pair) -> bool
    requires { n ≤ most_servers }
    ensures { result ≡ counts_in n f replies.now pair }
{
    if !register::is_not_old(f, at_most(replies, n as usize, message::stamp_of(pair))) {
        return false;
    }
    register::is_valid(f, holders(replies, n as usize, pair))
}

fn is_above(pair: Pair, best: Option<Pair>) -> bool
    ensures { result ≡ is_above pair best }
{
    match best {
        Some(other) => other < pair,
        None => true,
    }
}

// The choice with one candidate more. It is tested only if it is above the choice so far.
fn consider(replies: &Replies, n: u8, f: u8, pair: Pair, best: Option<Pair>) -> Option<Pair>
    requires { n ≤ most_servers }
    ensures { result
        ≡ cond (counts_in n f replies.now pair) (higher pair best) best }
{
    if !is_above(pair, best) {
        return best;
    }
    if !does_count(replies, n, f, pair) {
        return best;
    }
    Some(pair)
}

// The choice with the pairs of one more set, the highest first.
fn better(replies: &Replies, n: u8, f: u8, i: usize, best: Option<Pair>) -> Option<Pair>
    requires { (n ≤ most_servers) × (i < most_servers) }
    ensures { result
        ≡ best_of (counts_in n f replies.now) (set_in replies.now (suc i))
        best }
{
    let set = pairs(replies, i);
    let mut choice = best;
    for j in (0..set.len()).rev() {
        choice = consider(replies, n, f, Pair(set[j]), choice);
    }
    choice
}

// The highest of the pairs that count, once enough timestamps are noted. There are at most 4n candidates;
// one that is above the best so far costs n steps for its timestamp and 4n for its holders.
pub fn choose(replies: &Replies, n: u8, f: u8) -> Option<Pair>
    requires { n ≤ most_servers }
    ensures { result ≡ chosen n f 0 (held_in replies.now) }
{
    let mut best = None;
    if !register::is_enough(n, f, used(replies, 0, n as usize)) {
        return best;
    }
    for i in 0..n as usize {
        best = better(replies, n, f, i, best);
    }
    best
}

// How many servers have acknowledged.
pub fn acknowledged(replies: &Replies, n: u8) -> u32
    requires { n ≤ most_servers }
    ensures { result ≡ counted (ack_in replies.now) n }
{
    used(replies, ACKS, n as usize)
}

// Whether a timestamp of the server at place i is noted.
pub fn is_noted(replies: &Replies, i: usize) -> bool
    requires { i < most_servers }
    ensures { result ≡ is_noted (noted_in replies.now (suc i)) }
{
    replies[i] != 0
}

// How many pairs at the head of the set at place i are below the pair.
fn rank(replies: &Replies, i: usize, pair: Pair) -> usize
    requires { i < most_servers }
    ensures { result ≡ rank_of pair (set_in replies.now (suc i)) }
{
    let set = pairs(replies, i);
    let at = set.iter().position(|other| pair.0 <= *other);
    at.unwrap_or(set.len())
}

// Number `place` of those from at on, once the pair stands at place j.
fn widened(replies: &Replies, at: usize, j: usize, pair: Pair, place: usize) -> u64
    requires { (at + set_limit ≤ replies_length) × (j ≤ set_limit) × (place ≤ set_limit) }
    ensures { result ≡ widened_by replies.now at j pair.0 place }
{
    if place < j {
        return replies[at + place];
    }
    if place == j {
        return pair.0;
    }
    replies[at + place - 1]
}

// A pair put at place j of a set of this size, of which the first `out` then leave.
fn place(replies: &mut Replies, i: usize, size: usize, j: usize, pair: Pair, out: usize)
    requires { (i < most_servers)
        × (size ≡ length (set_in replies.old (suc i)))
        × (j ≤ size) × (out ≤ 1) × (size + 1 ≤ set_limit + out) × Padded replies.old i }
    ensures { replies.new
        ≡ put_set replies.old i
        (drop out (placed_at j pair (set_in replies.old (suc i)))) }
{
    let at = PAIRS + i * LIMIT;
    let first = widened(replies, at, j, pair, out);
    let second = widened(replies, at, j, pair, out + 1);
    let third = widened(replies, at, j, pair, out + 2);
    let fourth = widened(replies, at, j, pair, out + 3);
    replies[SIZES + i] = (size + 1 - out) as u64;
    replies[at] = first;
    replies[at + 1] = second;
    replies[at + 2] = third;
    replies[at + 3] = fourth;
}

// Adds a pair to the set of the server at place i: if it would make five, the lowest of the five leaves.
pub fn insert(replies: &mut Replies, i: usize, pair: Pair)
    requires { (i < most_servers) × Padded replies.old i }
    ensures { replies.new
        ≡ put_set replies.old i (add set_limit pair (set_in replies.old (suc i))) }
{
    let size = size_of(replies, i);
    let j = rank(replies, i, pair);
    if j < size {
        if replies[PAIRS + i * LIMIT + j] == pair.0 {
            return;
        }
    }
    if size < LIMIT {
        place(replies, i, size, j, pair, 0);
    } else {
        place(replies, i, size, j, pair, 1);
    }
}

// Notes the timestamp of the server at place i.
pub fn note(replies: &mut Replies, i: usize, stamp: Timestamp)
    requires { i < most_servers }
    ensures { replies.new ≡ put_note replies.old i stamp.0 }
{
    replies[i] = (stamp.0 as u64) + 1;
}

// Notes that the server at place i has acknowledged.
pub fn acknowledge(replies: &mut Replies, i: usize)
    requires { i < most_servers }
    ensures { replies.new ≡ put_ack replies.old i }
{
    replies[ACKS + i] = 1;
}

// Empties all of it.
pub fn clear(replies: &mut Replies)
    ensures { replies.new ≡ replicate replies_length 0 }
{
    replies.fill(0);
}

// ---- soundness

// Whether a number that is used is at most its limit, and one that is not is zero.
fn is_within(used: bool, limit: u64, number: u64) -> bool
    ensures { result ≡ is_within used limit number }
{
    if used { number <= limit } else { number <= 0 }
}

// The four numbers of the set at place i, of which its size says how many are pairs.
fn four(replies: &Replies, i: usize) -> [u64; LIMIT]
    requires { i < most_servers }
    ensures { result ≡ four_at replies.now i }
{
    let at = PAIRS + i * LIMIT;
    let set = replies[at..].first_chunk().unwrap();
    *set
}

// Whether the set at place i is in strict order.
fn is_rising(replies: &Replies, i: usize) -> bool
    requires { i < most_servers }
    ensures { result ≡ is_rising (set_in replies.now (suc i)) }
{
    let size = size_of(replies, i);
    let [first, second, third, fourth] = four(replies, i);
    (((size < 2) | (first < second)) & ((size < 3) | (second < third)))
        & ((size < 4) | (third < fourth))
}

// Whether the numbers behind the last pair of the set at place i are zero.
fn is_padded(replies: &Replies, i: usize) -> bool
    requires { i < most_servers }
    ensures { result ≡ is_padded replies.now i }
{
    let size = replies[SIZES + i];
    let [first, second, third, fourth] = four(replies, i);
    let front = ((0 < size) | (first == 0)) & ((1 < size) | (second == 0));
    (front & ((2 < size) | (third == 0))) & ((3 < size) | (fourth == 0))
}

fn is_sound_at(replies: &Replies, i: usize, reading: bool, storing: bool) -> bool
    requires { i < most_servers }
    ensures { result ≡ is_sound_at reading storing replies.now i }
{
    let noted = is_within(reading, MOST_NOTED, replies[i]);
    let size = is_within(reading, LIMIT as u64, replies[SIZES + i]);
    let ack = is_within(storing, 1, replies[ACKS + i]);
    noted & (size & (ack & (is_rising(replies, i) & is_padded(replies, i))))
}

// Whether the memory is sound, of which the places of n servers are used; up to the first fault.
pub fn are_sound(replies: &[u64], n: usize, reading: bool, storing: bool) -> bool
    ensures { result ≡ are_sound n reading storing replies.now }
{
    let Some(replies) = replies.as_array() else {
        return false;
    };
    // Not `all`: with it the compiler makes a branch of each of the tests that `is_sound_at` joins.
    for i in 0..SERVERS {
        if !is_sound_at(replies, i, (i < n) & reading, (i < n) & storing) {
            return false;
        }
    }
    true
}
