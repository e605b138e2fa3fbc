// A digest of numbers, one after the other.
ghost use Rattle.std.specs.Prelude.{◌≡◌, MatchResult};
ghost use Rattle.refusal.specs.Numbers.{number_of};
ghost use Rattle.sheets.specs.Digest.{mixed, raised};

use refusal::Refusal;

// The largest prime below 2 ^ 32.
const MODULUS: u64 = 4294967291;

const FACTOR: u64 = 1000003;

// The digest with one number more.
#[tactic(auto, unfolding(crate::specs::Digest::mixed))]
pub fn mix(digest: u64, number: u64) -> u64
    ensures { result ≡ mixed number digest }
{
    ((digest % MODULUS) * FACTOR + number % MODULUS) % MODULUS
}

// A signed number moved up, so that none is below 0.
pub fn raise(number: i32) -> u64
    ensures { result ≡ raised number }
{
    (i64::from(number) + 2147483648) as u64
}

// A refusal's number.
pub fn refusal_number(why: Refusal) -> u64
    ensures { result ≡ number_of why }
{
    u64::from(u8::from(why))
}

// The digest with an answer behind it: 0 and then what was asked for, or else the refusal's number.
pub fn with_answer<T, F: FnOnce(u64, T) -> u64>(
    digest: u64,
    answer: Result<T, Refusal>,
    asked: F,
) -> u64
    requires { F.IsAlwaysCallable asked }
    ensures { MatchResult answer
        (λ value. F.post asked (mixed 0 digest) value result)
        (λ why. result ≡ mixed (number_of why) digest) }
{
    match answer {
        Ok(value) => asked(mix(digest, 0), value),
        Err(why) => mix(digest, refusal_number(why)),
    }
}
