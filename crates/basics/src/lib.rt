// What is not about licences or registers: a byte as a wider number, the bytes of a number, the lower of two,
// the digits of a number, how many numbers pass a test.
#![tactic(auto)]

ghost use Rattle.std.specs.Prelude.{◌≡◌, ℕ, ◌<◌, ◌+◌, ◌*◌, ◌/◌, ◌%◌, ◌^◌, min};
ghost use Rattle.basics.specs.Counting.{Counts};
ghost use Rattle.basics.specs.Digits.{hex_digit};

// The first number that a word of 32 bits does not hold.
pub const OVER_32: u64 = 1 << 32;

// A byte as a number of 64 bits.
pub fn wide(byte: u8) -> u64
    ensures { result ≡ byte }
{
    u64::from(byte)
}

// The byte of a number that stands so many bits from its low end.
pub fn byte(number: u64, below: u32) -> u8
    requires { below < 64 }
    ensures { result ≡ number / 2 ^ below % 256 }
{
    ((number >> below) & 0xFF) as u8
}

// One byte more behind those of a number.
pub fn push(number: u64, last: u8) -> u64
    requires { number < 2 ^ 56 }
    ensures { result ≡ number * 256 + last }
{
    (number << 8) | (last as u64)
}

// The lower of two numbers.
pub fn least(one: usize, other: usize) -> usize
    ensures { result ≡ min one other }
{
    one.min(other)
}

// The digit of a value, to the base 16 or a lower one.
pub fn hex_digit(value: u64) -> u8
    requires { value < 16 }
    ensures { result ≡ hex_digit value }
{
    if value < 10 {
        b'0' + value as u8
    } else {
        55 + value as u8
    }
}

// How many of the numbers below n pass a test. The answers are added, so that nothing branches.
pub fn count_where<F: Fn(usize) -> bool>(n: usize, test: F) -> u32
    requires few { n < 2 ^ 32 }
    requires callable { (i : ℕ) → i < n → F.pre test i }
    ensures { Counts (F.post test) n result }
{
    let mut count: u32 = 0;
    for i in 0..n {
        count += test(i) as u32;
    }
    count
}
