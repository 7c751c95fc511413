// Bytes, words, four-byte and eight-byte numbers at any place of a slice, least byte first. What is past the end is 0.
ghost use Rattle.std.specs.Prelude.{◌≡◌, ℕ, ◌+◌, ◌*◌, ◌^◌, ◌≤◌, ◌<◌};
ghost use Rattle.wire.specs.Words.{byte_at, word_at, long_at, int64_at, twos, signed};

// Half the numbers of a byte, a word, four bytes and eight bytes: from there on they are negative.
const HALF_BYTE: u64 = 128;

const HALF_WORD: u64 = 32768;

const HALF_LONG: u64 = 2147483648;

const HALF_INT64: u64 = 9223372036854775808;

// The byte at a place.
pub fn byte_at(s: &[u8], at: usize) -> u8
    ensures { result ≡ byte_at s.now at }
{
    if at < s.len() { s[at] } else { 0 }
}

// The byte so many places on: past the end where the sum has no place. Kept: a part of the slice would have to be cut at its end first.
pub fn byte_on(s: &[u8], at: usize, n: usize) -> u8
    ensures { result ≡ byte_at s.now (at + n) }
{
    if at < s.len() {
        if n < s.len() - at {
            return s[at + n];
        }
    }
    0
}

fn wide(x: u8) -> u32
    ensures { (result ≡ x) × (result < 256) }
{
    x as u32
}

// The unsigned word at a place.
pub fn word_at(s: &[u8], at: usize) -> u32
    ensures { (result ≡ word_at s.now at) × (result < 65536) }
{
    wide(byte_on(s, at, 0)) + 256 * wide(byte_on(s, at, 1))
}

// The unsigned word so many places on. Kept: as byte_on.
pub fn word_on(s: &[u8], at: usize, n: usize) -> u32
    ensures { (result ≡ word_at s.now (at + n)) × (result < 65536) }
{
    if s.len() <= at {
        return 0;
    }
    if s.len() - at <= n {
        return 0;
    }
    word_at(s, at + n)
}

// The unsigned four-byte number at a place.
pub fn long_at(s: &[u8], at: usize) -> u32
    ensures { result ≡ long_at s.now at }
{
    word_at(s, at) + 65536 * word_on(s, at, 2)
}

// The unsigned eight-byte number at a place.
pub fn int64_at(s: &[u8], at: usize) -> u64
    ensures { result ≡ int64_at s.now at }
{
    let low = word_at(s, at) as u64 + 65536 * word_on(s, at, 2) as u64;
    let high = word_on(s, at, 4) as u64 + 65536 * word_on(s, at, 6) as u64;
    low + 4294967296 * high
}

// A number below twice `half`, in two's complement.
fn signed_of(n: u64, half: u64) -> i64
    requires { (n < 2 * half) × (half ≤ 2 ^ 63) }
    ensures { result ≡ twos half n }
{
    if n < half {
        n as i64
    } else {
        !((half - 1 - (n - half)) as i64)
    }
}

// A byte as a signed number.
pub fn signed_byte(b: u8) -> i8
    ensures { result ≡ signed 1 b }
{
    signed_of(wide(b) as u64, HALF_BYTE) as i8
}

// The signed word at a place.
pub fn signed_word_at(s: &[u8], at: usize) -> i64
    ensures { result ≡ signed 2 (word_at s.now at) }
{
    signed_of(word_at(s, at) as u64, HALF_WORD)
}

// The signed four-byte number at a place.
pub fn signed_long_at(s: &[u8], at: usize) -> i64
    ensures { result ≡ signed 4 (long_at s.now at) }
{
    signed_of(long_at(s, at) as u64, HALF_LONG)
}

// The signed eight-byte number at a place.
pub fn signed_int64_at(s: &[u8], at: usize) -> i64
    ensures { result ≡ signed 8 (int64_at s.now at) }
{
    signed_of(int64_at(s, at), HALF_INT64)
}
