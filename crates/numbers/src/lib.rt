// The numbers that bytes stand for. Bytes past the end of a slice read as 0.
#![tactic(auto)]

ghost use Rattle.std.specs.Prelude.{◌≡◌, ℕ, ◌+◌, ◌<◌, get_or};
ghost use Rattle.std.specs.Float.{binary32};
ghost use Rattle.std.specs.Float.Ieee.{of_bits};
ghost use Rattle.protocol.specs.Number.{little_endian, big_endian, twos_complement, is_finite};

use std::array;

// So many bytes from a place on. Where all are there they are taken at once, with one test.
fn bytes_at<const N: usize>(s: &[u8], at: usize) -> [u8; N]
    ensures { (k : ℕ) → k < N → get_or result k 0 ≡ get_or s.now (at + k) 0 }
{
    let rest = s.get(at..).unwrap_or(&[]);
    match rest.first_chunk::<N>() {
        Some(bytes) => *bytes,
        None => padded(rest),
    }
}

// So many bytes from the start on, 0 for each that is missing: `cold`, so that the reading of bytes that are there stays
// small enough to be inlined.
#[cold]
fn padded<const N: usize>(rest: &[u8]) -> [u8; N]
    ensures { (k : ℕ) → k < N → get_or result k 0 ≡ get_or rest.now k 0 }
{
    array::from_fn(|k| rest.get(k).copied().unwrap_or(0))
}

// Two bytes, least significant first.
#[tactic(auto, unfolding(protocol::specs::Number::little_endian))]
pub fn u16_at(s: &[u8], at: usize) -> u16
    ensures { result ≡ little_endian s.now at 2 }
{
    u16::from_le_bytes(bytes_at(s, at))
}

// Four bytes, least significant first.
#[tactic(auto, unfolding(protocol::specs::Number::little_endian))]
pub fn u32_at(s: &[u8], at: usize) -> u32
    ensures { result ≡ little_endian s.now at 4 }
{
    u32::from_le_bytes(bytes_at(s, at))
}

// Six bytes, most significant first.
#[tactic(auto, unfolding(protocol::specs::Number::big_endian))]
pub fn u48_at(s: &[u8], at: usize) -> u64
    ensures { result ≡ big_endian s.now at 6 }
{
    let [b0, b1, b2, b3, b4, b5] = bytes_at::<6>(s, at);
    u64::from_be_bytes([0, 0, b0, b1, b2, b3, b4, b5])
}

// A byte in two's complement.
pub fn i8_of(n: u8) -> i8
    ensures { result ≡ twos_complement 1 n }
{
    n.cast_signed()
}

// Four bytes in two's complement.
pub fn i32_of(n: u32) -> i32
    ensures { result ≡ twos_complement 4 n }
{
    n.cast_signed()
}

// Whether the f32 of four bytes is neither an infinity nor a NaN: its bits, the sign's left out, are below the
// infinity's.
pub fn finite_at(s: &[u8], at: usize) -> bool
    ensures { result ≡ is_finite (of_bits binary32 (little_endian s.now at 4)) }
{
    u32_at(s, at) % 2147483648 < 2139095040
}

// The f32 of four bytes. A NaN is made apart, since `from_bits` takes no NaN's bits: those above the
// infinity's, the sign's bit left out.
pub fn f32_at(s: &[u8], at: usize) -> f32
    ensures { result ≡ of_bits binary32 (little_endian s.now at 4) }
{
    let bits = u32_at(s, at);
    if 2139095040 < bits % 2147483648 {
        return f32::NAN;
    }
    f32::from_bits(bits)
}
