//! From codes with bytes to numbers.

ghost use Rattle.std.specs.Prelude.{◌≡◌, ◌≢◌, ◌↔◌, ℕ, ◌<◌, ◌≤◌, ◌-◌, List, ◌++◌, length, take, replicate, ℤ, pos, IfOk};
ghost use Rattle.std.specs.Option.{SomeIff};
ghost use Rattle.nibble_pack.specs.Bytes.{number_of_bytes};
ghost use Rattle.nibble_pack.specs.Packing.{Packed, unsigned, signed, IsCode, byte_count, IsCut, IsNotShortest};

use crate::pack::is_wide;

/// Why a code and bytes are no number.
#[derive(Clone, Copy, Debug, PartialEq, Eq)]
pub enum UnpackFault {
    /// There are fewer bytes than the code takes.
    Cut,
    /// There is no such code.
    BadCode,
    /// The code and bytes are not those of the value, but a longer spelling of it.
    NotShortest,
}

/// How many bytes an unsigned number of this code has; `None` where there is no such code.
pub fn unsigned_len(code: u8) -> Option<usize>
    ensures { SomeIff result (IsCode unsigned code) (byte_count unsigned code) }
{
    if code <= 8 { Some(code as usize) } else { None }
}

/// How many bytes a signed number of this code has; `None` where there is no such code.
pub fn signed_len(code: u8) -> Option<usize>
    ensures { SomeIff result (IsCode signed code) (byte_count signed code) }
{
    match code {
        0..=8 => Some(code as usize),
        9..=15 => Some((code - 9) as usize),
        _ => None,
    }
}

/// The first `count` bytes, and zeros.
fn front(bytes: &[u8], count: usize) -> [u8; 8]
    requires most { count ≤ 8 }
    requires stands { count ≤ length bytes.now }
    ensures { result ≡ take count bytes.now ++ replicate (8 - count) 0 }
{
    let mut front = [0; 8];
    front[..count].copy_from_slice(&bytes[..count]);
    front
}

/// The masks of a word's lowest bytes, by how many these are.
const LOW_BYTES: [u64; 9] = [
    0,
    0xff,
    0xffff,
    0xff_ffff,
    0xffff_ffff,
    0xff_ffff_ffff,
    0xffff_ffff_ffff,
    0xff_ffff_ffff_ffff,
    0xffff_ffff_ffff_ffff,
];

/// The least number that takes so many bytes.
const LEAST_NUMBERS: [u64; 9] = [
    0,
    1,
    1 << 8,
    1 << 16,
    1 << 24,
    1 << 32,
    1 << 40,
    1 << 48,
    1 << 56,
];

/// The number of the first `count` bytes. Where eight are there they are read at once, since a copy of a varying length
/// takes longer.
fn front_number(bytes: &[u8], count: usize) -> u64
    requires most { count ≤ 8 }
    requires stands { count ≤ length bytes.now }
    ensures { result ≡ number_of_bytes (take count bytes.now) }
{
    match bytes.first_chunk::<8>() {
        Some(word) => u64::from_le_bytes(*word) & LOW_BYTES[count],
        None => u64::from_le_bytes(front(bytes, count)),
    }
}

/// The unsigned number that the code and the first bytes spell.
pub fn unpack_unsigned(code: u8, bytes: &[u8]) -> Result<u64, UnpackFault>
    ensures ok { IfOk result (λ v. Packed unsigned (pos v) code (take (byte_count unsigned code) bytes.now)) }
    ensures only { (v : ℕ) (front rest : List ℕ) → Packed unsigned (pos v) code front
        → bytes.now ≡ front ++ rest → result ≡ Ok v }

    ensures bad_code { (result ≡ Err UnpackFault.BadCode) ↔ (8 < code) }
    ensures cut { (result ≡ Err UnpackFault.Cut) ↔ IsCut unsigned code bytes.now }
    ensures not_shortest { (result ≡ Err UnpackFault.NotShortest) ↔ IsNotShortest unsigned code bytes.now }
{
    if code > 8 {
        return Err(UnpackFault::BadCode);
    }
    let count = code as usize;
    if bytes.len() < count {
        return Err(UnpackFault::Cut);
    }
    let v = front_number(bytes, count);
    if v < LEAST_NUMBERS[count] {
        return Err(UnpackFault::NotShortest);
    }
    Ok(v)
}

/// The signed number of code 8.
fn unpack_wide(bytes: &[u8]) -> Result<i64, UnpackFault>
    ensures ok { IfOk result (λ v. Packed signed v 8 (take 8 bytes.now)) }
    ensures only { (v : ℤ) (front rest : List ℕ) → Packed signed v 8 front
        → bytes.now ≡ front ++ rest → result ≡ Ok v }

    ensures not_bad_code { result ≢ Err UnpackFault.BadCode }
    ensures cut { (result ≡ Err UnpackFault.Cut) ↔ IsCut signed 8 bytes.now }
    ensures not_shortest { (result ≡ Err UnpackFault.NotShortest) ↔ IsNotShortest signed 8 bytes.now }
{
    if bytes.len() < 8 {
        return Err(UnpackFault::Cut);
    }
    let v = front_number(bytes, 8).cast_signed();
    if !is_wide(v) {
        return Err(UnpackFault::NotShortest);
    }
    Ok(v)
}

/// The signed number that the code and the first bytes spell.
pub fn unpack_signed(code: u8, bytes: &[u8]) -> Result<i64, UnpackFault>
    ensures ok { IfOk result (λ v. Packed signed v code (take (byte_count signed code) bytes.now)) }
    ensures only { (v : ℤ) (front rest : List ℕ) → Packed signed v code front
        → bytes.now ≡ front ++ rest → result ≡ Ok v }

    ensures bad_code { (result ≡ Err UnpackFault.BadCode) ↔ (15 < code) }
    ensures cut { (result ≡ Err UnpackFault.Cut) ↔ IsCut signed code bytes.now }
    ensures not_shortest { (result ≡ Err UnpackFault.NotShortest) ↔ IsNotShortest signed code bytes.now }
{
    match code {
        0..=7 => Ok(unpack_unsigned(code, bytes)? as i64),
        8 => unpack_wide(bytes),
        9..=15 => Ok(-1 - unpack_unsigned(code - 9, bytes)? as i64),
        _ => Err(UnpackFault::BadCode),
    }
}
