//! From numbers to codes with bytes.

ghost use Rattle.std.specs.Prelude.{◌≡◌, ◌≤◌, ◌-◌, ◌↔◌, IsTrue, take, drop, replicate, pos};
ghost use Rattle.nibble_pack.specs.Packing as packing;
ghost use Rattle.nibble_pack.specs.Packing.{IsLeastCount, IsWide, byte_count};

/// A number's code, and its bytes: the first `len` of `bytes`, the lowest first. The others are 0.
#[derive(Clone, Copy, Debug, PartialEq, Eq)]
pub struct Packed {
    pub code: u8,
    pub bytes: [u8; 8],
    pub len: usize,
}

/// The least count of bytes that hold `n`.
fn least_count(n: u64) -> u8
    ensures least { IsLeastCount result n }
    ensures most { result ≤ 8 }
{
    // The binary digits, in bytes that are begun.
    ((71 - n.leading_zeros()) / 8) as u8
}

/// Whether a signed number is below -2^48 or at least 2^56.
pub(crate) fn is_wide(v: i64) -> bool
    ensures { IsTrue result ↔ IsWide v }
{
    !(-(1 << 48)..1 << 56).contains(&v)
}

/// Packs an unsigned number. Its code is its least count of bytes.
pub fn pack_unsigned(v: u64) -> Packed
    ensures packed { packing.Packed packing.unsigned (pos v) result.code (take result.len result.bytes) }
    ensures code { result.code ≤ 8 }
    ensures len { result.len ≡ byte_count packing.unsigned result.code }
    ensures room { result.len ≤ 8 }
    ensures others { drop result.len result.bytes ≡ replicate (8 - result.len) 0 }
{
    let count = least_count(v);
    Packed {
        code: count,
        bytes: v.to_le_bytes(),
        len: count as usize,
    }
}

/// Packs a signed number. From 0 to 2^56 - 1 it is packed as an unsigned one. From -2^48 to -1 it
/// has the bytes of `-v - 1`, and their count and 9 as its code. Any other has code 8 and eight
/// bytes, in two's complement.
pub fn pack_signed(v: i64) -> Packed
    ensures packed { packing.Packed packing.signed v result.code (take result.len result.bytes) }
    ensures code { result.code ≤ 15 }
    ensures len { result.len ≡ byte_count packing.signed result.code }
    ensures room { result.len ≤ 8 }
    ensures others { drop result.len result.bytes ≡ replicate (8 - result.len) 0 }
{
    if is_wide(v) {
        return Packed {
            code: 8,
            bytes: v.to_le_bytes(),
            len: 8,
        };
    }
    if v < 0 {
        let packed = pack_unsigned((-1 - v) as u64);
        Packed {
            code: 9 + packed.code,
            ..packed
        }
    } else {
        pack_unsigned(v as u64)
    }
}
