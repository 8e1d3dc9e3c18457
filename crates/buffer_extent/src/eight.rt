//! Writing up to eight bytes at once.

ghost use Rattle.std.specs.Prelude.{◌≡◌, ◌+◌, ◌*◌, ◌/◌, ◌^◌, ◌≤◌, ◌++◌, length, take, drop};
ghost use Rattle.std.specs.Int.{w64, to_le_bytes};
ghost use Rattle.arg_records.specs.Places.{with_words};
ghost use Rattle.buffer_extent.specs.Writing.{HasItsBytes};

use nibble_pack::Packed;

/// The number, with so many of its lowest bits as 0.
fn above(number: u64, bits: u32) -> u64
    requires { bits ≤ 64 }
    ensures { result ≡ number / 2 ^ bits * 2 ^ bits }
{
    number.unbounded_shr(bits).unbounded_shl(bits)
}

/// The word whose first `len` bytes are those of the one, and its others those of the other.
fn joined(front: u64, back: u64, len: usize) -> u64
    requires { len ≤ 8 }
    ensures { to_le_bytes w64 result ≡ take len (to_le_bytes w64 front) ++ drop len (to_le_bytes w64 back) }
{
    let bits = 8 * len as u32;
    front - above(front, bits) + above(back, bits)
}

/// The word of the first eight bytes.
fn first_word(bytes: &[u8]) -> u64
    requires { 8 ≤ length bytes.now }
    ensures { to_le_bytes w64 result ≡ take 8 bytes.now }
{
    u64::from_le_bytes(*bytes.first_chunk::<8>().unwrap())
}

/// Writes the first `len` bytes of a word over the front of others.
fn put_first(word: u64, len: usize, bytes: &mut [u8])
    requires len { len ≤ 8 }
    requires room { 8 ≤ length bytes.old }
    ensures { bytes.new ≡ take len (to_le_bytes w64 word) ++ drop len bytes.old }
{
    // All eight places are written, whatever `len` is, since a copy of a varying length takes longer.
    let whole = joined(word, first_word(bytes), len);
    let Some(place) = bytes.first_chunk_mut::<8>() else {
        unreachable!()
    };
    *place = whole.to_le_bytes();
}

/// Writes the first `len` bytes of a word, and answers the place behind them.
pub(crate) fn put_front(word: u64, len: usize, body: &mut [u8], at: usize) -> usize
    requires len { len ≤ 8 }
    requires room { at + 8 ≤ length body.old }
    ensures written { body.new ≡ with_words body.old at (take len (to_le_bytes w64 word)) }
    ensures end { result ≡ at + len }
{
    put_first(word, len, &mut body[at..]);
    at + len
}

/// Writes a number's bytes, and answers the place behind them.
pub(crate) fn put_packed(number: &Packed, body: &mut [u8], at: usize) -> usize
    requires whole { HasItsBytes number.now }
    requires room { at + 8 ≤ length body.old }
    ensures written { body.new ≡ with_words body.old at (take number.now.len number.now.bytes) }
    ensures end { result ≡ at + number.now.len }
{
    put_front(u64::from_le_bytes(number.bytes), number.len, body, at)
}
