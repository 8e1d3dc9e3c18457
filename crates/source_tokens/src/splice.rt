//! Splices, which end no line.

ghost use Rattle.std.specs.Prelude.{◌≡◌, ◌≤◌, length};
ghost use Rattle.source_tokens.specs.Splices.{splice_length, past_splices};

/// How many bytes the splice at the front has, or 0.
#[inline]
fn splice_length(bytes: &[u8]) -> usize
    ensures value { result ≡ splice_length bytes.now }
    ensures within { result ≤ length bytes.now }
{
    match bytes {
        [b'\\', b'\n', ..] => 2,
        [b'\\', b'\r', b'\n', ..] => 3,
        _ => 0,
    }
}

/// The bytes behind all splices at the front.
#[inline]
pub fn past_splices(bytes: &[u8]) -> &[u8]
    ensures after { result.now ≡ past_splices bytes.now }
    ensures within { length result.now ≤ length bytes.now }
{
    let mut rest = bytes;
    let mut len = splice_length(rest);
    while len > 0 {
        rest = rest.split_at(len).1;
        len = splice_length(rest);
    }
    rest
}
