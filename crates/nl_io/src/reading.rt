ghost use Rattle.std.specs.Prelude.{◌≡◌, ◌<◌, ◌≤◌, [], min, length, take, drop, vec_len};

/// A file that is being read: its bytes as it was opened, and how many of them came.
#[derive(Drop)]
pub(crate) struct MemReading {
    bytes: Vec<u8>,
    at: usize,
    ghost within: { at ≤ vec_len bytes },
}

impl MemReading {
    ghost use Rattle.nl_io.specs.Readings.{left_of};

    /// At its first byte.
    pub(crate) fn new(bytes: Vec<u8>) -> MemReading
        ensures { left_of result ≡ bytes.items }
    {
        MemReading { bytes, at: 0 }
    }

    /// Moves bytes to the front of `into`, at most `most`, and answers how many.
    pub(crate) fn take(&mut self, most: usize, into: &mut [u8]) -> usize
        ensures amount { result ≡ min (min most (length (left_of self.old))) (length into.old) }
        ensures within { result ≤ length into.old }
        ensures there { result ≤ length (left_of self.old) }
        ensures front { take result into.new ≡ take result (left_of self.old) }
        ensures moved { left_of self.new ≡ drop result (left_of self.old) }
        ensures end { 0 < most → result ≡ 0 → 0 < length into.old → left_of self.old ≡ [] }
    {
        let left = &self.bytes[self.at..];
        let count = most.min(left.len()).min(into.len());
        into[..count].copy_from_slice(&left[..count]);
        self.at += count;
        count
    }
}
