ghost use Rattle.std.specs.Prelude.{◌≡◌, ◌≢◌, ◌<◌, ◌≤◌, ℕ, [], length, take, IfOk, OnOk, OnErr};
ghost use Rattle.nl_io.specs.Count.{Rose};
ghost use Rattle.nl_io.specs.Content.{Told, with_end, PutsFront};

use crate::failed::Failed;

/// Bytes that go somewhere, in pieces.
pub trait Sink {
    /// The bytes taken so far.
    ghost put: { Self → Told };

    /// How many calls have failed.
    ghost faults: { Self → ℕ };

    /// All else that the object stands for, as a relation between two of its states.
    ghost rest: { Self → Self → Type 0 };

    /// Takes some of the bytes, from their front, and answers how many: at least one, where there are any.
    fn write(&mut self, bytes: &[u8]) -> Result<usize, Failed>
        ensures within { IfOk result (λ n. n ≤ length bytes.now) }
        ensures some { IfOk result (λ n. 0 < length bytes.now → 0 < n) }
        ensures taken { IfOk result (λ n. put self.new ≡ with_end (take n bytes.now) (put self.old)) }
        ensures counted { OnOk result (faults self.new ≡ faults self.old) }
        ensures cause { OnErr result (Rose (faults self.old) (faults self.new)) }
        ensures err { OnErr result (put self.new ≡ put self.old) }
        ensures count { faults self.old ≤ faults self.new }
        ensures others { rest self.old self.new };

    /// A state stands for the same as itself.
    ghost rest_same: { (a : Self) → rest a a };

    /// What stays in two calls stays in both together.
    ghost rest_then: { (a b c : Self) → rest a b → rest b c → rest a c };
}

/// Writes all the bytes. After a refusal some of them, from the front, went out.
pub fn write_all<K: Sink>(sink: &mut K, bytes: &[u8]) -> Result<(), Failed>
    ensures ok { OnOk result (K.put sink.new ≡ with_end bytes.now (K.put sink.old)) }
    ensures counted { OnOk result (K.faults sink.new ≡ K.faults sink.old) }
    ensures cause { OnErr result (Rose (K.faults sink.old) (K.faults sink.new)) }
    ensures err { OnErr result (PutsFront bytes.now (K.put sink.old) (K.put sink.new)) }
    ensures count { K.faults sink.old ≤ K.faults sink.new }
    ensures others { K.rest sink.old sink.new }

    // No sink refuses to take nothing.
    ensures some { OnErr result (bytes.now ≢ []) }
{
    let mut done = 0;
    while done < bytes.len() {
        done += sink.write(&bytes[done..])?;
    }
    Ok(())
}
