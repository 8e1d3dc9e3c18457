ghost use Rattle.std.specs.Prelude.{◌≡◌, ◌≢◌, ◌<◌, ◌≤◌, length, take, None, IfOk, IfSome, IfNone, OnOk, OnErr};
ghost use Rattle.std.specs.FinMap as map;
ghost use Rattle.nl_io.specs.Count.{Rose};
ghost use Rattle.nl_io.specs.Content.{Told, IsFront, IsAtEnd};
ghost use Rattle.nl_io.specs.Desk.{Desk, IsReading, IsAbsent, OnlyReadFaults, OnlyWriteFaults, Opens, TakesBytes, Leaves, Creates, Puts, Finishes};

use crate::failed::Failed;

/// A set of named files. An open file goes by a number, its id.
pub trait Files {
    /// What the names hold, which files are open, and how many calls have failed.
    ghost desk: { Self → Desk };

    /// All else that the object stands for, as a relation between two of its states.
    ghost rest: { Self → Self → Type 0 };

    /// Opens a name for reading. `None` is the answer where there is no such name.
    fn open_read(&mut self, name: &str) -> Result<Option<u32>, Failed>
        ensures opened { IfOk result (λ found. IfSome found (λ id. Opens (desk self.old) name.now id (desk self.new))) }
        ensures absent { IfOk result (λ found. IfNone found (IsAbsent (desk self.old) name.now)) }
        ensures absent_same { IfOk result (λ found. IfNone found (desk self.new ≡ desk self.old)) }
        ensures cause { OnErr result (Rose (desk self.old).read_faults (desk self.new).read_faults) }
        ensures err { OnErr result (OnlyReadFaults (desk self.old) (desk self.new)) }
        ensures others { rest self.old self.new };

    /// Moves some of an open file's bytes to the front of `into`, as [`Source::read`](crate::Source) does.
    fn read(&mut self, id: u32, into: &mut [u8]) -> Result<usize, Failed>
        requires { map.get (desk self.old).left id ≢ None }
        ensures within { IfOk result (λ n. n ≤ length into.old) }
        ensures front { IfOk result (λ n. (content : Told) → IsReading (desk self.old) id content
            → IsFront n (take n into.new) content) }
        ensures moved { IfOk result (λ n. TakesBytes (desk self.old) id n (desk self.new)) }
        ensures end { IfOk result (λ n. (content : Told) → IsReading (desk self.old) id content → n ≡ 0
            → 0 < length into.old → IsAtEnd content) }
        ensures cause { OnErr result (Rose (desk self.old).read_faults (desk self.new).read_faults) }
        ensures err { OnErr result (OnlyReadFaults (desk self.old) (desk self.new)) }
        ensures others { rest self.old self.new };

    /// Gives up a file that is being read.
    fn leave(&mut self, id: u32)
        ensures left { Leaves (desk self.old) id (desk self.new) }
        ensures others { rest self.old self.new };

    /// Makes the name a file of no bytes, and opens it for writing.
    fn create(&mut self, name: &str) -> Result<u32, Failed>
        ensures created { IfOk result (λ id. Creates (desk self.old) name.now id (desk self.new)) }
        ensures cause { OnErr result (Rose (desk self.old).write_faults (desk self.new).write_faults) }
        ensures err { OnErr result (OnlyWriteFaults (desk self.old) (desk self.new)) }
        ensures others { rest self.old self.new };

    /// Puts some of the bytes at the end of a created file, as [`Sink::write`](crate::Sink) does.
    fn write(&mut self, id: u32, bytes: &[u8]) -> Result<usize, Failed>
        requires { map.get (desk self.old).made id ≢ None }
        ensures within { IfOk result (λ n. n ≤ length bytes.now) }
        ensures some { IfOk result (λ n. 0 < length bytes.now → 0 < n) }
        ensures taken { IfOk result (λ n. Puts (desk self.old) id (take n bytes.now) (desk self.new)) }
        ensures cause { OnErr result (Rose (desk self.old).write_faults (desk self.new).write_faults) }
        ensures err { OnErr result (OnlyWriteFaults (desk self.old) (desk self.new)) }
        ensures others { rest self.old self.new };

    /// Ends a created file. Its id is given up also where the answer is a refusal.
    fn finish(&mut self, id: u32) -> Result<(), Failed>
        requires { map.get (desk self.old).made id ≢ None }
        ensures finished { Finishes (desk self.old) id (desk self.new) }
        ensures counted { OnOk result ((desk self.new).write_faults ≡ (desk self.old).write_faults) }
        ensures cause { OnErr result (Rose (desk self.old).write_faults (desk self.new).write_faults) }
        ensures others { rest self.old self.new };

    /// A state stands for the same as itself.
    ghost rest_same: { (a : Self) → rest a a };

    /// What stays in two calls stays in both together.
    ghost rest_then: { (a b c : Self) → rest a b → rest b c → rest a c };
}
