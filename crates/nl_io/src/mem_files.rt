ghost use Rattle.std.specs.Prelude.{◌≡◌, ◌≢◌, ◌+◌, ◌-◌, ◌^◌, ◌<◌, ◌≤◌, ◌⊎◌, ℕ, List, min, length, take, refl, Some, None, IfOk, IfSome, IfNone, OnOk, OnErr, option_map};
ghost use Rattle.std.specs.FinMap as map;
ghost use Rattle.std.proofs.Common.{◌∙◌};
ghost use Rattle.nl_io.specs.Count.{Rose};
ghost use Rattle.nl_io.specs.Content.{Told, IsFront, IsAtEnd};
ghost use Rattle.nl_io.specs.Desk.{IsReading, IsAbsent, OnlyReadFaults, OnlyWriteFaults, Opens, TakesBytes, Leaves, Creates, Puts, Finishes};
ghost use Rattle.nl_io.specs.Scripts.{called, CallSucceeds, FailsListed, Starves};

use crate::failed::Failed;
use crate::files::Files;
use crate::reading::MemReading;
use crate::readings::{open_copy, take_from};
use crate::script::{Faults, Script};
use crate::shelf::Shelf;
use crate::titles::keep_title;
use std::alloc::{AllocError, Global};
use std::collections::BTreeMap;

/// Files in memory, which tell all that they hold. Calls that are listed beforehand fail.
///
/// A file that is being read is a copy of what its name held as it was opened.
#[derive(Drop)]
pub struct MemFiles {
    shelf: Shelf,
    reading: BTreeMap<u32, MemReading>,
    made: BTreeMap<u32, String>,
    piece: usize,
    script: Script,
    read_faults: Faults,
    write_faults: Faults,
    alloc: Global,
    ghost moves: { 0 < piece },
}

impl MemFiles {
    ghost use Rattle.nl_io.specs.MemFiles.{desk_of, held_of, files_piece, files_script, files_failing, files_calls, read_faults_of, write_faults_of};

    /// No files. One call moves at most `piece` bytes. `failing` lists the numbers, from 0, of the
    /// calls of [`Files`] that fail, among which [`Files::leave`] isn't counted.
    pub fn make(alloc: Global, piece: usize, failing: &[u64]) -> Result<MemFiles, AllocError>
        requires { 1 ≤ piece }
        ensures empty { IfOk result (λ files. desk_of files
            ≡ record { held = Some map.empty; left = map.empty; made = map.empty; read_faults = 0; write_faults = 0 }) }
        ensures piece { IfOk result (λ files. files_piece files ≡ piece) }
        ensures failing { IfOk result (λ files. files_failing files ≡ failing.now) }
        ensures calls { IfOk result (λ files. files_calls files ≡ 0) }
        ensures read_faults { IfOk result (λ files. read_faults_of files ≡ record { listed = 0; starved = 0 }) }
        ensures write_faults { IfOk result (λ files. write_faults_of files ≡ record { listed = 0; starved = 0 }) }
    {
        let script = Script::make(alloc, failing)?;
        Ok(MemFiles {
            shelf: Shelf::new(alloc),
            reading: BTreeMap::new(alloc),
            made: BTreeMap::new(alloc),
            piece,
            script,
            read_faults: Faults::NONE,
            write_faults: Faults::NONE,
            alloc,
        })
    }

    /// Makes a name hold these bytes. This is no call of [`Files`], and isn't counted as one.
    pub fn put_file(&mut self, name: &str, bytes: &[u8]) -> Result<(), AllocError>
        ensures ok { OnOk result (desk_of self.new ≡ record (desk_of self.old) {
          held = Some (map.insert
              (held_of self.old) name.now bytes.now);
        }) }
        ensures err { OnErr result (desk_of self.new ≡ desk_of self.old) }
        ensures piece { files_piece self.new ≡ files_piece self.old }
        ensures script { files_script self.new ≡ files_script self.old }
        ensures read_faults { read_faults_of self.new ≡ read_faults_of self.old }
        ensures write_faults { write_faults_of self.new ≡ write_faults_of self.old }
    {
        self.shelf.put(name, bytes)
    }

    /// What a name holds.
    pub fn get_file(&self, name: &str) -> Option<&[u8]>
        ensures { option_map (λ bytes. bytes.now) result ≡ map.get (held_of self.now) name.now }
    {
        self.shelf.get(name)
    }

    /// How many calls failed for want of memory.
    pub fn starved(&self) -> u64
        ensures { result ≡ min ((read_faults_of self.now).starved + (write_faults_of self.now).starved) (2 ^ 64 - 1) }
    {
        let writing = self.write_faults.starved();
        self.read_faults.starved().saturating_add(writing)
    }
}

impl Files for MemFiles {
    ghost use Rattle.nl_io.specs.MemFiles.{desk_of, files_piece, files_script, read_faults_of, write_faults_of, IsSameFiles};

    ghost desk = { desk_of };

    ghost rest = { IsSameFiles };

    ghost rest_same = { λ a. (refl, refl) };

    ghost rest_then = { λ a b c first second. (second.0 ∙ first.0, second.1 ∙ first.1) };

    fn open_read(&mut self, name: &str) -> Result<Option<u32>, Failed>
        ensures opened { IfOk result (λ found. IfSome found (λ id. Opens (desk_of self.old) name.now id
            (desk_of self.new))) }
        ensures absent { IfOk result (λ found. IfNone found (IsAbsent (desk_of self.old) name.now)) }
        ensures absent_same { IfOk result (λ found. IfNone found (desk_of self.new ≡ desk_of self.old)) }
        ensures cause { OnErr result (Rose (desk_of self.old).read_faults (desk_of self.new).read_faults) }
        ensures err { OnErr result (OnlyReadFaults (desk_of self.old) (desk_of self.new)) }
        ensures others { IsSameFiles self.old self.new }

        // Which calls fail.
        ensures number { files_script self.new ≡ called (files_script self.old) }
        ensures passed { OnOk result (CallSucceeds (files_script self.old) (read_faults_of self.old)
            (read_faults_of self.new)) }
        ensures failed { OnErr result (FailsListed (files_script self.old) (read_faults_of self.old)
            (read_faults_of self.new)
            ⊎ Starves (files_script self.old) (read_faults_of self.old) (read_faults_of self.new)) }
        ensures write_faults { write_faults_of self.new ≡ write_faults_of self.old }
    {
        if self.script.next_call() {
            return Err(self.read_faults.fail());
        }
        let Some(bytes) = self.shelf.get(name) else {
            return Ok(None);
        };
        match open_copy(self.alloc, &mut self.reading, &self.made, bytes) {
            Ok(id) => Ok(Some(id)),
            Err(_) => Err(self.read_faults.starve()),
        }
    }

    fn read(&mut self, id: u32, into: &mut [u8]) -> Result<usize, Failed>
        requires { map.get (desk_of self.old).left id ≢ None }
        ensures amount { IfOk result (λ n. (left : List ℕ) → IsReading (desk_of self.old) id (Some left)
            → n ≡ min (min (files_piece self.old) (length left)) (length into.old)) }
        ensures within { IfOk result (λ n. n ≤ length into.old) }
        ensures front { IfOk result (λ n. (content : Told) → IsReading (desk_of self.old) id content
            → IsFront n (take n into.new) content) }
        ensures moved { IfOk result (λ n. TakesBytes (desk_of self.old) id n (desk_of self.new)) }
        ensures end { IfOk result (λ n. (content : Told) → IsReading (desk_of self.old) id content → n ≡ 0
            → 0 < length into.old → IsAtEnd content) }
        ensures cause { OnErr result (Rose (desk_of self.old).read_faults (desk_of self.new).read_faults) }
        ensures err { OnErr result (OnlyReadFaults (desk_of self.old) (desk_of self.new)) }
        ensures others { IsSameFiles self.old self.new }

        // Which calls fail.
        ensures number { files_script self.new ≡ called (files_script self.old) }
        ensures passed { OnOk result (CallSucceeds (files_script self.old) (read_faults_of self.old)
            (read_faults_of self.new)) }
        ensures failed { OnErr result (FailsListed (files_script self.old) (read_faults_of self.old)
            (read_faults_of self.new)) }
        ensures write_faults { write_faults_of self.new ≡ write_faults_of self.old }
    {
        if self.script.next_call() {
            return Err(self.read_faults.fail());
        }
        Ok(take_from(&mut self.reading, id, self.piece, into))
    }

    fn leave(&mut self, id: u32)
        ensures left { Leaves (desk_of self.old) id (desk_of self.new) }
        ensures others { IsSameFiles self.old self.new }
        ensures uncounted { files_script self.new ≡ files_script self.old }
        ensures read_faults { read_faults_of self.new ≡ read_faults_of self.old }
        ensures write_faults { write_faults_of self.new ≡ write_faults_of self.old }
    {
        self.reading.remove(&id);
    }

    fn create(&mut self, name: &str) -> Result<u32, Failed>
        ensures created { IfOk result (λ id. Creates (desk_of self.old) name.now id (desk_of self.new)) }
        ensures cause { OnErr result (Rose (desk_of self.old).write_faults (desk_of self.new).write_faults) }
        ensures err { OnErr result (OnlyWriteFaults (desk_of self.old) (desk_of self.new)) }
        ensures others { IsSameFiles self.old self.new }

        // Which calls fail.
        ensures number { files_script self.new ≡ called (files_script self.old) }
        ensures passed { OnOk result (CallSucceeds (files_script self.old) (write_faults_of self.old)
            (write_faults_of self.new)) }
        ensures failed { OnErr result (FailsListed (files_script self.old) (write_faults_of self.old)
            (write_faults_of self.new)
            ⊎ Starves (files_script self.old) (write_faults_of self.old) (write_faults_of self.new)) }
        ensures read_faults { read_faults_of self.new ≡ read_faults_of self.old }
    {
        if self.script.next_call() {
            return Err(self.write_faults.fail());
        }
        let Ok(id) = keep_title(self.alloc, &mut self.made, &self.reading, name) else {
            return Err(self.write_faults.starve());
        };
        match self.shelf.put(name, &[]) {
            Ok(()) => Ok(id),
            Err(_) => {
                self.made.remove(&id);
                Err(self.write_faults.starve())
            }
        }
    }

    fn write(&mut self, id: u32, bytes: &[u8]) -> Result<usize, Failed>
        requires { map.get (desk_of self.old).made id ≢ None }
        ensures amount { IfOk result (λ n. n ≡ min (files_piece self.old) (length bytes.now)) }
        ensures within { IfOk result (λ n. n ≤ length bytes.now) }
        ensures some { IfOk result (λ n. 0 < length bytes.now → 0 < n) }
        ensures taken { IfOk result (λ n. Puts (desk_of self.old) id (take n bytes.now) (desk_of self.new)) }
        ensures cause { OnErr result (Rose (desk_of self.old).write_faults (desk_of self.new).write_faults) }
        ensures err { OnErr result (OnlyWriteFaults (desk_of self.old) (desk_of self.new)) }
        ensures others { IsSameFiles self.old self.new }

        // Which calls fail.
        ensures number { files_script self.new ≡ called (files_script self.old) }
        ensures passed { OnOk result (CallSucceeds (files_script self.old) (write_faults_of self.old)
            (write_faults_of self.new)) }
        ensures failed { OnErr result (FailsListed (files_script self.old) (write_faults_of self.old)
            (write_faults_of self.new)
            ⊎ Starves (files_script self.old) (write_faults_of self.old) (write_faults_of self.new)) }
        ensures read_faults { read_faults_of self.new ≡ read_faults_of self.old }
    {
        if self.script.next_call() {
            return Err(self.write_faults.fail());
        }
        let count = self.piece.min(bytes.len());
        let name = self.made.get(&id).unwrap();
        match self.shelf.append(name.as_str(), &bytes[..count]) {
            Ok(()) => Ok(count),
            Err(_) => Err(self.write_faults.starve()),
        }
    }

    fn finish(&mut self, id: u32) -> Result<(), Failed>
        requires { map.get (desk_of self.old).made id ≢ None }
        ensures finished { Finishes (desk_of self.old) id (desk_of self.new) }
        ensures counted { OnOk result ((desk_of self.new).write_faults ≡ (desk_of self.old).write_faults) }
        ensures cause { OnErr result (Rose (desk_of self.old).write_faults (desk_of self.new).write_faults) }
        ensures others { IsSameFiles self.old self.new }

        // Which calls fail.
        ensures number { files_script self.new ≡ called (files_script self.old) }
        ensures passed { OnOk result (CallSucceeds (files_script self.old) (write_faults_of self.old)
            (write_faults_of self.new)) }
        ensures failed { OnErr result (FailsListed (files_script self.old) (write_faults_of self.old)
            (write_faults_of self.new)) }
        ensures read_faults { read_faults_of self.new ≡ read_faults_of self.old }
    {
        self.made.remove(&id);
        if self.script.next_call() {
            return Err(self.write_faults.fail());
        }
        Ok(())
    }
}
