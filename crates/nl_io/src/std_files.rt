ghost use Rattle.std.specs.Prelude.{◌≡◌, None};
ghost use Rattle.std.specs.FinMap as map;

use crate::failed::Failed;
use crate::files::Files;
use crate::std_calls::{create, open};
use crate::std_tables::{close, keep, read_from, write_to};
use std::alloc::Global;
use std::collections::BTreeMap;
use std::rt;

/// The files of a runtime, as of the system. What they hold isn't told, but which ids are open.
///
/// An interrupted call is tried again up to 64 times. That a file takes nothing of some bytes, and
/// want of memory for the tables of open files, are failed calls.
#[derive(Drop)]
pub struct StdFiles<R: rt::Files + Drop> {
    rt: R,
    reading: BTreeMap<u32, R::File>,
    made: BTreeMap<u32, R::File>,
    read_faults: u64,
    write_faults: u64,
}

impl<R: rt::Files + Drop> StdFiles<R> {
    /// No file is open, and no call has failed yet.
    pub fn make(rt: R, alloc: Global) -> StdFiles<R>
        ensures { ⟦<StdFiles<R> as Files>⟧.desk result
            ≡ record { held = None; left = map.empty; made = map.empty; read_faults = 0; write_faults = 0 } }
    {
        StdFiles {
            rt,
            reading: BTreeMap::new(alloc),
            made: BTreeMap::new(alloc),
            read_faults: 0,
            write_faults: 0,
        }
    }
}

impl<R: rt::Files + Drop> Files for StdFiles<R> {
    ghost use Rattle.nl_io.specs.Untold.{ids_in};

    ghost desk = { λ s. record {
      held = None;
      left = ids_in s.reading;
      made = ids_in s.made;
      read_faults = s.read_faults;
      write_faults = s.write_faults;
    } };

    ghost rest = { λ _ _. Unit {0} };

    ghost rest_same = { λ _. tt };

    ghost rest_then = { λ _ _ _ _ _. tt };

    /// `None` is the answer where the system says that the name isn't found.
    fn open_read(&mut self, name: &str) -> Result<Option<u32>, Failed> {
        let Some(file) = open(&self.rt, name, &mut self.read_faults)? else {
            return Ok(None);
        };
        let id = keep(&mut self.reading, &self.made, file, &mut self.read_faults)?;
        Ok(Some(id))
    }

    fn read(&mut self, id: u32, into: &mut [u8]) -> Result<usize, Failed> {
        read_from(&mut self.reading, id, into, &mut self.read_faults)
    }

    fn leave(&mut self, id: u32) {
        self.reading.remove(&id);
    }

    fn create(&mut self, name: &str) -> Result<u32, Failed> {
        let file = create(&self.rt, name, &mut self.write_faults)?;
        keep(&mut self.made, &self.reading, file, &mut self.write_faults)
    }

    fn write(&mut self, id: u32, bytes: &[u8]) -> Result<usize, Failed> {
        write_to(&mut self.made, id, bytes, &mut self.write_faults)
    }

    fn finish(&mut self, id: u32) -> Result<(), Failed> {
        close(&mut self.made, id, &mut self.write_faults)
    }
}
