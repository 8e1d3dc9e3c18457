ghost use Rattle.std.specs.Prelude.{◌≡◌, ◌≢◌, None};
ghost use Rattle.std.specs.FinMap as map;
ghost use Rattle.std.proofs.Common.{refl, ◌∙◌};
ghost use Rattle.nl_io.specs.Desk.{put_by, SameButHeld};
ghost use Rattle.nl_io.specs.SameDesks.{SameButHeld-same, SameButHeld-then};

use crate::failed::Failed;
use crate::files::Files;
use crate::sink::Sink;

/// One created file of a set of files, as a sink. Giving it up doesn't finish the file.
#[derive(Drop)]
pub struct FileSink<'f, F: Files> {
    files: &'f mut F,
    id: u32,
    ghost made: { map.get (F.desk files.now).made id ≢ None },
}

impl<'f, F: Files> FileSink<'f, F> {
    /// The created file under this id.
    pub fn make(files: &'f mut F, id: u32) -> FileSink<'f, F>
        requires { map.get (F.desk files.old).made id ≢ None }
        ensures same_reference { result.files.ghost_name ≡ files.entry.ghost_name }
        ensures same { result.files.now ≡ files.old }
        ensures id { result.id ≡ id }
    {
        FileSink { files, id }
    }
}

impl<'f, F: Files> Sink for FileSink<'f, F> {
    ghost put = { λ s. put_by (F.desk s.files.now) s.id };

    ghost faults = { λ s. (F.desk s.files.now).write_faults };

    ghost rest = { λ a b. (a.files.ghost_name ≡ b.files.ghost_name) × (a.id ≡ b.id)
        × SameButHeld a.id (F.desk a.files.now) (F.desk b.files.now) × F.rest a.files.now b.files.now };

    ghost rest_same = { λ a. (refl, refl, SameButHeld-same _ _, F.rest_same a.files.now) };

    ghost rest_then = { λ a b c first second. (
      first.0 ∙ second.0,
      first.1 ∙ second.1,
      SameButHeld-then _ _ _ _ _ first.1 first.2 second.2,
      F.rest_then _ _ _ first.3 second.3,
    ) };

    fn write(&mut self, bytes: &[u8]) -> Result<usize, Failed> {
        self.files.write(self.id, bytes)
    }
}
