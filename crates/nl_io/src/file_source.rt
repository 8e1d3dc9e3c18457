ghost use Rattle.std.specs.Prelude.{◌≡◌, ◌≢◌, None, unwrap_or};
ghost use Rattle.std.specs.FinMap as map;
ghost use Rattle.std.proofs.Common.{refl, ◌∙◌};
ghost use Rattle.nl_io.specs.Desk.{SameButLeft};
ghost use Rattle.nl_io.specs.SameDesks.{SameButLeft-same, SameButLeft-then};

use crate::failed::Failed;
use crate::files::Files;
use crate::source::Source;

/// One open file of a set of files, as a source. Giving it up doesn't end the id.
#[derive(Drop)]
pub struct FileSource<'f, F: Files> {
    files: &'f mut F,
    id: u32,
    ghost reading: { map.get (F.desk files.now).left id ≢ None },
}

impl<'f, F: Files> FileSource<'f, F> {
    /// The open file under this id.
    pub fn make(files: &'f mut F, id: u32) -> FileSource<'f, F>
        requires { map.get (F.desk files.old).left id ≢ None }
        ensures same_reference { result.files.ghost_name ≡ files.entry.ghost_name }
        ensures same { result.files.now ≡ files.old }
        ensures id { result.id ≡ id }
    {
        FileSource { files, id }
    }
}

impl<'f, F: Files> Source for FileSource<'f, F> {
    ghost left = { λ s. unwrap_or (map.get (F.desk s.files.now).left s.id) None };

    ghost faults = { λ s. (F.desk s.files.now).read_faults };

    ghost rest = { λ a b. (a.files.ghost_name ≡ b.files.ghost_name) × (a.id ≡ b.id)
        × SameButLeft a.id (F.desk a.files.now) (F.desk b.files.now) × F.rest a.files.now b.files.now };

    ghost rest_same = { λ a. (refl, refl, SameButLeft-same _ _, F.rest_same a.files.now) };

    ghost rest_then = { λ a b c first second. (
      first.0 ∙ second.0,
      first.1 ∙ second.1,
      SameButLeft-then _ _ _ _ _ first.1 first.2 second.2,
      F.rest_then _ _ _ first.3 second.3,
    ) };

    fn read(&mut self, into: &mut [u8]) -> Result<usize, Failed> {
        self.files.read(self.id, into)
    }
}
