//! Files that are written whole.

ghost use Rattle.std.specs.Prelude.{◌≡◌, ◌≢◌, ◌≤◌, ◌⊎◌, None, OnOk, OnErr};
ghost use Rattle.std.specs.FinMap as map;
ghost use Rattle.nl_io.specs.Count.{Rose};
ghost use Rattle.nl_io.specs.Content.{with_end, PutsFront};
ghost use Rattle.nl_io.specs.Desk.{OnlyName, SameButHeld, put_by, found_in};
ghost use Rattle.command_base.specs.HeldFiles.{IsHeld, HoldsFront};

use nl_io::{Failed, FileSink, Files, write_all};

/// Writes all the bytes to the created file.
fn write_created<F: Files>(files: &mut F, id: u32, bytes: &[u8]) -> Result<(), Failed>
    requires { map.get (F.desk files.old).made id ≢ None }
    ensures ok { OnOk result (put_by (F.desk files.new) id ≡ with_end bytes.now (put_by (F.desk files.old) id)) }
    ensures counted { OnOk result ((F.desk files.new).write_faults ≡ (F.desk files.old).write_faults) }
    ensures front { OnErr result (PutsFront bytes.now (put_by (F.desk files.old) id) (put_by (F.desk files.new) id)) }
    ensures cause { OnErr result (Rose (F.desk files.old).write_faults (F.desk files.new).write_faults) }
    ensures count { (F.desk files.old).write_faults ≤ (F.desk files.new).write_faults }
    ensures same { SameButHeld id (F.desk files.old) (F.desk files.new) }
    ensures others { F.rest files.old files.new }
{
    write_all(&mut FileSink::make(files, id), bytes)
}

/// Puts the bytes into the name, in place of what it held.
pub fn save<F: Files>(files: &mut F, name: &str, bytes: &[u8]) -> Result<(), Failed>
    ensures ok { OnOk result (IsHeld (F.desk files.new) name.now bytes.now) }
    ensures counted { OnOk result ((F.desk files.new).write_faults ≡ (F.desk files.old).write_faults) }
    ensures front { OnErr result ((found_in (F.desk files.new) name.now ≡ found_in (F.desk files.old) name.now)
        ⊎ HoldsFront (F.desk files.new) name.now bytes.now) }
    ensures cause { OnErr result (Rose (F.desk files.old).write_faults (F.desk files.new).write_faults) }
    ensures only { OnlyName name.now (F.desk files.old) (F.desk files.new) }
    ensures others { F.rest files.old files.new }
{
    let id = files.create(name)?;
    let written = write_created(files, id, bytes);
    let finished = files.finish(id);
    written?;
    finished
}
