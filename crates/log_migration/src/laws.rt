//! Laws over migrated logs. The functions do nothing: what they ensure is proved of the definitions.

ghost use Rattle.std.specs.Prelude.{◌≡◌, ℕ, ◌<◌, ◌≤◌, List, ◌++◌, length, Result, Ok, Err};
ghost use Rattle.checkpoint_io.specs.declared.header.Header.{Header};
ghost use Rattle.checkpoint_io.specs.declared.heads.TheConstants.{MAX_LOG};
ghost use Rattle.checkpoint_io.specs.Blocks.{Block, FileOf, clocks_of};
ghost use Rattle.checkpoint_io.specs.Validity.{Valid};
ghost use Rattle.checkpoint_io.specs.Rows.{row_bytes};
ghost use Rattle.log_migration.specs.declared.fault.MigrateFault.{MigrateFault as LogFault};
ghost use Rattle.log_migration.specs.Migrating.{version_2, IsMigrated, BeginsWithVersion, HaveMigration};
ghost use Rattle.log_migration.specs.Rows.{migrated_bytes};

/// A log of 68 bytes, with a fragment, an extent and a close mark, becomes one of 71: the number of writers, and the
/// writer of the extent and of the mark, have two bytes each.
pub fn worked_migration()
    ensures length { length migrated_bytes ≡ 71 }
    ensures migrated { IsMigrated row_bytes migrated_bytes 3 }
{}

/// A log of version 1 becomes one log of version 2.
pub fn migrations_are_one()
    ensures { (bytes migrated other : List ℕ) (count many : ℕ) → IsMigrated bytes migrated count
        → IsMigrated bytes other many
        → (migrated ≡ other) × (count ≡ many) }
{}

/// It is a right log, with the same clocks.
pub fn migrated_logs_are_right()
    ensures valid { (header : Header) (blocks : List Block) → Valid header blocks → Valid (version_2 header) blocks }
    ensures clocks { (header : Header) (blocks : List Block)
        → clocks_of (version_2 header) blocks ≡ clocks_of header blocks }
{}

/// A log of version 1, of no more than the most bytes that are read, has one answer: the log of version 2, or that this
/// would have more. One that begins with a right header of version 2 has one answer, whatever stands behind.
pub fn logs_have_one_answer()
    ensures fits { (header : Header) (blocks : List Block) (bytes migrated old new : List ℕ)
        (answer : Result ℕ LogFault)
        → header.version ≡ 1
        → FileOf header blocks bytes
        → Valid header blocks
        → length bytes ≤ MAX_LOG
        → FileOf (version_2 header) blocks migrated
        → length migrated ≤ MAX_LOG
        → HaveMigration old new answer bytes
        → (answer ≡ Ok (length blocks)) × (new ≡ old ++ migrated) }
    ensures too_large { (header : Header) (blocks : List Block) (bytes migrated old new : List ℕ)
        (answer : Result ℕ LogFault)
        → header.version ≡ 1
        → FileOf header blocks bytes
        → Valid header blocks
        → length bytes ≤ MAX_LOG
        → FileOf (version_2 header) blocks migrated
        → MAX_LOG < length migrated
        → HaveMigration old new answer bytes
        → answer ≡ Err LogFault.TooLarge }
    ensures not_one { (bytes old new : List ℕ) (answer : Result ℕ LogFault) → BeginsWithVersion 2 bytes
        → HaveMigration old new answer bytes
        → answer ≡ Err LogFault.NotOne }
{}
