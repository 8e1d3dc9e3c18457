//! Laws over the definitions. The functions do nothing: what they ensure is proved of the definitions.

ghost use Rattle.std.specs.Prelude.{ℕ, List};
ghost use Rattle.command_base.specs.Soundness.{IsSound};
ghost use Rattle.decompressor.specs.Decompression.{Decompressed};
ghost use Rattle.log_migration.specs.Migrating.{IsMigrated};
ghost use Rattle.log_commands.specs.Decompressing.{decompress_task};
ghost use Rattle.log_commands.specs.Aggregating.{aggregate_task};
ghost use Rattle.log_commands.specs.Migrating.{migrate_task};

/// The commands over logs are sound.
pub fn commands_over_logs_are_sound()
    ensures decompress { (log : List ℕ) → IsSound (decompress_task log) }
    ensures aggregate { (log : List ℕ) (id nth : ℕ) → IsSound (aggregate_task log id nth) }
    ensures migrate { (log output : List ℕ) → IsSound (migrate_task log output) }
{}

/// A log of version 2 that was made of one of version 1 stands for the same text.
pub fn migrated_logs_have_the_same_text()
    ensures { (bytes migrated text : List ℕ) (count : ℕ) → IsMigrated bytes migrated count
        → Decompressed bytes text
        → Decompressed migrated text }
{}
