//! What runs of each version may have.

ghost use Rattle.std.specs.Prelude.{◌≡◌};
ghost use Rattle.session_options.specs.Versions as versions;

/// The most writers of a run, in any version.
pub const MAX_WRITERS: u32 = 1_024;

/// Whether runs of this version are recorded, as traces and as logs.
pub fn is_known(version: u8) -> bool
    ensures { result ≡ versions.is_known version }
{
    version == 1 || version == 2
}

/// Whether such runs may have clocks behind the first one.
pub fn has_clocks(version: u8) -> bool
    ensures { result ≡ versions.has_clocks version }
{
    version == 2
}

/// The most writers of such a run.
pub fn most_writers(version: u8) -> u32
    ensures { result ≡ versions.most_writers version }
{
    match version {
        1 => 64,
        _ => MAX_WRITERS,
    }
}
