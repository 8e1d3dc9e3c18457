//! Laws over the limits of this crate. The functions do nothing: what they ensure is proved of the definitions.

ghost use Rattle.std.specs.Prelude.{◌≡◌};
ghost use Rattle.nl_io.specs.declared.source.TheConstants.{PIECE};
ghost use Rattle.nl_io.specs.declared.text_writer.TheConstants.{MAX_HELD};

/// A writer of texts holds 16,384 bytes before it writes them, and 65,536 are asked of a source in one call.
pub fn limits_have_these_numbers()
    ensures held { MAX_HELD ≡ 16384 }
    ensures asked { PIECE ≡ 65536 }
{}
