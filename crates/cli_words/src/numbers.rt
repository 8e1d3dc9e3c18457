//! The numbers of a command line.

ghost use Rattle.std.specs.Prelude.{◌≡◌};
ghost use Rattle.cli_words.specs.Commands.{number_within};

/// The most digits of a number, with the zeros in front.
pub const MAX_DIGITS: usize = 20;

/// The greatest id of a message, and place of an argument.
pub const MAX_ID: u32 = u32::MAX;

/// The greatest seed of a generated trace.
pub const MAX_SEED: u64 = u64::MAX;

/// The number that decimal digits spell, where it lies in these bounds.
pub(crate) fn number_within(digits: &str, least: u64, most: u64) -> Option<u64>
    ensures { result ≡ number_within least most digits.now }
{
    // A number may have no sign, which `parse` would take.
    if digits.len() > MAX_DIGITS || digits.starts_with('+') {
        return None;
    }
    match digits.parse::<u64>() {
        Ok(number) if least <= number && number <= most => Some(number),
        _ => None,
    }
}

/// The same within bounds of 32 bits.
pub(crate) fn small_within(digits: &str, least: u32, most: u32) -> Option<u32>
    ensures { result ≡ number_within least most digits.now }
{
    let number = number_within(digits, u64::from(least), u64::from(most))?;
    Some(number as u32)
}
