use crate::clock_place::ClockPlace;
use direct_printf::Origins;

/// What is kept from line to line.
#[derive(Debug, Drop)]
pub struct LineContext {
    // Of the reader's messages, or the first of them where more were read since lines were printed.
    pub origins: Origins,
    pub place: ClockPlace,
}
