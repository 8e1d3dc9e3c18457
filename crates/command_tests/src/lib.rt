//! Tests of whole commands that no transcript can show: with gates that hold threads, with inputs as large as there can
//! be, with refused memory, and with each call of the files failing in turn.
#![tactic(auto)]

#[cfg(test)]
mod faults;
#[cfg(test)]
mod large;
#[cfg(test)]
mod memory;
#[cfg(test)]
mod runs;
#[cfg(test)]
mod threads;
