//! Tests of the consumer and of sessions: what no contract says of their calls.
#![tactic(auto)]

#[cfg(test)]
mod clocks;
#[cfg(test)]
mod expecting;
#[cfg(test)]
mod faults;
#[cfg(test)]
mod gates;
#[cfg(test)]
mod late;
#[cfg(test)]
mod visits;
