//! Tests of rings: of the pure machine, and of the rings of sessions, a frame at a time.
#![tactic(auto)]

#[cfg(test)]
mod expecting;
#[cfg(test)]
mod feed;
#[cfg(test)]
mod machine;
#[cfg(test)]
mod rings;
#[cfg(test)]
mod schedules;
#[cfg(test)]
mod threads;
