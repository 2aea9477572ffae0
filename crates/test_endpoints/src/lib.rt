//! Tests of the engine, a server, a client and a decider by themselves, by their public calls. A separate crate, so
//! those libraries are proved only once.
#![tactic(auto)]

#[cfg(test)]
mod answers;
#[cfg(test)]
mod calls;
#[cfg(test)]
mod conversation;
#[cfg(test)]
mod decider_tests;
#[cfg(test)]
mod limit_tests;
#[cfg(test)]
mod malformed_tests;
#[cfg(test)]
mod outcome_tests;
#[cfg(test)]
mod repeats;
#[cfg(test)]
mod session_tests;
#[cfg(test)]
mod table_rows;
#[cfg(test)]
mod table_tests;
#[cfg(test)]
mod texts_tests;
