//! Tests of whole conversations: the crate streams, by its public calls, and through failing streams; many connections at once over peers in
//! memory; and of the crate cli_scripts. A crate of their own, so that neither is proved twice.
#![tactic(auto)]

#[cfg(test)]
mod ask_tests;
#[cfg(test)]
mod crowd;
#[cfg(test)]
mod heard;
#[cfg(test)]
mod hosts_tests;
#[cfg(test)]
mod named_tests;
#[cfg(test)]
mod over_tests;
#[cfg(test)]
mod requests;
#[cfg(test)]
mod retry_tests;
#[cfg(test)]
mod scripts_tests;
#[cfg(test)]
mod serve_tests;
#[cfg(test)]
mod stream_tests;
#[cfg(test)]
mod streams_of;
