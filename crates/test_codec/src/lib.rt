//! Tests of what reads and writes bytes, each library by itself: items, values, cells, messages and chunks, and which requests a
//! machine takes. A crate of their own, so that none of those libraries is proved twice.
#![tactic(auto)]

#[cfg(test)]
mod answers;
#[cfg(test)]
mod machine_tests;
#[cfg(test)]
mod messages_tests;
#[cfg(test)]
mod packstream_tests;
#[cfg(test)]
mod reader_tests;
#[cfg(test)]
mod scanner_tests;
#[cfg(test)]
mod short_ways_tests;
#[cfg(test)]
mod structures_tests;
#[cfg(test)]
mod wire_tests;
