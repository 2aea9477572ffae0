//! The driver of Bolt for programs in C, and in whatever calls C: `include/bolt.h` declares its calls.
//!
//! [`held`] has what a handle holds, and its calls in plain data; [`exports`] has the C calls over them.
#![tactic(auto)]

mod answers;
mod codes;
mod exports;
mod handle;
mod held;
mod laws;
mod rows;
mod rules;
mod values;
