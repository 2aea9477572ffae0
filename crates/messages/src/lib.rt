//! The messages of Bolt 4.4, 5.0 and 5.1: requests, responses, and their bytes.
//!
//! What holds of all messages stands in [`laws`]. A server relies on `laws::summaries::short_fits` and `laws::framing::arrives_whole`, both ends at once on
//! `requests_arrive` and `says_arrive`, and who hands a message on on `texts_read_back`.
#![tactic(auto)]

mod codec;
mod entries;
mod fault;
pub mod laws;
mod put_entries;
mod read_parts;
mod read_requests;
mod read_responses;
mod request;
mod response;
mod runs;
mod scan_entries;
pub mod short_ways;
mod tags;
mod write_parts;
mod write_requests;
mod write_responses;

pub use codec::{
    read_request, read_response, request_of, response_of, write_request, write_response,
};
pub use fault::{Answer, MsgFault};
use packstream::MAX_SIZE;
pub use request::{Auth, Count, Mode, Request};
pub use response::Response;
pub use runs::{close_run, put_run, write_request_run};
use wire::MAX_MESSAGE;

/// The most bytes of a transaction's token: neither end reads or writes a longer one (M5).
pub const MAX_TOKEN: usize = 64;

// A value that can be written fits a message.
const _: () = prove!(MAX_SIZE == MAX_MESSAGE);
