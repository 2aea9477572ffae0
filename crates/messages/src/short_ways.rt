//! The short ways by themselves, which `read_request` and the other three try first. Where one says yes, it read or wrote the message;
//! where it says no, nothing is said of why, and the way over a value is left.
pub use crate::read_requests::{request_from, scan_request};
pub use crate::read_responses::{response_from, scan_response};
pub use crate::write_requests::spell_request;
pub use crate::write_responses::spell_response;
