//! What a client holds.

use crate::pipeline::Pipeline;
use crate::stream::Stream;
use packstream::writing::Output;
use std::alloc::Global;
use wire::Wish;

/// One end of a connection: it puts out an offer and the requests that it accepts, and tells what it hears of a server.
///
/// ```rust
/// let mut client = Client::new(alloc, Wish::Only(Version::V51))?;
/// // The version has to be heard before the first request is submitted.
/// let told = ask_all(alloc, &mut client, &mut source, &mut sink);
/// ```
#[derive(Drop)]
pub struct Client {
    pub(crate) wish: Wish,
    pub(crate) pipeline: Pipeline,
    pub(crate) stream: Stream,
    /// What isn't taken out.
    pub(crate) out: Output,
    pub(crate) alloc: Global,
}
