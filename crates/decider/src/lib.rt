//! Decides what became of a transaction that is sent until its fate is known, without I/O and without memory.
//!
//! A caller makes the step that `begin` returns, and reports what it came to. `fate` says what is known, at any moment.
//!
//! ```text
//! let mut decider = Decider::new(Policy { retry, before, tries });
//! loop {
//!     let result = match decider.begin() {
//!         Next::End => break,
//!         step => make(step),
//!     };
//!     decider.report(result);
//! }
//! decider.fate()
//! ```
//!
//! # States
//!
//! ```text
//!            begin: Attempt
//! +-------+ ----------------> +-------------------+
//! | ready |                   | attempt under way |  fate: Unknown
//! +-------+ <---------------- +-------------------+
//!  |  |  ^    report its result
//!  |  |  |
//!  |  +--+    begin: Greet, ReadMarker or WriteTombstone; then report its result
//!  |
//!  +-----> +-------+
//!          | ended |  begin: End
//!          +-------+
//! ```
//!
//! The step that `begin` returns depends on all results. The first row that applies decides.
//!
//! | results so far | `Detect` | `Tokens` | `Never` |
//! |---|---|---|---|
//! | committed, in conflict, or the caller stopped | End | End | End |
//! | all attempts are used up, or a request is invalid | End | End | End |
//! | nothing is in doubt, and it was refused for good | End | End | End |
//! | nothing is in doubt | Attempt | Attempt | Attempt |
//! | in doubt, at a server that is not known to keep tokens | End | Attempt | End |
//! | in doubt; the last result is the greeting of a server that keeps tokens | Attempt | Attempt | End |
//! | in doubt; the last result is the greeting of another server | End | Attempt | End |
//! | in doubt | Greet | Attempt | End |
//!
//! | results so far | `Marker` |
//! |---|---|
//! | committed, in conflict, a tombstone, or the caller stopped | End |
//! | the last one is a refusal, a doubt or an unconfirmed tombstone | ReadMarker |
//! | in doubt; there is none yet, or the last one is an attempt that sent no COMMIT | ReadMarker |
//! | attempts are left, and it was not refused for good | Attempt |
//! | in doubt, and tombstones are left | WriteTombstone |
//! | other results | End |
//!
//! An attempt whose result is never reported counts as in doubt, at a server of unknown kind.
//!
//! # Waiting for the greeting
//!
//! With `Detect`, a doubt is followed by another attempt only if the connection's greeting was answered before.
//! A caller that sends HELLO to COMMIT as one pipeline saves a round trip.
//! If its connection breaks after a byte of COMMIT was sent and before the greeting is answered, the fate stays
//! `Unknown`.
//! A caller that waits for the greeting's answer before it sends COMMIT doesn't have this case.
//! A connection that breaks before a byte of COMMIT was sent leaves no doubt, so it never ends the attempts.
//!
//! # Words
//!
//! | word | meaning |
//! |---|---|
//! | attempt | one sending of the transaction, from BEGIN to COMMIT |
//! | result | what a step came to, as the caller reports it |
//! | in doubt | it may have committed, or may yet commit |
//! | protected | left by a server that keeps tokens: sending again under the token can't commit twice |
//! | token | a text that a transaction carries; at a server that keeps tokens, at most one of those with it commits |
//! | marker | a row that each attempt writes under a unique constraint |
//! | tombstone | a marker row that excludes all attempts |
//! | under way | an attempt that `begin` returned, and whose result is not reported |
#![tactic(auto)]

mod fate;
pub mod laws;
mod policy;
mod rules;
mod state;
mod steps;

pub use fate::{EndReason, Fate};
pub use policy::{Before, Policy, Retry};
pub use state::Decider;
pub use steps::{MarkerRow, Next, StepResult, TokenSupport};
