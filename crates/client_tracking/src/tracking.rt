//! A client that keeps track of its requests.
ghost use Rattle.std.specs.Prelude.{◌≡◌, ◌⊎◌, ◌^◌, [], Some, None, ◌≤◌, ◌<◌, IfOk, IfErr, OnErr, IsErrOf, take, length, true, false, not, ◌==◌};
ghost use Rattle.std.specs.Vec.{vec_len, vec_capacity};
ghost use Rattle.messages.specs.View.{request_view, response_view};
ghost use Rattle.client.specs.Rest.{begun, refuses, refuses_at_once, after_submit, feed_of, taken_out, losses, after_drop, awaits};
ghost use Rattle.client.specs.Fits.{IsAccepted};
ghost use Rattle.client.specs.Held.{is_too_large, WantsRoom};
ghost use Rattle.machine.specs.Limits.{max_waiting};
ghost use Rattle.client_tracking.specs.Account.{untold, keeps_row, with_row, with_summary, with_losses, settled};
ghost use Rattle.client_tracking.specs.Feeding.{is_idle, is_full, used_by, tracked_feed, UnlessMemory};
ghost use Rattle.client_tracking.specs.Holding.{rest_in, account_of, row_view};

use crate::faults::{FeedFault, fault_of};
use crate::replies::Reply;
use bytes::Bytes;
use client::{Client, ClientFault, Heard, Losses, Outcome, SubmitFault};
use machine::Phase;
use messages::{Request, Response};
use std::alloc::Global;
use std::mem;
use structures::Cell;
use wire::{Version, Wish};

/// Takes all rows. If there are none, the room for them stays.
fn taken(rows: &mut Vec<Vec<Cell>>, alloc: Global) -> Vec<Vec<Cell>>
    ensures taken { result.items ≡ rows.old.items }
    ensures none { rows.new.items ≡ [] }
{
    if rows.is_empty() {
        return Vec::new(alloc);
    }
    mem::replace(rows, Vec::new(alloc))
}

/// A client, and the account of what it told: a reply for each request that has its summary, the rows of the one that waits first, and what became
/// of those that were lost. What was told stays in it until `settle`, whatever a call answers.
///
/// ```rust
/// let commit = tracking.ask_commit()?;
/// ```
#[derive(Drop)]
pub struct TrackingClient {
    pub(crate) client: Client,
    /// The oldest first.
    pub(crate) replies: Vec<Reply>,
    /// Of the request that waits first.
    pub(crate) rows: Vec<Vec<Cell>>,
    /// How many rows of it came behind them that aren't kept.
    pub(crate) left: u64,
    pub(crate) losses: Losses,
    /// How many rows of a request are kept at most.
    pub(crate) limit: usize,
    pub(crate) alloc: Global,
}

impl TrackingClient {
    /// Its offer is to be taken out. At most `limit` rows of each request are kept. C5 for want of memory.
    pub fn new(alloc: Global, wish: Wish, limit: usize) -> Result<TrackingClient, ClientFault>
        ensures client { IfOk result (λ t. rest_in t ≡ begun wish) }
        ensures account { IfOk result (λ t. account_of t ≡ untold limit) }
        ensures fault { IfErr result (λ e. e ≡ ClientFault.Memory) }
    {
        let client = Client::new(alloc, wish)?;
        Ok(TrackingClient {
            client,
            replies: Vec::new(alloc),
            rows: Vec::new(alloc),
            left: 0,
            losses: Losses::new(),
            limit,
            alloc,
        })
    }

    /// Asks a request, and answers its ordinal, or refuses it, exactly as `Client::submit` does: C4, C1, C2, C7, C3 or C5, and nothing has changed
    /// then. The account stays.
    pub fn ask(&mut self, request: Request) -> Result<u64, SubmitFault>
        ensures ok { IfOk result (λ n. IsAccepted (rest_in self.old) (request_view request) n
            × (rest_in self.new ≡ after_submit (rest_in self.old) (request_view request))) }
        ensures err { OnErr result (rest_in self.new ≡ rest_in self.old) }
        ensures fault { IfErr result (λ e. (e ≡ SubmitFault.Memory → ⊥)
            → refuses (rest_in self.old).knows (request_view request) ≡ Some e) }
        ensures memory { IsErrOf result SubmitFault.Memory
            → refuses_at_once (rest_in self.old).knows (request_view request) ≡ None }
        ensures account { account_of self.new ≡ account_of self.old }
    {
        self.client.submit(request)
    }

    /// The next bytes for the server, the smaller of `max` and what waits; if that is none, without memory. Or C5, and nothing has changed.
    /// The account stays.
    pub fn take_out(&mut self, max: usize) -> Result<Bytes, ClientFault>
        ensures ok { IfOk result (λ bytes. (bytes ≡ take max (rest_in self.old).unsent)
            × (rest_in self.new ≡ taken_out (rest_in self.old) max)) }
        ensures err { OnErr result (rest_in self.new ≡ rest_in self.old) }
        ensures fault { IfErr result (λ e. e ≡ ClientFault.Memory) }
        ensures short { IfOk result (λ bytes. length bytes < 2 ^ 63) }
        ensures memory { OnErr result (0 < length (take max (rest_in self.old).unsent)) }
        ensures account { account_of self.new ≡ account_of self.old }
    {
        self.client.take_out(max)
    }

    /// Whether a row more is kept.
    fn keeps_row(&self) -> bool
        ensures { result ≡ keeps_row (account_of self.now) }
    {
        self.left == 0 && self.rows.len() < self.limit
    }

    /// Keeps a row of the request that waits first, or counts it.
    fn add_row(&mut self, cells: Vec<Cell>)
        requires { vec_len self.old.rows < vec_capacity self.old.rows }
        ensures client { rest_in self.new ≡ rest_in self.old }
        ensures account { account_of self.new ≡ with_row (account_of self.old) (row_view cells) }
    {
        if self.keeps_row() {
            self.rows.push_reserved(cells);
        } else if self.left < u64::MAX {
            self.left += 1;
        }
    }

    /// Keeps the summary of the request that waited first: the rows so far are its own.
    fn add_summary(&mut self, ordinal: u64, outcome: Outcome, response: Response)
        requires { vec_len self.old.replies < vec_capacity self.old.replies }
        ensures client { rest_in self.new ≡ rest_in self.old }
        ensures account { account_of self.new
            ≡ with_summary (account_of self.old) ordinal outcome (response_view response) }
    {
        let rows = taken(&mut self.rows, self.alloc);
        let left = mem::replace(&mut self.left, 0);
        self.replies.push_reserved(Reply {
            ordinal,
            outcome,
            response,
            rows,
            left,
        });
    }

    /// Whether some rows have to be taken before a piece is used.
    fn is_full(&self) -> bool
        ensures { result ≡ is_full (rest_in self.now).knows (account_of self.now) }
    {
        if self.client.has_ended() || self.client.pending() != 1 {
            return false;
        }
        self.left == 0 && 0 < self.rows.len() && self.limit <= self.rows.len()
    }

    /// Feeds a piece if no request waits: then neither a row nor a summary can come, and the account stays.
    fn feed_idle(&mut self, piece: &[u8]) -> Result<usize, FeedFault>
        requires { (rest_in self.old).knows.waiting ≡ [] }
        ensures fed { let f = feed_of (rest_in self.old) piece.now in
            UnlessMemory result ((result ≡ used_by f.answer) × (rest_in self.new ≡ f.rest)) }
        ensures account { account_of self.new ≡ account_of self.old }
        ensures memory { IsErrOf result FeedFault.Memory → (rest_in self.new ≡ rest_in self.old)
            × ((rest_in self.old).knows.over ≡ false)
            × WantsRoom (rest_in self.old).item piece.now }
        ensures within { IfOk result (λ used. used ≤ length piece.now) }
        ensures goes_on { 0 < length piece.now → IfOk result (λ used. 0 < used) }
    {
        let (used, _nothing) = match self.client.feed(piece) {
            Ok(fed) => fed,
            Err(fault) => return Err(fault_of(fault)),
        };
        Ok(used)
    }

    /// Feeds a piece to the end of the item begun, else all of it, as `Client::feed` does, and answers how much; what is told is in the account.
    ///
    /// `Full` where `limit` rows of the one request that waits are held: nothing was used and nothing has changed, and it goes on once some are
    /// taken. If others wait behind it, or a row was left out before, rows past the limit are counted and not kept. So one who pulls n rows at
    /// a time names a limit above n.
    ///
    /// C4 and C6 as there; C5 for want of memory, in an open client that isn't full, if a request waits or the piece wants room as in
    /// `Client::feed`: nothing was used, nothing has changed.
    #[tactic(auto, using(crate::proofs::Idle::idle_feed))]
    pub fn feed(&mut self, piece: &[u8]) -> Result<usize, FeedFault>
        ensures fed { let t = tracked_feed (rest_in self.old) (account_of self.old) piece.now in
            UnlessMemory result ((result ≡ t.answer) × ((rest_in self.new ≡ t.rest)
            × (account_of self.new ≡ t.account))) }
        ensures memory { IsErrOf result FeedFault.Memory
            → (rest_in self.new ≡ rest_in self.old) × (account_of self.new ≡ account_of self.old) }
        ensures open { IsErrOf result FeedFault.Memory → ((rest_in self.old).knows.over ≡ false)
            × (is_full (rest_in self.old).knows (account_of self.old) ≡ false) }
        ensures room { IsErrOf result FeedFault.Memory
            → (0 < length (rest_in self.old).knows.waiting)
            ⊎ WantsRoom (rest_in self.old).item piece.now }
        ensures within { IfOk result (λ used. used ≤ length piece.now) }
        ensures goes_on { 0 < length piece.now → IfOk result (λ used. 0 < used) }
    {
        if self.client.has_ended() {
            return Err(FeedFault::Closed);
        }
        if self.client.pending() == 0 {
            return self.feed_idle(piece);
        }
        if self.is_full() {
            return Err(FeedFault::Full);
        }
        if self.rows.reserve(1).is_err() || self.replies.reserve(1).is_err() {
            return Err(FeedFault::Memory);
        }
        let (used, heard) = match self.client.feed(piece) {
            Ok(fed) => fed,
            Err(fault) => return Err(fault_of(fault)),
        };
        match heard {
            Heard::Row(cells) => self.add_row(cells),
            Heard::Summary {
                ordinal,
                outcome,
                response,
                ..
            } => self.add_summary(ordinal, outcome, response),
            Heard::Nothing | Heard::Version(_) => {}
        }
        Ok(used)
    }

    /// No byte comes any more: each request that waited has its outcome in the account. A second call changes nothing. Takes no memory.
    pub fn lost(&mut self)
        ensures client { rest_in self.new ≡ after_drop (rest_in self.old) }
        ensures account { account_of self.new
            ≡ with_losses (account_of self.old) (losses (rest_in self.old).knows) }
    {
        if self.client.pending() > 0 {
            self.losses = self.client.lost();
        } else {
            let _none = self.client.lost();
        }
    }

    /// Forgets what was told, if nothing waits; answers whether it did. Takes no memory.
    pub fn settle(&mut self) -> bool
        ensures settles { result ≡ is_idle (rest_in self.old).knows }
        ensures client { rest_in self.new ≡ rest_in self.old }
        ensures settled { result ≡ true → account_of self.new ≡ settled (account_of self.old) }
        ensures waits { result ≡ false → account_of self.new ≡ account_of self.old }
    {
        if self.client.pending() > 0 {
            return false;
        }
        self.replies.clear();
        self.rows.clear();
        self.left = 0;
        self.losses = Losses::new();
        true
    }

    /// The bytes for the server that aren't taken out: lent, so that a stream can write them. Takes no memory.
    pub fn unsent(&self) -> &[u8]
        ensures { result.now ≡ (rest_in self.now).unsent }
    {
        self.client.unsent()
    }

    /// Takes out the next bytes, the smaller of `count` and what waits, as `take_out` does, for who wrote them from `unsent`. The account stays.
    /// Takes no memory.
    pub fn sent(&mut self, count: usize)
        ensures sent { rest_in self.new ≡ taken_out (rest_in self.old) count }
        ensures account { account_of self.new ≡ account_of self.old }
    {
        self.client.sent(count)
    }

    /// Whether bytes wait to be written to the server. Takes no memory.
    pub fn wants_write(&self) -> bool
        ensures { result ≡ not (length (rest_in self.now).unsent == 0) }
    {
        !self.client.unsent().is_empty()
    }

    /// Whether an answer is still to come, as `Client::awaits` says. Takes no memory.
    pub fn wants_read(&self) -> bool
        ensures { result ≡ awaits (rest_in self.now).knows }
    {
        self.client.awaits()
    }

    /// The version that the server took, none before its answer. Takes no memory.
    pub fn version(&self) -> Option<Version>
        ensures { result ≡ (rest_in self.now).knows.version }
    {
        self.client.version()
    }

    /// The phase that the last summary told, Fresh before one. Takes no memory.
    pub fn phase(&self) -> Phase
        ensures { result ≡ (rest_in self.now).knows.phase }
    {
        self.client.phase()
    }

    /// The ordinal of the request that waits first; if none does, of the next that is asked. Takes no memory.
    pub fn first_waiting(&self) -> u64
        ensures { result ≡ (rest_in self.now).knows.first }
    {
        self.client.first_waiting()
    }

    /// How many requests wait, at most 32, and none after `lost`. Takes no memory.
    pub fn pending(&self) -> usize
        ensures count { result ≡ length (rest_in self.now).knows.waiting }
        ensures few { result ≤ max_waiting }
    {
        self.client.pending()
    }

    /// Whether the client has ended: by itself, by a bad answer, or because it was lost. Takes no memory.
    pub fn has_ended(&self) -> bool
        ensures { result ≡ (rest_in self.now).knows.over }
    {
        self.client.has_ended()
    }

    /// Returns true if a message of the server passed 65,536 bytes, with which the client has ended. Takes no memory.
    pub fn message_is_too_large(&self) -> bool
        ensures { result ≡ is_too_large (rest_in self.now).item }
    {
        self.client.message_is_too_large()
    }
}
