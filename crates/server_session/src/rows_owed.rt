//! Rows that are owed one after the other, written without a step for each.
ghost use Rattle.std.specs.Prelude.{◌≡◌, ◌<◌, ◌⊎◌, length, nat_le, true, false};
ghost use Rattle.messages.specs.View.{request_view};
ghost use Rattle.server_session.specs.Limits.{max_unsent};
ghost use Rattle.server_session.specs.Rest.{WritesRows};
ghost use Rattle.server_session.specs.Views.{kept_of};
ghost use Rattle.server_session.specs.Acts.{AreOwed, OwesRows, SendsRow};

use crate::MAX_UNSENT;
use crate::acts::Turn;
use crate::session::Session;
use crate::words::{is_streaming, left_of};
use messages::Request;

impl Session {
    /// Writes rows that are owed to the first request, as so many steps do that tell a row each; and answers how many. A row that takes
    /// a step of its own ends it: one past a chunk, one with a cell that holds others, or one for which there is no memory.
    pub fn write_rows(&mut self) -> usize
        ensures { WritesRows result (kept_of self.old) (kept_of self.new) }
    {
        let owed = self.rows_owed();
        for count in 0..owed {
            if !self.write_row() {
                return count;
            }
        }
        owed
    }

    /// Writes the first row that is left, where there is room for a step; or says no, and changes nothing.
    fn write_row(&mut self) -> bool
        requires row { 0 < self.old.result.rows.count }
        ensures sent { result ≡ true → SendsRow (kept_of self.old) (kept_of self.new) }
        ensures room { result ≡ true
            → nat_le max_unsent (length (kept_of self.old).unsent) ≡ false }
        ensures other { result ≡ false → kept_of self.new ≡ kept_of self.old }
    {
        if self.out.whole_len() >= MAX_UNSENT {
            return false;
        }
        self.put_first()
    }

    /// How many rows are owed to the first request, one after the other.
    fn rows_owed(&self) -> usize
        ensures { (result ≡ 0) ⊎ AreOwed result (kept_of self.now) }
    {
        if self.cause.is_some() || self.is_interrupted() {
            return 0;
        }
        match self.queue.turn() {
            Turn::Serves => self.rows_for(self.queue.request()),
            Turn::Nothing | Turn::Ends(_) => 0,
        }
    }

    /// How many rows are owed to a request, one after the other.
    fn rows_for(&self, request: &Request) -> usize
        ensures { let k = kept_of self.now in
            OwesRows result k.state k.result (request_view request.now) }
    {
        match request {
            Request::Pull(count) => {
                if !is_streaming(self.state) {
                    return 0;
                }
                left_of(*count, self.result.written).min(self.result.rows.count)
            }
            Request::Hello { .. }
            | Request::Logon(_)
            | Request::Logoff
            | Request::Goodbye
            | Request::Reset
            | Request::Run { .. }
            | Request::Begin { .. }
            | Request::Commit
            | Request::Rollback
            | Request::Discard(_) => 0,
        }
    }
}
