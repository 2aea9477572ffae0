//! What a client makes of what it hears.

ghost use Rattle.std.specs.Prelude.{◌≡◌, List, true, map, drop, Err};
ghost use Rattle.packstream.specs.Tree.{Tree};
ghost use Rattle.structures_cells.specs.Shape.{shapes};
ghost use Rattle.messages.specs.View.{request_view, response_view, ResponseView};
ghost use Rattle.messages.specs.Arrivals.{Heard as AnyHeard};
ghost use Rattle.client.specs.Verdicts.{resets};
ghost use Rattle.client.specs.Rest.{judgement_of, hears_version, hears_row, row_heard, hears_response, hears_summary, hears_item};
ghost use Rattle.client.specs.Hearings.{Hears, came_as};
ghost use Rattle.client.specs.Fits.{knowledge_of};

use crate::data::Came;
use crate::faults::ClientFault;
use crate::heard::{Heard, Outcome};
use crate::pipeline::Pipeline;
use crate::verdicts::{accepted, is_over, is_wished, outcome, verdict};
use machine::{Phase, PhaseSet, is_partial, is_reset, kind};
use messages::{Request, Response};
use structures::Cell;
use wire::{Version, Wish};

impl Pipeline {
    /// A bad answer ends the client.
    #[inline(always)]
    pub fn end(&mut self) -> ClientFault
        ensures result { result ≡ ClientFault.BadPeer }
        ensures over { knowledge_of self.new ≡ record (knowledge_of self.old) { over = true } }
    {
        self.over = true;
        ClientFault::BadPeer
    }

    /// The same, as what is heard.
    fn spoil(&mut self) -> Result<Heard, ClientFault>
        ensures result { result ≡ Err ClientFault.BadPeer }
        ensures over { knowledge_of self.new ≡ record (knowledge_of self.old) { over = true } }
    {
        Err(self.end())
    }

    /// The version that the server took, or that it took none.
    fn hear_version(&mut self, wish: Wish, version: Option<Version>) -> Result<Heard, ClientFault>
        ensures { Hears (hears_version wish (knowledge_of self.old) self.old.version version)
            (AnyHeard.Chosen version) result (knowledge_of self.new) }
    {
        if self.version.is_some() {
            return self.spoil();
        }
        match version {
            None => {
                self.over = true;
                Ok(Heard::Version(None))
            }
            Some(chosen) => {
                if !is_wished(wish, chosen) {
                    return self.spoil();
                }
                self.version = Some(chosen);
                self.passed = 0;
                self.following = PhaseSet::of(self.phase);
                Ok(Heard::Version(Some(chosen)))
            }
        }
    }

    /// What came of a piece.
    pub fn hear(&mut self, wish: Wish, came: Came) -> Result<Heard, ClientFault>
        ensures { Hears (hears_item wish (knowledge_of self.old) (came_as came)) (came_as came)
            result (knowledge_of self.new) }
    {
        match came {
            Came::Nothing => Ok(Heard::Nothing),
            Came::Bad => self.spoil(),
            Came::Version(version) => self.hear_version(wish, version),
            Came::Response(response) => self.hear_response(response),
        }
    }

    /// A response.
    #[inline(always)]
    pub fn hear_response(&mut self, response: Response) -> Result<Heard, ClientFault>
        ensures { Hears (hears_response (knowledge_of self.old) (response_view response))
            (AnyHeard.Told (response_view response)) result (knowledge_of self.new) }
    {
        match response {
            Response::Record(cells) => self.hear_row(cells),
            summary => self.hear_summary(summary),
        }
    }

    /// Whether the first waiting request is a PULL: a row is of no other.
    #[inline(always)]
    pub fn awaits_row(&self) -> bool
        ensures { (cells : List Tree) → hears_row (knowledge_of self.now) cells
            (knowledge_of self.now).waiting ≡ row_heard (knowledge_of self.now) cells result }
    {
        match self.waiting.front() {
            Some(Request::Pull(_)) => true,
            _ => false,
        }
    }

    /// A row of the first waiting request, which has to be a PULL.
    fn hear_row(&mut self, cells: Vec<Cell>) -> Result<Heard, ClientFault>
        ensures { Hears (hears_row (knowledge_of self.old) (shapes cells.items)
            (knowledge_of self.old).waiting)
            (AnyHeard.Told (ResponseView.Record (shapes cells.items))) result
            (knowledge_of self.new) }
    {
        match self.waiting.front() {
            Some(Request::Pull(_)) => Ok(Heard::Row(cells)),
            _ => self.spoil(),
        }
    }

    /// Whether a RESET waits behind the first request.
    fn is_reset_behind(&self) -> bool
        ensures { result ≡ resets (map request_view (drop 1 self.now.waiting.items)) }
    {
        for i in 1..self.waiting.len() {
            if is_reset(&self.waiting[i]) {
                return true;
            }
        }
        false
    }

    /// The phase that a summary of the first waiting request leads to, and what became of the request, if it is accepted.
    fn judge(&self, response: &Response) -> Option<(Phase, Outcome)>
        ensures { result ≡ judgement_of (knowledge_of self.now) (response_view response.now)
            self.now.version (knowledge_of self.now).waiting }
    {
        let version = self.version?;
        let request = self.waiting.front()?;
        let kind = kind(request);
        let verdict = verdict(is_partial(request), response)?;
        let phase = accepted(version, self.phase, kind, self.is_reset_behind(), verdict)?;
        Some((phase, outcome(self.phase, kind, verdict)))
    }

    /// The summary of the first waiting request.
    fn hear_summary(&mut self, response: Response) -> Result<Heard, ClientFault>
        ensures { Hears (hears_summary (knowledge_of self.old) (response_view response))
            (AnyHeard.Told (response_view response)) result (knowledge_of self.new) }
    {
        let Some((phase, outcome)) = self.judge(&response) else {
            return self.spoil();
        };
        let ordinal = self.first;
        let Some(_) = self.waiting.pop_front() else {
            return self.spoil();
        };
        self.first += 1;
        self.phase = phase;
        self.passed = 0;
        self.following = PhaseSet::of(phase);
        self.over = is_over(phase);
        Ok(Heard::Summary {
            ordinal,
            phase,
            outcome,
            response,
        })
    }
}
