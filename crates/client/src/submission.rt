//! Which requests may be sent.

ghost use Rattle.std.specs.Prelude.{◌≡◌, ◌<◌, ◌+◌, ◌∷◌, ◌++◌, [], length, map, Some, None, IfOk, IfErr};
ghost use Rattle.std.specs.VecDeque.{deque_len};
ghost use Rattle.messages.specs.View.{request_view};
ghost use Rattle.machine.specs.Following.{possible};
ghost use Rattle.client.specs.Rest.{permits, refuses_at_once, asks_summary, awaits};
ghost use Rattle.client.specs.Fits.{knowledge_of};
ghost use Rattle.machine.specs.Limits.{max_ordinals, max_waiting};

use crate::faults::SubmitFault;
use crate::pipeline::Pipeline;
use machine::{MAX_ORDINALS, MAX_WAITING, PhaseSet, after, allowed, is_goodbye, kind};
use messages::Request;
use wire::Version;

impl Pipeline {
    /// The phases that may follow the requests that wait. They are kept.
    fn follow(&mut self, version: Version) -> PhaseSet
        requires { self.old.version ≡ Some version }
        ensures set { result ≡ possible version (self.old.phase ∷ [])
            (map request_view self.old.waiting.items) }
        ensures same { knowledge_of self.new ≡ knowledge_of self.old }
    {
        let mut set = self.following;
        for i in self.passed..self.waiting.len() {
            set = after(version, set, &self.waiting[i]);
        }
        self.passed = self.waiting.len();
        self.following = set;
        set
    }

    /// Whether each phase that may follow allows the request.
    fn permits(&mut self, version: Version, request: &Request) -> bool
        requires { self.old.version ≡ Some version }
        ensures permits { result ≡ permits (knowledge_of self.old) (request_view request.now)
            (Some version) }
        ensures same { knowledge_of self.new ≡ knowledge_of self.old }
    {
        allowed(version, self.follow(version), kind(request))
    }

    /// The version at which a request may be sent; else C4, C1 or C2, the first that holds. Takes no memory.
    pub fn admit(&mut self, request: &Request) -> Result<Version, SubmitFault>
        ensures ok { IfOk result
            (λ v. (self.old.version ≡ Some v)
            × (refuses_at_once (knowledge_of self.old) (request_view request.now) ≡ None)) }
        ensures room { IfOk result
            (λ v. (deque_len self.new.waiting < max_waiting)
            × (self.new.first + deque_len self.new.waiting < max_ordinals)) }
        ensures err { IfErr result
            (λ e. refuses_at_once (knowledge_of self.old) (request_view request.now) ≡ Some e) }
        ensures same { knowledge_of self.new ≡ knowledge_of self.old }
    {
        if self.over {
            return Err(SubmitFault::Closed);
        }
        let Some(version) = self.version else {
            return Err(SubmitFault::NotAllowed);
        };
        if !self.permits(version, request) {
            return Err(SubmitFault::NotAllowed);
        }
        let len = self.waiting.len();
        if len >= MAX_WAITING || self.first + len as u64 >= MAX_ORDINALS {
            return Err(SubmitFault::PipelineFull);
        }
        Ok(version)
    }

    /// Whether a request other than GOODBYE waits.
    fn asks_summary(&self) -> bool
        ensures { result ≡ asks_summary (map request_view self.now.waiting.items) }
    {
        for i in 0..self.waiting.len() {
            if !is_goodbye(&self.waiting[i]) {
                return true;
            }
        }
        false
    }

    /// Whether an answer is still to come. Takes no memory.
    pub fn awaits(&self) -> bool
        ensures { result ≡ awaits (knowledge_of self.now) }
    {
        if self.over {
            return false;
        }
        if self.version.is_none() {
            return true;
        }
        self.asks_summary()
    }

    /// The request waits behind the others, with the next ordinal.
    pub fn place(&mut self, request: Request) -> u64
        requires { (deque_len self.old.waiting < max_waiting)
            × (self.old.first + deque_len self.old.waiting < max_ordinals) }
        ensures ordinal { result ≡ self.old.first + length (knowledge_of self.old).waiting }
        ensures placed { knowledge_of self.new
            ≡ record (knowledge_of self.old)
            { waiting = (knowledge_of self.old).waiting ++ request_view request ∷ [] } }
    {
        let ordinal = self.first + self.waiting.len() as u64;
        self.waiting.push_back_reserved(request);
        ordinal
    }
}
