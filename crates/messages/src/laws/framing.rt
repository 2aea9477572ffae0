//! Laws on the messages that arrive of a connection's bytes. Each function has an empty body, and its contract is the law.

ghost use Rattle.messages.specs.Arrivals.{RequestsArrive, ArrivesWhole, SaysArrive, SoFarArrives, NoVersionArrives, ArrivalsGoOn, NothingFollows, HearsGoOn, NothingMoreHeard};

/// Of every front of an offer and requests' runs, a server takes the version that was wished and the requests that lie whole in it.
#[tactic(auto, using(crate::proofs::Arriving::requests_arrive))]
pub fn requests_arrive()
    ensures { RequestsArrive }
{}

/// Of every front of a version answer, no-ops and responses' runs, a client hears what lies whole in it.
#[tactic(auto, using(crate::proofs::Arriving::says_arrive))]
pub fn says_arrive()
    ensures { SaysArrive }
{}

/// Of every front of all that a server has said by a moment, which may be nothing, a client hears what lies whole in it.
#[tactic(auto, using(crate::proofs::Arriving::so_far_arrives))]
pub fn so_far_arrives()
    ensures { SoFarArrives }
{}

/// The answer of a server that takes no version is heard as that, once it is there whole.
#[tactic(auto, using(crate::proofs::Arriving::no_version_arrives))]
pub fn no_version_arrives()
    ensures { NoVersionArrives }
{}

/// What arrives of more bytes begins with what arrived.
#[tactic(auto, using(crate::proofs::Following::arrivals_go_on))]
pub fn arrivals_go_on()
    ensures { ArrivalsGoOn }
{}

/// After an offer of which no version is taken, bytes that stand for no request, or a message past the limit, nothing arrives.
#[tactic(auto, using(crate::proofs::Following::nothing_follows))]
pub fn nothing_follows()
    ensures { NothingFollows }
{}

/// What arrives after an offer of which a version is taken, no-ops aside, is the requests of the whole messages of the bytes after
/// it, up to the first that stands for none, and the refusal of a message past its limit.
#[tactic(auto, using(crate::proofs::Arriving::arrives_whole))]
pub fn arrives_whole()
    ensures { ArrivesWhole }
{}

/// What a client hears of more bytes, the newest first, ends with what it heard.
#[tactic(auto, using(crate::proofs::Following::hears_go_on))]
pub fn hears_go_on()
    ensures { HearsGoOn }
{}

/// After the answer of no version, four bytes that are no answer, bytes that stand for no response, or a message past the limit, nothing is heard.
#[tactic(auto, using(crate::proofs::Following::nothing_more_heard))]
pub fn nothing_more_heard()
    ensures { NothingMoreHeard }
{}
