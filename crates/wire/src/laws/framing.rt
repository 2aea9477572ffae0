//! Laws on the readers of the real bytes: what opens a stream, then chunks. Each function has an empty body, and its contract is the law.

ghost use Rattle.wire.specs.Reader.{Reader, ReadsPieces, ReachesItems, ReadsMapped};
ghost use Rattle.wire.specs.Framing.{ReadersRead, ReadsItems, AnswersTake, FramesFronts, OursArrives, SaidArrives};

/// What a piece completes and what is kept after it depends on what was kept alone: a piece in parts does what it does whole.
#[tactic(auto, using(crate::proofs::Opened::readers_read))]
pub fn readers_read()
    ensures { ReadersRead }
{}

/// Of every reader, a piece in parts does what it does whole.
#[tactic(auto, using(crate::proofs::Readers::reads_pieces))]
pub fn reads_pieces<R, X>()
    ensures { (p : Reader R X) → ReadsPieces R X p }
{}

/// How many bytes are taken of a piece is told by the items alone, and so is the item that they complete.
#[tactic(auto, using(crate::proofs::Reached::reaches_items))]
pub fn reaches_items<R, X>()
    ensures { (p : Reader R X) → ReachesItems R X p }
{}

/// A reader whose items are what another's mean keeps what the other keeps.
#[tactic(auto, using(crate::proofs::Readers::reads_mapped))]
pub fn reads_mapped<R, X, Y>()
    ensures { ReadsMapped R X Y }
{}

/// The reader of chunks completes the items of the stream, and keeps what is unfinished.
pub fn reads_items()
    ensures { ReadsItems }
{}

/// What `Dechunk::feed` answers, memory aside, is what the reader of chunks takes, if no message was refused.
#[tactic(auto, using(crate::proofs::Framed::answers_take))]
pub fn answers_take()
    ensures { AnswersTake }
{}

/// Of every front of the bytes that open a stream and of items that follow, the items are those whose bytes lie whole in it.
#[tactic(auto, using(crate::proofs::Opened::frames_fronts))]
pub fn frames_fronts()
    ensures { FramesFronts }
{}

/// Of every front of an offer and messages' runs, a server receives the offer and the messages that lie whole in it.
#[tactic(auto, using(crate::proofs::Opened::ours_arrives))]
pub fn ours_arrives()
    ensures { OursArrives }
{}

/// Of every front of a version answer, no-ops and messages' runs, a client hears those that lie whole in it.
#[tactic(auto, using(crate::proofs::Opened::said_arrives))]
pub fn said_arrives()
    ensures { SaidArrives }
{}
