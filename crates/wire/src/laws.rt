//! Laws on the definitions, for callers to rely on. Each function has an empty body, and its contract is the law.

ghost use Rattle.std.specs.Prelude.{ℕ, List};
ghost use Rattle.wire.specs.Offers.{OffersTaken, ProposalsChoose};
ghost use Rattle.wire.specs.Unfinished.{Unfinished};
ghost use Rattle.wire.specs.Items.{answer_to};
ghost use Rattle.wire.specs.Scanning.{CutsAgree};
ghost use Rattle.wire.specs.Whole.{ReadsMessages, ReadsWhole, OneWhole, RefusesPast, TextsOne, WritesRun, NoShorter, BeginsNone, KeepsFew};
ghost use Rattle.wire.specs.Stream.{HandsOutItems, ReadsBack, KeepsWithin, ItemsOfParts, SplitsIntoRuns, TellsTooBig, RunIsShort, ReadsTexts, AnswerFacts, TakesFirst};

pub mod framing;

/// In whatever pieces a stream comes, the items of the bytes used are what was handed out.
#[tactic(auto, using(crate::proofs::Streams::hands_out))]
pub fn hands_out_items()
    ensures { HandsOutItems }
{}

/// A stream that is runs of chunks has their messages and no-ops as its items, and no others.
#[tactic(auto, using(crate::proofs::Grammar::reads_texts))]
pub fn reads_texts()
    ensures { ReadsTexts }
{}

/// Of each piece, what is handed out is an item of the bytes used, and no fewer bytes have one.
#[tactic(auto, using(crate::proofs::Streams::answer_to_facts))]
pub fn answers_items()
    ensures { (s : Unfinished) (bytes : List ℕ) → AnswerFacts s bytes (answer_to s bytes) }
{}

/// What `put_message` writes is read as that message.
#[tactic(auto, using(crate::proofs::Grammar::reads_back))]
pub fn reads_back()
    ensures { ReadsBack }
{}

/// Of a piece that begins with a message in one chunk, that message is what the piece ends first.
#[tactic(auto, using(crate::proofs::First::takes_first))]
pub fn takes_first()
    ensures { TakesFirst }
{}

/// The unfinished item stays within the limit of a message.
#[tactic(auto, using(crate::proofs::Limits::keeps_within))]
pub fn keeps_within()
    ensures { KeepsWithin }
{}

/// The items of a stream are those of its parts.
#[tactic(auto, using(crate::proofs::Streams::items_of_append))]
pub fn items_of_parts()
    ensures { ItemsOfParts }
{}

/// Chunks add six bytes at most.
#[tactic(auto, using(crate::proofs::Runs::run_is_short))]
pub fn run_is_short()
    ensures { RunIsShort }
{}

/// An answer is a refusal exactly if the item is refused from then on.
#[tactic(auto, using(crate::proofs::Limits::tells_too_big))]
pub fn tells_too_big()
    ensures { TellsTooBig }
{}

/// Whatever bytes come, what is read of them is runs of chunks from their front.
#[tactic(auto, using(crate::proofs::Whole::splits_into_runs))]
pub fn splits_into_runs()
    ensures { SplitsIntoRuns }
{}

/// The parts that `Chunks` cuts off a stream are those of its items: the data up to an end is the message.
pub fn cuts_agree()
    ensures { CutsAgree }
{}

/// Of any bytes, the messages of the longest front that is runs and no-ops are read.
#[tactic(auto, using(crate::proofs::Fronts::reads_whole))]
pub fn reads_whole()
    ensures { ReadsWhole }
{}

/// Of bytes that are runs and no-ops, the messages are read and nothing else, and nothing is unfinished after them.
pub fn reads_messages()
    ensures { ReadsMessages }
{}

/// The messages of the longest front that is runs and no-ops are the only ones.
pub fn one_whole()
    ensures { OneWhole }
{}

/// A message is refused exactly if, after runs, no-ops and chunks, a header takes it past 65,536 bytes.
#[tactic(auto, using(crate::proofs::Fronts::refuses_past))]
pub fn refuses_past()
    ensures { RefusesPast }
{}

/// What `put_message` writes is no-ops and runs whose one message is its message.
#[tactic(auto, using(crate::proofs::Grammar::texts_one))]
pub fn texts_one()
    ensures { TextsOne }
{}

/// What `put_message` writes is one run, of its message, with every chunk but the last as long as a chunk may be.
#[tactic(auto, using(crate::proofs::Grammar::writes_run))]
pub fn writes_run()
    ensures { WritesRun }
{}

/// No written run of a message is a proper beginning of another's.
#[tactic(auto, using(crate::proofs::Fronts::begins_none))]
pub fn begins_none()
    ensures { BeginsNone }
{}

/// An unfinished item, with the byte of a header that isn't whole, has at most 65,537 bytes.
#[tactic(auto, using(crate::proofs::Limits::keeps_few))]
pub fn keeps_few()
    ensures { KeepsFew }
{}

/// Of what a client offers, a server of this product takes what it wishes; an offer has 20 bytes, and an answer to it 4.
#[tactic(auto, using(crate::proofs::Proposals::offers_taken))]
pub fn offers_taken()
    ensures { OffersTaken }
{}

/// Of proposals, the version chosen is the one that the first covers of those that cover any, by the rule of the handshake.
#[tactic(auto, using(crate::proofs::Covered::proposals_choose))]
pub fn proposals_choose()
    ensures { ProposalsChoose }
{}

/// No run of a message is shorter than what `put_message` writes.
#[tactic(auto, using(crate::proofs::Runs::no_shorter))]
pub fn no_shorter()
    ensures { NoShorter }
{}
