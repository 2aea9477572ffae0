//! What holds of the responses of a server that are neither rows nor the SUCCESS of a RUN.
ghost use Rattle.messages.specs.Summaries.{AllFit, AllReadBack};

/// Each whose numbers are below 2^64 and whose texts have at most 65,000 bytes together fits a message, in the room that `room`
/// tells; where its texts are UTF-8, what is written stands for it.
#[tactic(auto, using(crate::proofs::Fitting::fits_room, crate::proofs::Fitting::reads_back))]
pub fn short_fits()
    ensures fits { AllFit }
    ensures back { AllReadBack }
{}
