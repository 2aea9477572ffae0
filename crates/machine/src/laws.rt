//! What holds of the rows, and of the phases that may follow requests.

ghost use Rattle.machine.specs.Laws.{AfterGrows, AllowedIsValid, CommitsAreMarked, CouldGrows, JoinedIsFollow, OneNext, OneWay, PossibleGrows, PossibleInTurn, RowsFollow, InterruptedRowsFollow, TableIsRows};

/// A request has at most one next state at a verdict: no two places of the tables are for it.
#[tactic(auto, using(crate::proofs::Leading::one_next))]
pub fn one_next()
    ensures { OneNext }
{}

/// Each kind of the version is met in exactly one way in each state that isn't over: worked, passed over, refused, or not
/// answered at all; in a state that is over in none, nor is a kind that the version doesn't have.
#[tactic(auto, using(crate::proofs::RowFacts::one_way))]
pub fn one_way()
    ensures { OneWay }
{}

/// What is allowed in a set is refused as invalid in no state of the set.
#[tactic(auto, using(crate::proofs::RowFacts::allowed_is_valid))]
pub fn allowed_is_valid()
    ensures { AllowedIsValid }
{}

/// What a row leads to is among what may follow.
pub fn rows_follow()
    ensures { RowsFollow }
{}

/// So is what a row leads to from Interrupted, if a RESET has interrupted.
pub fn interrupted_rows_follow()
    ensures { InterruptedRowsFollow }
{}

/// The table of what may follow one request says what the rows say over every verdict.
#[tactic(auto, using(crate::proofs::RowFacts::table_is_next))]
pub fn table_is_rows()
    ensures { TableIsRows }
{}

/// So it does of sets.
#[tactic(auto, using(crate::proofs::RowFacts::joined_follow))]
pub fn sets_are_rows()
    ensures { JoinedIsFollow }
{}

/// More may follow more phases.
#[tactic(auto, using(crate::proofs::Growing::after_within))]
pub fn after_grows()
    ensures { AfterGrows }
{}

/// More may follow more phases, over a list of requests.
#[tactic(auto, using(crate::proofs::Growing::grows))]
pub fn possible_grows()
    ensures { PossibleGrows }
{}

/// What could have committed from fewer phases could have from more.
#[tactic(auto, using(crate::proofs::Growing::grows))]
pub fn could_grows()
    ensures { CouldGrows }
{}

/// What may follow two lists of requests in turn is what may follow the list of both.
#[tactic(auto, using(crate::proofs::Growing::grows))]
pub fn possible_in_turn()
    ensures { PossibleInTurn }
{}

/// The rows that commit are those marked in the table.
#[tactic(auto, using(crate::proofs::Growing::commits_marked))]
pub fn commits_are_marked()
    ensures { CommitsAreMarked }
{}
