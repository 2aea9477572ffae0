//! The steps that a decider asks for, and the fates that it reports.

use decider::{
    Before, Decider, EndReason, Fate, MarkerRow, Next, Policy, Retry, StepResult, TokenSupport,
};
use std::test::Fail;

fn decider(retry: Retry, before: Before, tries: u32) -> Decider {
    Decider::new(Policy {
        retry,
        before,
        tries,
    })
}

#[test]
fn commit_at_the_first_attempt(rt: HostRuntime) -> Result<(), Fail> {
    let mut decider = decider(Retry::default(), Before::Nothing, 3);
    assert_eq!(rt; decider.fate(), Fate::NotCommitted);
    assert_eq!(rt; decider.begin(), Next::Attempt);
    assert_eq!(rt; decider.fate(), Fate::Unknown);
    assert!(rt; decider.is_in_doubt() && decider.attempts() == 0);
    decider.report(StepResult::Committed(4));
    assert_eq!(rt; decider.begin(), Next::End);
    assert_eq!(rt; decider.fate(), Fate::Committed);
    assert!(rt; decider.end_reason() == Some(EndReason::Known) && decider.commit() == Some(4));
    assert!(rt; decider.attempts() == 1 && !decider.is_in_doubt());
    Ok(())
}

#[test]
fn doubt_at_a_server_without_tokens_ends_it(rt: HostRuntime) -> Result<(), Fail> {
    let mut first = decider(Retry::Detect, Before::Nothing, 3);
    first.begin();
    first.report(StepResult::InDoubt(TokenSupport::Unsupported));
    assert_eq!(rt; first.begin(), Next::End);
    assert_eq!(rt; first.fate(), Fate::Unknown);
    assert!(rt; first.end_reason() == Some(EndReason::UnsafeToRetry));
    let mut unheard = decider(Retry::Detect, Before::Nothing, 3);
    unheard.begin();
    unheard.report(StepResult::InDoubt(TokenSupport::Unknown));
    assert_eq!(rt; unheard.begin(), Next::End);
    let mut mixed = decider(Retry::Detect, Before::Nothing, 5);
    mixed.begin();
    mixed.report(StepResult::InDoubt(TokenSupport::Supported));
    assert_eq!(rt; mixed.begin(), Next::Greet);
    mixed.report(StepResult::Greeted(TokenSupport::Unsupported));
    assert_eq!(rt; mixed.begin(), Next::End);
    Ok(())
}

#[test]
fn doubt_at_a_server_with_tokens_is_followed_by_an_attempt(rt: HostRuntime) -> Result<(), Fail> {
    let mut decider = decider(Retry::Detect, Before::Nothing, 4);
    decider.begin();
    decider.report(StepResult::InDoubt(TokenSupport::Supported));
    assert_eq!(rt; decider.begin(), Next::Greet);
    decider.report(StepResult::NoCommitSent);
    assert_eq!(rt; decider.begin(), Next::Greet);
    decider.report(StepResult::Greeted(TokenSupport::Supported));
    assert_eq!(rt; decider.begin(), Next::Attempt);
    decider.report(StepResult::PermanentFailure(2));
    assert_eq!(rt; decider.begin(), Next::Greet);
    decider.report(StepResult::Greeted(TokenSupport::Supported));
    decider.begin();
    decider.report(StepResult::NoCommitSent);
    assert_eq!(rt; decider.begin(), Next::End);
    assert_eq!(rt; decider.fate(), Fate::Unknown);
    assert!(rt; decider.end_reason() == Some(EndReason::TriesUsedUp) && decider.fault() == Some(2));
    Ok(())
}

#[test]
fn never_sends_after_a_doubt(rt: HostRuntime) -> Result<(), Fail> {
    let mut known = decider(Retry::Never, Before::Nothing, 3);
    known.begin();
    known.report(StepResult::TransientFailure);
    assert_eq!(rt; known.begin(), Next::Attempt);
    known.report(StepResult::InDoubt(TokenSupport::Supported));
    assert_eq!(rt; known.begin(), Next::End);
    assert_eq!(rt; known.fate(), Fate::Unknown);
    let mut before = decider(Retry::Never, Before::InDoubt, 3);
    assert_eq!(rt; before.begin(), Next::End);
    Ok(())
}

#[test]
fn doubt_from_before_stays(rt: HostRuntime) -> Result<(), Fail> {
    let mut detect = decider(Retry::Detect, Before::InDoubt, 2);
    assert_eq!(rt; detect.begin(), Next::End);
    let mut tokens = decider(Retry::Tokens, Before::InDoubt, 2);
    assert_eq!(rt; tokens.begin(), Next::Attempt);
    tokens.report(StepResult::NoCommitSent);
    tokens.begin();
    tokens.report(StepResult::PermanentFailure(0));
    assert_eq!(rt; tokens.begin(), Next::End);
    assert_eq!(rt; tokens.fate(), Fate::Unknown);
    let mut marker = decider(Retry::Marker, Before::InDoubt, 2);
    assert_eq!(rt; marker.begin(), Next::ReadMarker);
    marker.report(StepResult::Marker(MarkerRow::Ours));
    assert_eq!(rt; marker.fate(), Fate::Committed);
    assert!(rt; marker.commit().is_none() && marker.attempts() == 0);
    Ok(())
}

#[test]
fn tombstone_ends_a_doubt(rt: HostRuntime) -> Result<(), Fail> {
    let mut decider = decider(Retry::Marker, Before::Nothing, 2);
    decider.begin();
    decider.report(StepResult::InDoubt(TokenSupport::Unknown));
    assert_eq!(rt; decider.begin(), Next::ReadMarker);
    decider.report(StepResult::NoMarker);
    assert_eq!(rt; decider.begin(), Next::Attempt);
    decider.report(StepResult::NoCommitSent);
    assert_eq!(rt; decider.begin(), Next::ReadMarker);
    decider.report(StepResult::NoMarker);
    assert_eq!(rt; decider.begin(), Next::WriteTombstone);
    decider.report(StepResult::TombstoneUnconfirmed);
    assert_eq!(rt; decider.begin(), Next::ReadMarker);
    decider.report(StepResult::MarkerNotRead);
    assert_eq!(rt; decider.begin(), Next::WriteTombstone);
    decider.report(StepResult::TombstoneWritten);
    assert_eq!(rt; decider.begin(), Next::End);
    assert_eq!(rt; decider.fate(), Fate::NotCommitted);
    Ok(())
}

#[test]
fn marker_is_read_after_a_refusal(rt: HostRuntime) -> Result<(), Fail> {
    let mut refused = decider(Retry::Marker, Before::Nothing, 2);
    refused.begin();
    refused.report(StepResult::PermanentFailure(1));
    assert_eq!(rt; refused.begin(), Next::ReadMarker);
    refused.report(StepResult::NoMarker);
    assert_eq!(rt; refused.begin(), Next::End);
    assert_eq!(rt; refused.fate(), Fate::Refused);
    assert!(rt; refused.end_reason() == Some(EndReason::Refused));
    let mut taken = decider(Retry::Marker, Before::Nothing, 2);
    taken.begin();
    taken.report(StepResult::PermanentFailure(1));
    taken.report(StepResult::Marker(MarkerRow::Other));
    assert_eq!(rt; taken.fate(), Fate::Conflict);
    Ok(())
}

#[test]
fn interrupted_attempt_is_in_doubt(rt: HostRuntime) -> Result<(), Fail> {
    let mut stopped = decider(Retry::Tokens, Before::Nothing, 3);
    assert_eq!(rt; stopped.begin(), Next::Attempt);
    stopped.report(StepResult::Stopped);
    assert_eq!(rt; stopped.fate(), Fate::Unknown);
    assert_eq!(rt; stopped.begin(), Next::End);
    assert_eq!(rt; stopped.fate(), Fate::Unknown);
    assert!(rt; stopped.end_reason() == Some(EndReason::Stopped));
    let mut forgotten = decider(Retry::Detect, Before::Nothing, 3);
    assert_eq!(rt; forgotten.begin(), Next::Attempt);
    assert_eq!(rt; forgotten.begin(), Next::End);
    assert_eq!(rt; forgotten.fate(), Fate::Unknown);
    Ok(())
}
