//! What the words of a request say.
ghost use Rattle.std.specs.Prelude.{◌∷◌, [], map};
ghost use Rattle.std.specs.Option.{option_map};
ghost use Rattle.messages.specs.View.{token_view};
ghost use Rattle.cli_scripts.specs.Answers.{Gives};
ghost use Rattle.cli_scripts.specs.Rows.{of_one, of_two, of_words, ending_of, run_of, request_of};
ghost use Rattle.cli_scripts.specs.Views.{script_request_view, Begin};
ghost use Rattle.cli_scripts.specs.Words.{whole_of, count_of};

use crate::fault::LineFault;
use crate::params::params_of;
use crate::request::ScriptRequest;
use crate::words::{bytes_of, count_of, whole_of};
use messages::{Count, Mode};
use std::alloc::Global;

/// A request.
pub(crate) fn request_of(alloc: Global, words: &[&str]) -> Result<ScriptRequest, LineFault>
    ensures { Gives script_request_view result (request_of (map (λ w. w.now) words.now)) }
{
    let Some((name, after)) = words.split_first() else {
        return Err(LineFault::Unreadable);
    };
    named(alloc, name, after)
}

/// A request by its first word.
fn named(alloc: Global, name: &str, after: &[&str]) -> Result<ScriptRequest, LineFault>
    ensures { Gives script_request_view result
        (request_of (name.now ∷ map (λ w. w.now) after.now)) }
{
    if name == "begin" {
        return begin_of(alloc, after);
    }
    if name == "run" {
        return run_of(alloc, after);
    }
    of_words(name, after)
}

/// A request of one word or two.
fn of_words(name: &str, after: &[&str]) -> Result<ScriptRequest, LineFault>
    ensures { Gives script_request_view result (of_words name.now (map (λ w. w.now) after.now)) }
{
    match after {
        [] => of_one(name),
        [word] => of_two(name, word),
        _ => Err(LineFault::Unreadable),
    }
}

/// A request of one word.
fn of_one(name: &str) -> Result<ScriptRequest, LineFault>
    ensures { Gives script_request_view result (of_one name.now) }
{
    if name == "hello" {
        return Ok(ScriptRequest::Hello);
    }
    if name == "logon" {
        return Ok(ScriptRequest::Logon);
    }
    if name == "logoff" {
        return Ok(ScriptRequest::Logoff);
    }
    if name == "goodbye" {
        return Ok(ScriptRequest::Goodbye);
    }
    if name == "reset" {
        return Ok(ScriptRequest::Reset);
    }
    if name == "commit" {
        return Ok(ScriptRequest::Commit);
    }
    if name == "rollback" {
        return Ok(ScriptRequest::Rollback);
    }
    Err(LineFault::Unreadable)
}

/// A request of two words.
fn of_two(name: &str, word: &str) -> Result<ScriptRequest, LineFault>
    ensures { Gives script_request_view result (of_two name.now word.now) }
{
    if name == "logon" {
        return match word {
            "bad" => Ok(ScriptRequest::LogonBad),
            _ => Err(LineFault::Unreadable),
        };
    }
    if name == "discard" {
        return Ok(ScriptRequest::Discard(count_in(word)?));
    }
    if name == "pull" {
        return Ok(ScriptRequest::Pull(count_in(word)?));
    }
    Err(LineFault::Unreadable)
}

fn count_in(word: &str) -> Result<Count, LineFault>
    ensures { Gives (λ n. n) result (option_map count_of (whole_of word.now)) }
{
    match whole_of(word) {
        Some(number) => Ok(count_of(number)),
        None => Err(LineFault::Unreadable),
    }
}

/// What ends a `begin` and a `run`: `r` or nothing, and then `token T` or nothing.
fn ending_of(alloc: Global, words: &[&str]) -> Result<(Mode, Option<String>), LineFault>
    ensures { Gives (λ e. (e.0, token_view e.1)) result (ending_of (map (λ w. w.now) words.now)) }
{
    match words {
        [] => Ok((Mode::Write, None)),
        [word] => mode_alone(word),
        [word, token] => token_alone(alloc, word, token),
        [mode, word, token] => mode_and_token(alloc, mode, word, token),
        _ => Err(LineFault::Unreadable),
    }
}

/// `r`.
fn mode_alone(word: &str) -> Result<(Mode, Option<String>), LineFault>
    ensures { Gives (λ e. (e.0, token_view e.1)) result (ending_of (word.now ∷ [])) }
{
    if word != "r" {
        return Err(LineFault::Unreadable);
    }
    Ok((Mode::Read, None))
}

/// `token T`.
fn token_alone(alloc: Global, word: &str, token: &str) -> Result<(Mode, Option<String>), LineFault>
    ensures { Gives (λ e. (e.0, token_view e.1)) result (ending_of (word.now ∷ token.now ∷ [])) }
{
    if word != "token" {
        return Err(LineFault::Unreadable);
    }
    let Ok(token) = String::from_str(alloc, token) else {
        return Err(LineFault::Memory);
    };
    Ok((Mode::Write, Some(token)))
}

/// `r token T`.
fn mode_and_token(
    alloc: Global,
    mode: &str,
    word: &str,
    token: &str,
) -> Result<(Mode, Option<String>), LineFault>
    ensures { Gives (λ e. (e.0, token_view e.1)) result
        (ending_of (mode.now ∷ word.now ∷ token.now ∷ [])) }
{
    if mode != "r" || word != "token" {
        return Err(LineFault::Unreadable);
    }
    let Ok(token) = String::from_str(alloc, token) else {
        return Err(LineFault::Memory);
    };
    Ok((Mode::Read, Some(token)))
}

/// A begin, by the words behind it.
fn begin_of(alloc: Global, words: &[&str]) -> Result<ScriptRequest, LineFault>
    ensures { Gives script_request_view result
        (option_map (λ e. Begin e.0 e.1) (ending_of (map (λ w. w.now) words.now))) }
{
    let (mode, token) = ending_of(alloc, words)?;
    Ok(ScriptRequest::Begin { mode, token })
}

/// A run, by the words behind it.
fn run_of(alloc: Global, words: &[&str]) -> Result<ScriptRequest, LineFault>
    ensures { Gives script_request_view result (run_of (map (λ w. w.now) words.now)) }
{
    let Some((text, after)) = words.split_first() else {
        return Err(LineFault::Unreadable);
    };
    let Some((hex, rest)) = after.split_first() else {
        return Err(LineFault::Unreadable);
    };
    run_with(alloc, text, hex, rest)
}

/// A run of a text with the parameters that the hex spells, and what ends it.
fn run_with(alloc: Global, text: &str, hex: &str, rest: &[&str]) -> Result<ScriptRequest, LineFault>
    ensures { Gives script_request_view result
        (run_of (text.now ∷ hex.now ∷ map (λ w. w.now) rest.now)) }
{
    let (mode, token) = ending_of(alloc, rest)?;
    let bytes = bytes_of(alloc, hex)?;
    let params = params_of(alloc, &bytes)?;
    let Ok(text) = String::from_str(alloc, text) else {
        return Err(LineFault::Memory);
    };
    Ok(ScriptRequest::Run {
        text,
        params,
        mode,
        token,
    })
}
