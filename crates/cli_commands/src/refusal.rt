//! What is said to words that are no command.
ghost use Rattle.std.specs.Prelude.{◌≡◌, map, option_map, IfOk};
ghost use Rattle.std.specs.List.{flat_map};
ghost use Rattle.cli_commands.specs.Asked.{wrong_of};
ghost use Rattle.cli_commands.specs.Refusals.{asks_help, edits, guess, guesses, line_of, missing_line, refusal_text, shown_word, wanted_rest, wanted_words, wrong_line};

use crate::arguments::{Wanted, Wrong};
use crate::help::help_text;
use cli_output::escape;
use std::alloc::{AllocError, Global};
use strsim::levenshtein;

/// The names of the commands, in the order of the help.
const NAMES: [&str; 7] = [
    "answer", "check", "replay", "loop", "serve", "vectors", "shell",
];

/// How many edits away a name may be that is told as a guess.
const NEAR: usize = 2;

/// What is said to words that are no command: which of them is wrong and what is wanted there, on a line, and then the help; to words that
/// ask for help, the help alone.
pub(crate) fn refusal_text(alloc: Global, wrong: Wrong<'_>) -> Result<Vec<u8>, AllocError>
    ensures { IfOk result (λ t. t.items ≡ refusal_text (wrong_of wrong.entry)) }
{
    let mut text = line_of(alloc, wrong.number, wrong.wanted, wrong.word)?;
    text.extend_from_slice(help_text().as_bytes())?;
    Ok(text)
}

fn line_of(
    alloc: Global,
    number: usize,
    wanted: Wanted,
    word: Option<&str>,
) -> Result<Vec<u8>, AllocError>
    ensures { IfOk result (λ t. t.items
        ≡ line_of number wanted (option_map (λ w. w.now) word.entry)) }
{
    match word {
        None => missing_line(alloc, number, wanted),
        Some(word) => wrong_line(alloc, number, wanted, word),
    }
}

/// `error: word 3 is missing, wanted is COUNT, a number from 0 to 1000000` on a line.
fn missing_line(alloc: Global, number: usize, wanted: Wanted) -> Result<Vec<u8>, AllocError>
    ensures { IfOk result (λ t. t.items ≡ missing_line number wanted) }
{
    let mut line = Vec::new(alloc);
    if number == 1 {
        return Ok(line);
    }
    let front = format!(in alloc; "error: word {number} is missing, wanted is ")?;
    line.extend_from_slice(front.as_bytes())?;
    line.extend_from_slice(wanted_words(wanted).as_bytes())?;
    line.extend_from_slice(b"\n")?;
    Ok(line)
}

/// "error: word 2 is `99999`, wanted is PORT, a number from 1 to 65535" on a line. The word is a stranger's.
fn wrong_line(
    alloc: Global,
    number: usize,
    wanted: Wanted,
    word: &str,
) -> Result<Vec<u8>, AllocError>
    ensures { IfOk result (λ t. t.items ≡ wrong_line number wanted word.now) }
{
    if asks_help(number, word) {
        return Ok(Vec::new(alloc));
    }
    let mut line = shown_word(alloc, number, word)?;
    let rest = wanted_rest(alloc, wanted, word)?;
    line.extend_from_slice(rest.as_slice())?;
    Ok(line)
}

/// "error: word 2 is `99999".
fn shown_word(alloc: Global, number: usize, word: &str) -> Result<Vec<u8>, AllocError>
    ensures { IfOk result (λ t. t.items ≡ shown_word number word.now) }
{
    let mut line = Vec::new(alloc);
    let front = format!(in alloc; "error: word {number} is `")?;
    let shown = escape(alloc, word)?;
    line.extend_from_slice(front.as_bytes())?;
    line.extend_from_slice(shown.as_bytes())?;
    Ok(line)
}

/// "`, wanted is PORT, a number from 1 to 65535" and the line's end.
fn wanted_rest(alloc: Global, wanted: Wanted, word: &str) -> Result<Vec<u8>, AllocError>
    ensures { IfOk result (λ t. t.items ≡ wanted_rest wanted word.now) }
{
    let mut rest = Vec::new(alloc);
    let guesses = guesses(alloc, wanted, word)?;
    rest.extend_from_slice(b"`, wanted is ")?;
    rest.extend_from_slice(wanted_words(wanted).as_bytes())?;
    rest.extend_from_slice(guesses.as_slice())?;
    rest.extend_from_slice(b"\n")?;
    Ok(rest)
}

/// Whether a word asks for help: `--help` and `-h`, and `help` in a command's place.
fn asks_help(number: usize, word: &str) -> bool
    ensures { result ≡ asks_help number word.now }
{
    word == "--help" || word == "-h" || (number == 1 && word == "help")
}

/// What is wanted of a word, as it is told.
fn wanted_words(wanted: Wanted) -> &'static str
    ensures { result.now ≡ wanted_words wanted }
{
    match wanted {
        Wanted::Command => "a command",
        Wanted::Hex => "HEX, bytes as pairs of hex digits",
        Wanted::Version => "VERSION, which is 4.4, 5.0 or 5.1",
        Wanted::File => "FILE, a path that begins with no hyphen",
        Wanted::Host => "HOST, a name or an address that begins with no hyphen",
        Wanted::Port => "PORT, a number from 1 to 65535",
        Wanted::Count => "COUNT, a number from 0 to 1000000",
        Wanted::NoMore => "no further word",
    }
}

/// `, perhaps NAME` for each command that is near to a word which stands in a command's place.
fn guesses(alloc: Global, wanted: Wanted, word: &str) -> Result<Vec<u8>, AllocError>
    ensures { IfOk result (λ t. t.items ≡ guesses wanted word.now) }
{
    match wanted {
        Wanted::Command => guesses_of(alloc, word, &NAMES),
        _ => Ok(Vec::new(alloc)),
    }
}

fn guesses_of(alloc: Global, word: &str, names: &[&str]) -> Result<Vec<u8>, AllocError>
    ensures { IfOk result (λ t. t.items
        ≡ flat_map (guess word.now) (map (λ n. n.now) names.now)) }
{
    let mut text = Vec::new(alloc);
    for name in names {
        let guess = guess(alloc, word, name)?;
        text.extend_from_slice(guess.as_slice())?;
    }
    Ok(text)
}

fn guess(alloc: Global, word: &str, name: &str) -> Result<Vec<u8>, AllocError>
    ensures { IfOk result (λ t. t.items ≡ guess word.now name.now) }
{
    let mut text = Vec::new(alloc);
    let edits = edits(alloc, word, name)?;
    if edits > NEAR {
        return Ok(text);
    }
    text.extend_from_slice(b", perhaps ")?;
    text.extend_from_slice(name.as_bytes())?;
    Ok(text)
}

/// How many characters are put into the word, taken out of it or changed until it is the name.
#[tactic(auto, unfolding(crate::specs::Refusals::edits))]
fn edits(alloc: Global, word: &str, name: &str) -> Result<usize, AllocError>
    ensures { IfOk result (λ n. n ≡ edits word.now name.now) }
{
    levenshtein(alloc, word, name)
}
