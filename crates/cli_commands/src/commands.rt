//! The commands of the program, over streams.
ghost use Rattle.std.specs.Prelude.{◌≡◌, ◌≤◌, ◌⊎◌, ℕ, List, [], ◌∷◌, ◌++◌, codes, string_bytes, true, false, map, IfOk};
ghost use Rattle.std.specs.Io.KnownBytes.{Appends, Consumes};
ghost use Rattle.streams.specs.Fronts.{AppendsFront};
ghost use Rattle.cli_commands.specs.Asked.{ask_of, asked_words, wrong_of};
ghost use Rattle.cli_commands.specs.Saying.{IsPut, Passage, SaysCommand, SaysElsewhere, SaysNoCommand, SaysReplay, SaysTo, SaysVectors, is_replay, reads, vector_line};
ghost use Rattle.cli_commands.specs.Commands.{Says, IsBadHex, SaysAnswer, SaysCheck, SaysChecked, SaysRefused};

use crate::answers::{AnswerFault, answer};
use crate::arguments::Wrong;
use crate::checks::{Checked, check_text};
use crate::codes::{cell_code, pack_code};
use crate::end::end_text;
use crate::refusal::refusal_text;
use crate::vectors::{passes, vectors};
use crate::words::{CommandLine, asked};
use cli_replay::replay;
use std::alloc::{AllocError, Global};
use streams::{Sink, Source, write_all};
use wire::Version;

/// A refused value, a failed vector, or a stream that failed.
const REFUSED: u8 = 1;

/// Words or text that can't be read.
const UNREADABLE: u8 = 2;

/// Want of memory.
const NO_MEMORY: u8 = 3;

/// What a command says: on standard output, on standard error, and by its exit status.
#[derive(Debug, Drop)]
pub struct Said {
    pub out: String,
    pub err: Vec<u8>,
    pub status: u8,
}

/// Does the command that the words, after the program's name, are: `answer HEX`, `check VERSION HEX`, `replay FILE`, of which the input
/// stands for the file, or `vectors`. To words that are no command with just its arguments it says which of them is wrong and what is wanted
/// there, and then the help; to words that ask for help, the help alone; and to the commands that `main` does, that they need a socket.
/// The exit status is 0; 1 for a refused value, a failed vector and a stream that failed (`fault I1` for the input, `fault I2` for
/// the output); 2 for words that are none of these four commands, for bad hex (`fault I4`), and for a script with a line that can't be
/// read; 3 for want of memory (`fault I3`).
pub fn command<S: Source, O: Sink, E: Sink>(
    alloc: Global,
    words: &[String],
    input: &mut S,
    out: &mut O,
    err: &mut E,
) -> u8
    ensures status { result ≤ 3 }
    ensures failed { O.has_failed out.old ≡ true → O.has_failed out.new ≡ true }
    // Nothing is read but by a replay, which reads a beginning of what the input held.
    ensures input { is_replay (asked_words (map string_bytes words.now)) ≡ false
        → input.new ≡ input.old }
    ensures read { (front : List ℕ) × Consumes (S.left input.old) (S.left input.new) front }
    // Want of memory puts nothing out, and says so.
    ensures memory { result ≡ 3 → (O.taken out.new ≡ O.taken out.old)
        × (E.has_failed err.new ≡ false → Appends (E.taken err.old) (E.taken err.new) (codes "fault I3" ++ 10 ∷ [])) }
    // Else what the words ask for is said, and put on the streams.
    ensures says { let output : Passage =
        record {
          before = O.taken out.old;
          after = O.taken out.new;
          had_failed = O.has_failed out.old;
          has_failed = O.has_failed out.new;
        } in
        let errors : Passage = record {
          before = E.taken err.old;
          after = E.taken err.new;
          had_failed = E.has_failed err.old;
          has_failed = E.has_failed err.new;
        } in
        let source : Passage = record {
          before = S.left input.old;
          after = S.left input.new;
          had_failed = S.has_failed input.old;
          has_failed = S.has_failed input.new;
        } in
        (result ≡ 3) ⊎ ((s : Said) × SaysTo (asked_words (map string_bytes words.now)) source s × IsPut s output errors result) }
{
    match say(alloc, words, input) {
        Ok(said) => put_said(&said, out, err),
        Err(_) => put_fault(b"fault I3\n", NO_MEMORY, err),
    }
}

/// Writes what a command says.
fn put_said<O: Sink, E: Sink>(said: &Said, out: &mut O, err: &mut E) -> u8
    ensures status { (result ≡ said.now.status)
        ⊎ ((result ≡ 1) × ((O.has_failed out.new ≡ true) ⊎ (E.has_failed err.new ≡ true))) }
    ensures out { O.has_failed out.new ≡ false
        → Appends (O.taken out.old) (O.taken out.new) (string_bytes said.now.out) }
    ensures err { O.has_failed out.new ≡ false → E.has_failed err.new ≡ false
        → Appends (E.taken err.old) (E.taken err.new) (said.now.err.items) }
    ensures stays { O.has_failed out.old ≡ true → O.has_failed out.new ≡ true }
    ensures out_fails { O.has_failed out.old ≡ false → O.has_failed out.new ≡ true → result ≡ 1 }
    ensures err_fails { E.has_failed err.old ≡ false → E.has_failed err.new ≡ true → result ≡ 1 }
    ensures front { AppendsFront (O.taken out.old) (O.taken out.new) (string_bytes said.now.out) }
    ensures fault { O.has_failed out.old ≡ false → O.has_failed out.new ≡ true
        → E.has_failed err.new ≡ false
        → Appends (E.taken err.old) (E.taken err.new) (codes "fault I2" ++ 10 ∷ []) }
{
    if write_all(out, said.out.as_bytes()).is_err() {
        return put_fault(b"fault I2\n", REFUSED, err);
    }
    if write_all(err, said.err.as_slice()).is_err() {
        return REFUSED;
    }
    said.status
}

/// Writes a fault, and answers the status.
fn put_fault<E: Sink>(text: &[u8], status: u8, err: &mut E) -> u8
    ensures status { result ≡ status }
    ensures text { E.has_failed err.new ≡ false
        → Appends (E.taken err.old) (E.taken err.new) text.now }
    ensures stays { E.has_failed err.old ≡ true → E.has_failed err.new ≡ true }
{
    let _ = write_all(err, text);
    status
}

/// What the words ask for is said.
fn say<S: Source>(alloc: Global, words: &[String], input: &mut S) -> Result<Said, AllocError>
    ensures says { let source : Passage =
        record {
          before = S.left input.old;
          after = S.left input.new;
          had_failed = S.has_failed input.old;
          has_failed = S.has_failed input.new;
        } in
        IfOk result (SaysTo (asked_words (map string_bytes words.now)) source) }
    ensures status { IfOk result (λ s. s.status ≤ 2) }
    ensures input { is_replay (asked_words (map string_bytes words.now)) ≡ false
        → input.new ≡ input.old }
    ensures read { (front : List ℕ) × Consumes (S.left input.old) (S.left input.new) front }
{
    match asked(words) {
        Ok(command) => say_command(alloc, command, input),
        Err(wrong) => say_no_command(alloc, wrong),
    }
}

/// What a command says.
fn say_command<S: Source>(
    alloc: Global,
    command: CommandLine<'_>,
    input: &mut S,
) -> Result<Said, AllocError>
    ensures says { let source : Passage =
        record {
          before = S.left input.old;
          after = S.left input.new;
          had_failed = S.has_failed input.old;
          has_failed = S.has_failed input.new;
        } in
        IfOk result (SaysCommand (ask_of command.entry) source) }
    ensures status { IfOk result (λ s. s.status ≤ 2) }
    ensures input { reads (ask_of command.entry) ≡ false → input.new ≡ input.old }
    ensures read { (front : List ℕ) × Consumes (S.left input.old) (S.left input.new) front }
{
    match command {
        CommandLine::Answer { hex } => say_answer(alloc, hex),
        CommandLine::Check { version, hex } => say_check(alloc, version, hex),
        CommandLine::Replay { .. } => say_replay(alloc, input),
        CommandLine::Vectors => say_vectors(alloc),
        CommandLine::Loop { .. } => say_elsewhere(alloc),
        CommandLine::Serve { .. } => say_elsewhere(alloc),
        CommandLine::Shell { .. } => say_elsewhere(alloc),
    }
}

/// That a command speaks to a socket, and not to these streams.
fn say_elsewhere(alloc: Global) -> Result<Said, AllocError>
    ensures says { IfOk result (λ s. SaysElsewhere s) }
    ensures status { IfOk result (λ s. s.status ≤ 2) }
{
    Ok(Said {
        out: String::new(alloc),
        err: Vec::from_slice(alloc, b"error: this command needs a socket\n")?,
        status: UNREADABLE,
    })
}

/// Which word is wrong, and the help.
fn say_no_command(alloc: Global, wrong: Wrong<'_>) -> Result<Said, AllocError>
    ensures says { IfOk result (λ s. SaysNoCommand (wrong_of wrong.entry) s) }
    ensures status { IfOk result (λ s. s.status ≤ 2) }
{
    Ok(Said {
        out: String::new(alloc),
        err: refusal_text(alloc, wrong)?,
        status: UNREADABLE,
    })
}

fn say_bad_hex(alloc: Global) -> Result<Said, AllocError>
    ensures { IfOk result (λ s. IsBadHex s) }
{
    Ok(Said {
        out: String::new(alloc),
        err: Vec::from_slice(alloc, b"fault I4\n")?,
        status: UNREADABLE,
    })
}

fn say_out(alloc: Global, out: String, status: u8) -> Said
    ensures { Says (string_bytes out) [] status result }
{
    Said {
        out,
        err: Vec::new(alloc),
        status,
    }
}

/// What is put out, on a line, and how the session stands, on the next.
fn say_answer(alloc: Global, text: &str) -> Result<Said, AllocError>
    ensures says { IfOk result (λ s. SaysAnswer text.now s) }
    ensures status { IfOk result (λ s. s.status ≤ 2) }
{
    let answered = match answer(alloc, text) {
        Ok(answered) => answered,
        Err(AnswerFault::BadHex) => return say_bad_hex(alloc),
        Err(AnswerFault::Memory) => return Err(AllocError),
    };
    let mut out = answered.out;
    out.push_str("\n")?;
    out.push_str(end_text(answered.last))?;
    out.push_str("\n")?;
    Ok(say_out(alloc, out, 0))
}

/// `ok HEX`, or `refused P5 at 4`, or `refused S2 at 0`.
fn say_check(alloc: Global, version: Version, text: &str) -> Result<Said, AllocError>
    ensures says { IfOk result (λ s. SaysCheck version text.now s) }
    ensures status { IfOk result (λ s. s.status ≤ 2) }
{
    match check_text(alloc, version, text) {
        Ok(checked) => say_checked(alloc, &checked),
        Err(AnswerFault::BadHex) => say_bad_hex(alloc),
        Err(AnswerFault::Memory) => Err(AllocError),
    }
}

fn say_checked(alloc: Global, checked: &Checked) -> Result<Said, AllocError>
    ensures says { IfOk result (λ s. SaysChecked checked.now s) }
    ensures status { IfOk result (λ s. s.status ≤ 1) }
{
    match checked {
        Checked::Fine(hex) => {
            let mut out = String::from_str(alloc, "ok ")?;
            out.push_str(hex.as_str())?;
            out.push_str("\n")?;
            Ok(say_out(alloc, out, 0))
        }
        Checked::Refused(reason, place) => say_refused(alloc, pack_code(*reason), *place),
        Checked::Unfit(reason, number) => say_refused(alloc, cell_code(*reason), *number),
    }
}

/// A refusal by its code, and its place.
fn say_refused(alloc: Global, code: &str, place: usize) -> Result<Said, AllocError>
    ensures { IfOk result (λ s. SaysRefused code.now place s) }
{
    let out = format!(in alloc; "refused {code} at {place}\n")?;
    Ok(say_out(alloc, out, REFUSED))
}

/// What is said of the script that the input holds.
fn say_replay<S: Source>(alloc: Global, input: &mut S) -> Result<Said, AllocError>
    ensures says { let source : Passage =
        record {
          before = S.left input.old;
          after = S.left input.new;
          had_failed = S.has_failed input.old;
          has_failed = S.has_failed input.new;
        } in
        IfOk result (SaysReplay source) }
    ensures status { IfOk result (λ s. s.status ≤ 2) }
    ensures read { (front : List ℕ) × Consumes (S.left input.old) (S.left input.new) front }
{
    let said = replay(alloc, input)?;
    Ok(Said {
        out: said.out,
        err: said.err.into_bytes(),
        status: said.status,
    })
}

/// `pass V1` or `fail V1`, and so on.
fn say_vectors(alloc: Global) -> Result<Said, AllocError>
    ensures says { IfOk result (λ s. SaysVectors s) }
    ensures status { IfOk result (λ s. s.status ≤ 2) }
{
    let vectors = vectors();
    let mut out = String::new(alloc);
    let mut all_pass = true;
    for at in 0..vectors.len() {
        let passed = passes(alloc, vectors[at])?;
        let text = vector_text(alloc, at + 1, passed)?;
        out.push_str(text.as_str())?;
        all_pass &= passed;
    }
    let status = if all_pass { 0 } else { REFUSED };
    Ok(say_out(alloc, out, status))
}

/// The line of a vector, by its number from 1.
fn vector_text(alloc: Global, number: usize, passed: bool) -> Result<String, AllocError>
    ensures { IfOk result (λ t. string_bytes t ≡ vector_line number passed) }
{
    if passed {
        let text = format!(in alloc; "pass V{number}\n")?;
        return Ok(text);
    }
    let text = format!(in alloc; "fail V{number}\n")?;
    Ok(text)
}
