//! What a server answers to the bytes of a text.
ghost use Rattle.std.specs.Prelude.{◌≡◌, ◌↔◌, ◌%◌, string_bytes, IsTrue, IsErr, IsOk, IfOk};
ghost use Rattle.std.specs.List.{AllPass};
ghost use Rattle.hex.specs.Hex.{decode_of, is_hex_digit};
ghost use Rattle.cli_commands.specs.Answers.{Answers};
ghost use Rattle.cli_commands.specs.Hexadecimal.{AnswersHex};
ghost use Rattle.cli_commands.specs.declared.answers.AnswerFault.TheVariants as fault;

use engine::{FixedTable, OneUser};
use server_blocking::{End, Responded, respond};
use std::alloc::{AllocError, Global};
use thiserror::Error;

/// What was put out, in lower case hex, and how the session stands then.
#[derive(Debug, Drop)]
pub struct Answered {
    pub out: String,
    pub last: End,
}

/// Why a text has no answer.
#[derive(Clone, Copy, Debug, PartialEq, Eq, Error)]
pub enum AnswerFault {
    /// No memory was left.
    #[error("I3")]
    Memory,
    /// The text isn't hex of whole bytes.
    #[error("I4")]
    BadHex,
}

/// What a server over an empty table, with the user `user` by `pass`, puts out for the bytes that the text spells in hex, of either case,
/// and how its session stands then. I4 exactly if the text isn't hex of whole bytes; I3 for want of memory.
pub fn answer(alloc: Global, text: &str) -> Result<Answered, AnswerFault>
    // The text is refused exactly if it isn't hex of whole bytes ..
    ensures hex { (result ≡ Err fault.BadHex) ↔ IsErr (decode_of text.now) }

    // .. and else, if memory suffices, the answer is that of its bytes.
    ensures answer { IfOk result (λ a. AnswersHex text.now (string_bytes a.out) a.last) }
{
    if !is_hex(text) {
        return Err(AnswerFault::BadHex);
    }
    let Ok(bytes) = hex::decode(alloc, text) else {
        return Err(AnswerFault::Memory);
    };
    let Ok(responded) = answer_bytes(alloc, bytes.as_slice()) else {
        return Err(AnswerFault::Memory);
    };
    let Ok(out) = hex::encode(alloc, responded.out.as_slice()) else {
        return Err(AnswerFault::Memory);
    };
    Ok(Answered {
        out,
        last: responded.last,
    })
}

/// Whether the text is hex of whole bytes.
#[tactic(auto, using(crate::proofs::Digits::digits_decode, crate::proofs::Digits::decoded_digits))]
pub(crate) fn is_hex(text: &str) -> bool
    ensures { IsTrue result ↔ IsOk (decode_of text.now) }
{
    text.len() % 2 == 0 && are_digits(text.as_bytes())
}

fn are_digits(bytes: &[u8]) -> bool
    ensures { IsTrue result ↔ AllPass is_hex_digit bytes.now }
{
    bytes.iter().all(|b| is_digit(*b))
}

fn is_digit(byte: u8) -> bool
    ensures { result ≡ is_hex_digit byte }
{
    matches!(byte, b'0'..=b'9' | b'A'..=b'F' | b'a'..=b'f')
}

/// What a server over an empty table, with one user, answers to these bytes.
fn answer_bytes(alloc: Global, bytes: &[u8]) -> Result<Responded, AllocError>
    ensures { IfOk result (λ a. Answers bytes.now a.out.items a.last) }
{
    let gate = OneUser::new(alloc, "user", "pass")?;
    let Ok(responded) = respond(alloc, FixedTable::new(alloc), gate, bytes) else {
        return Err(AllocError);
    };
    Ok(responded)
}
