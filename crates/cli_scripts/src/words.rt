//! The words of a line, and what a word alone says.
ghost use Rattle.std.specs.Prelude.{◌≡◌, map, IfOk};
ghost use Rattle.std.specs.List.{list_any};
ghost use Rattle.std.specs.Str.{all_ascii_digits};
ghost use Rattle.cli_scripts.specs.Answers.{Gives};
ghost use Rattle.cli_scripts.specs.Words.{parts_of, is_empty, words_of, is_decimal, number_of, whole_of, without_minus, count_of, bytes_of};

use crate::fault::LineFault;
use hex::FromHexError;
use messages::Count;
use std::alloc::{AllocError, Global};

/// The words of a line, parted by one blank each.
pub(crate) fn words_of<'a>(alloc: Global, line: &'a [u8]) -> Result<Vec<&'a str>, LineFault>
    ensures { Gives (λ v. map (λ w. w.now) v.items) result (words_of line.entry.now) }
{
    let Ok(text) = std::str::from_utf8(line) else {
        return Err(LineFault::Unreadable);
    };
    let Ok(words) = parted(alloc, text) else {
        return Err(LineFault::Memory);
    };
    if has_empty(words.as_slice()) {
        return Err(LineFault::Unreadable);
    }
    Ok(words)
}

fn parted<'a>(alloc: Global, text: &'a str) -> Result<Vec<&'a str>, AllocError>
    ensures { IfOk result (λ v. map (λ w. w.now) v.items ≡ parts_of text.entry.now) }
{
    text.split(' ').collect(alloc)
}

fn has_empty(words: &[&str]) -> bool
    ensures { result ≡ list_any is_empty (map (λ w. w.now) words.now) }
{
    for word in words {
        if word.is_empty() {
            return true;
        }
    }
    false
}

/// The number that a word of decimal digits says: of 64 bits, without a sign; None of any other word. Takes no memory.
pub fn number_of(word: &str) -> Option<u64>
    ensures { result ≡ number_of word.now }
{
    if !is_decimal(word.as_bytes()) {
        return None;
    }
    word.parse::<u64>().ok()
}

/// A number of 64 bits of which a minus alone may be the sign.
pub(crate) fn whole_of(word: &str) -> Option<i64>
    ensures { result ≡ whole_of word.now }
{
    if !is_decimal(without_minus(word.as_bytes())) {
        return None;
    }
    word.parse::<i64>().ok()
}

/// What follows the minus, if there is one.
fn without_minus(word: &[u8]) -> &[u8]
    ensures { result.now ≡ without_minus word.entry.now }
{
    match word.split_first() {
        Some((b'-', rest)) => rest,
        _ => word,
    }
}

/// Decimal digits, one or more, and nothing else.
fn is_decimal(word: &[u8]) -> bool
    ensures { result ≡ is_decimal word.now }
{
    !word.is_empty() && are_digits(word)
}

fn are_digits(word: &[u8]) -> bool
    ensures { result ≡ all_ascii_digits word.now }
{
    for byte in word {
        if !byte.is_ascii_digit() {
            return false;
        }
    }
    true
}

/// A count of rows: -1 is all.
pub(crate) fn count_of(number: i64) -> Count
    ensures { result ≡ count_of number }
{
    if number == -1 {
        Count::All
    } else {
        Count::Of(number)
    }
}

/// The bytes that hex of either case spells, one or more.
pub(crate) fn bytes_of(alloc: Global, word: &str) -> Result<Vec<u8>, LineFault>
    ensures { Gives (λ v. v.items) result (bytes_of word.now) }
{
    if word.is_empty() {
        return Err(LineFault::Unreadable);
    }
    match hex::decode(alloc, word) {
        Ok(bytes) => Ok(bytes),
        Err(FromHexError::OutOfMemory) => Err(LineFault::Memory),
        Err(_) => Err(LineFault::Unreadable),
    }
}
