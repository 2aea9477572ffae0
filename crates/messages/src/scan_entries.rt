//! The named entries of a dictionary, the last field of a message, straight from its source. As a client of ours writes them they are
//! read where they stand; other dictionaries are read as cells.
ghost use Rattle.std.specs.Prelude.{◌≡◌, ◌∷◌, ◌++◌, [], Some, Ok, IfOk, string_bytes};
ghost use Rattle.messages.specs.Prelude.{canon, dict, entries_of, shape, mode_pairs, mode_front, contents_of_number, count_tree, entries_seen, SpellsRows, SpellsTransaction, SpellsNamed, token_view};

use crate::entries::{Transaction, count_in, is_token, transaction_of};
use crate::read_parts::{Cells, FIELD_DEPTH, Scanned, after_prefix, end};
use crate::request::{Count, Mode};
use packstream::source::Source;
use std::alloc::Global;
use structures_decoder::{Unscanned, dict_from, int_from, text_from};
use wire::Version;

/// The count that a number of rows is.
fn count_of(number: i64) -> Result<Count, Unscanned>
    ensures { IfOk result (λ c. contents_of_number number ≡ Ok (count_tree c ∷ [])) }
{
    if number == -1 {
        return Ok(Count::All);
    }
    if number < 1 {
        return Err(Unscanned);
    }
    Ok(Count::Of(number))
}

fn rows_alone<S: Source>(source: S) -> Result<Count, Unscanned>
    ensures { IfOk result (λ c. SpellsRows c (S.left source)) }
{
    source.has_bytes();
    let rest = after_prefix(source, b"\xA1\x81n")?;
    let (number, rest) = int_from(rest)?;
    end(rest)?;
    Ok(count_of(number)?)
}

/// The entries of a transaction without a token.
#[tactic(auto, unfolding(packstream::specs::Canon::head))]
fn mode_alone<S: Source>(source: S) -> Result<Mode, Unscanned>
    ensures { IfOk result (λ m. S.left source ≡ canon (dict (entries_of (mode_pairs m)))) }
{
    if let Ok(rest) = after_prefix(source, b"\xA0") {
        end(rest)?;
        return Ok(Mode::Write);
    }
    let rest = after_prefix(source, b"\xA1\x84mode\x81r")?;
    end(rest)?;
    Ok(Mode::Read)
}

/// The mode before the entry of a token.
fn mode_first<S: Source>(source: S) -> Scanned<(Mode, S)>
    ensures { IfOk result (λ x. S.left source ≡ mode_front x.0 ++ S.left x.1) }
{
    if let Ok(rest) = after_prefix(source, b"\xA1") {
        return Ok((Mode::Write, rest));
    }
    let rest = after_prefix(source, b"\xA2\x84mode\x81r")?;
    Ok((Mode::Read, rest))
}

/// The mode and the token.
fn mode_and_token<S: Source>(alloc: Global, source: S) -> Scanned<(Mode, String)>
    ensures { IfOk result (λ x. SpellsTransaction x.0 (Some (string_bytes x.1)) (S.left source)) }
{
    source.has_bytes();
    let (mode, rest) = mode_first(source)?;
    let rest = after_prefix(rest, b"\x8Btx_metadata\xA1\x85token")?;
    let (token, after) = text_from(&rest)?;
    end(after)?;
    if !is_token(token) {
        return Err(Unscanned);
    }
    let copy = String::from_str(alloc, token)?;
    Ok((mode, copy))
}

/// The entries of a dictionary, read as cells.
#[tactic(auto, using(crate::proofs::Scanned::extra_scanned))]
pub(crate) fn cells_of_extra<S: Source>(
    alloc: Global,
    version: Version,
    source: S,
) -> Scanned<Cells>
    ensures { IfOk result (λ x. SpellsNamed (entries_seen shape x.items) (S.left source)) }
{
    let (pairs, rest) = dict_from(alloc, version, source, FIELD_DEPTH)?;
    end(rest)?;
    Ok(pairs)
}

/// How many rows are asked for, of the last query, which may be named.
pub(crate) fn rows_in<S: Source>(
    alloc: Global,
    version: Version,
    source: S,
) -> Result<Count, Unscanned>
    ensures { IfOk result (λ c. SpellsRows c (S.left source)) }
{
    if let Ok(count) = rows_alone(source) {
        return Ok(count);
    }
    let pairs = cells_of_extra(alloc, version, source)?;
    Ok(count_in(&pairs)?)
}

/// The mode of a transaction, and its token if it has one.
#[tactic(auto, using(crate::proofs::Scanned::named_extra, crate::proofs::Scanned::mode_scanned))]
pub(crate) fn transaction_in<S: Source>(
    alloc: Global,
    version: Version,
    source: S,
) -> Scanned<Transaction>
    ensures { IfOk result (λ x. SpellsTransaction x.0 (token_view x.1) (S.left source)) }
{
    if let Ok(mode) = mode_alone(source) {
        return Ok((mode, None));
    }
    if let Ok((mode, token)) = mode_and_token(alloc, source) {
        return Ok((mode, Some(token)));
    }
    let pairs = cells_of_extra(alloc, version, source)?;
    Ok(transaction_of(&pairs)?)
}
