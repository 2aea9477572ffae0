//! What a ledger has of a token and of writes.
ghost use Rattle.std.specs.Prelude.{◌≡◌, ◌&&◌, ◌+◌, ◌^◌, ◌<◌, Some, length, if◌then◌else◌};
ghost use Rattle.std.specs.Str.{bytes_eq};
ghost use Rattle.structures_cells.specs.Same.{same_tree};
ghost use Rattle.engine.specs.Tokens.{found_in, is_token, known_by, same_writes};
ghost use Rattle.engine.specs.Views.{entries_view, token_view, write_view, writes_view};

use crate::{Commit, Entry, Write};
use structures::same;

/// What `commit` answers where an entry of the ledger has the token, by the first of them. It looks through the whole ledger.
pub(crate) fn known_in(ledger: &[Entry], token: &str, writes: &[Write]) -> Option<Commit>
    ensures { result
        ≡ known_by (found_in (Some token.now) (writes_view writes.now) (entries_view ledger.now)) }
{
    for (i, entry) in ledger.iter().enumerate() {
        if has_token(&entry.token, token) {
            return Some(known_at(i, &entry.writes, writes));
        }
    }
    None
}

pub(crate) fn has_token(held: &Option<String>, token: &str) -> bool
    ensures { result ≡ is_token token.now (token_view held.now) }
{
    match held {
        None => false,
        Some(held) => held.as_str() == token,
    }
}

/// What `commit` answers where the entry at this place, from 0, has the token.
pub(crate) fn known_at(place: usize, held: &[Write], writes: &[Write]) -> Commit
    requires { place + 1 < 2 ^ 64 }
    ensures { result ≡ (if same_writes (writes_view held.now) (writes_view writes.now)
        then Commit.Repeat (place + 1) else Commit.Clash) }
{
    if same_writes(held, writes) {
        Commit::Repeat(place as u64 + 1)
    } else {
        Commit::Clash
    }
}

/// Whether the two have the same keys and cells, in this order. Takes no memory.
#[tactic(auto, using(crate::proofs::Once::same_apart))]
fn same_writes(some: &[Write], others: &[Write]) -> bool
    ensures { result ≡ same_writes (writes_view some.now) (writes_view others.now) }
{
    if some.len() != others.len() {
        return false;
    }
    same_each(some, others)
}

fn same_each(some: &[Write], others: &[Write]) -> bool
    requires { length some.now ≡ length others.now }
    ensures { result ≡ same_writes (writes_view some.now) (writes_view others.now) }
{
    for (i, write) in some.iter().enumerate() {
        if !same_write(write, &others[i]) {
            return false;
        }
    }
    true
}

fn same_write(one: &Write, other: &Write) -> bool
    ensures { result ≡ (bytes_eq (write_view one.now).0 (write_view other.now).0
        && same_tree (write_view one.now).1 (write_view other.now).1) }
{
    one.key == other.key && same(&one.value, &other.value)
}
