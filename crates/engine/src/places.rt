//! The places of tokens.
ghost use Rattle.std.specs.Prelude.{◌≡◌, ℕ, List, length, Some, None, MatchOption, if◌then◌else◌, string_bytes, IfOk, OnErr};
ghost use Rattle.std.specs.BTreeMap.{get_by_text};
ghost use Rattle.std.specs.Str.{bytes_eq};
ghost use Rattle.engine.specs.Places.{fingerprint, has_token_at, place_in, where_none, AreBehindFirsts, IsReady, IsSame, IsWith};
ghost use Rattle.engine.specs.Views.{EntryView, entries_view, pairs_view, writes_view};

use crate::lookup::has_token;
use crate::next::take_next;
use crate::{Entry, Write};
use indexmap::IndexMap;
use std::alloc::{AllocError, Global};
use std::collections::{BTreeMap, btree_map};
use std::hash::{FoldHasher, Hasher};
use structures::Cell;

/// The places of a ledger's tokens, from 0. Strangers can choose tokens of one fingerprint: the first of them is found by it, and all others
/// by their texts, in an ordered map too.
#[derive(Debug, Drop)]
pub(crate) struct Places {
    /// By its fingerprint, the first token that has it.
    firsts: BTreeMap<u64, usize>,
    /// By its text, each token whose fingerprint another has.
    others: BTreeMap<String, usize>,
}

impl Places {
    /// No places. Takes no memory.
    pub fn new(alloc: Global) -> Places
        ensures none { (es : List EntryView) (t : List ℕ) → place_in result es t ≡ None }
        ensures behind_firsts { AreBehindFirsts result }
    {
        Places {
            firsts: BTreeMap::new(alloc),
            others: BTreeMap::new(alloc),
        }
    }

    /// The place of a token's entry in the ledger. Takes no memory.
    pub fn find(&self, ledger: &[Entry], token: &str) -> Option<usize>
        ensures { result ≡ place_in self.now (entries_view ledger.now) token.now }
    {
        let Some(place) = self.firsts.get(&fingerprint(token)) else {
            return None;
        };
        if has_token_at(ledger, *place, token) {
            return Some(*place);
        }
        self.others.get(token).copied()
    }

    /// The place of a token's entry in the ledger. If none has the token, takes what the next entry takes, and keeps that one's place; if memory is refused,
    /// entries, places and pairs are as they were.
    ///
    /// It goes one way through the map of fingerprints, by its entry. `entry` fails only at a key that isn't there, so an occupied one can't want memory. A vacant one
    /// has its room already: its insert comes last, and can't fail.
    pub fn find_or_keep(
        &mut self,
        alloc: Global,
        ledger: &mut Vec<Entry>,
        pairs: &mut IndexMap<String, Cell>,
        token: &String,
        writes: &[Write],
    ) -> Result<Option<usize>, AllocError>
        ensures entries { ledger.new.items ≡ ledger.old.items }
        ensures found { IfOk result
            (λ found. found
            ≡ place_in self.old (entries_view ledger.old.items) (string_bytes token.now)) }
        ensures wanted { OnErr result
            (place_in self.old (entries_view ledger.old.items) (string_bytes token.now) ≡ None) }
        ensures ready { IfOk result
            (λ found. MatchOption found (IsReady ledger.new pairs.old pairs.new (writes_view writes.now))
            (λ _. pairs_view pairs.new ≡ pairs_view pairs.old)) }
        ensures kept { IfOk result
            (λ found. MatchOption found
            (IsWith self.old self.new (Some (string_bytes token.now)) (length ledger.old.items))
            (λ _. IsSame self.old self.new)) }
        ensures pairs_unchanged { OnErr result (pairs_view pairs.new ≡ pairs_view pairs.old) }
        ensures unchanged { OnErr result (IsSame self.old self.new) }
    {
        match self.firsts.entry(fingerprint(token.as_str())) {
            Err(_) => Err(AllocError),
            Ok(btree_map::Entry::Occupied(first)) => {
                let place = *first.get();
                if has_token_at(ledger.as_slice(), place, token.as_str()) {
                    return Ok(Some(place));
                }
                find_or_keep_other(&mut self.others, alloc, ledger, pairs, token, writes)
            }
            Ok(btree_map::Entry::Vacant(first)) => {
                take_next(alloc, ledger, pairs, writes)?;
                first.insert(ledger.len());
                Ok(None)
            }
        }
    }
}

/// As `find_or_keep`, of a token whose fingerprint another has. A place by its text wants a copy of it, so it is looked for first: if it is there, no memory is taken. Its
/// place is given up again if the next entry finds none.
#[tactic(auto, using(std::proofs::lemmas::Map::Text::text_keys))]
fn find_or_keep_other(
    others: &mut BTreeMap<String, usize>,
    alloc: Global,
    ledger: &mut Vec<Entry>,
    pairs: &mut IndexMap<String, Cell>,
    token: &String,
    writes: &[Write],
) -> Result<Option<usize>, AllocError>
    ensures entries { ledger.new.items ≡ ledger.old.items }
    ensures found { IfOk result
        (λ found. found ≡ get_by_text others.old (string_bytes token.now)) }
    ensures wanted { OnErr result (get_by_text others.old (string_bytes token.now) ≡ None) }
    ensures ready { IfOk result
        (λ found. MatchOption found (IsReady ledger.new pairs.old pairs.new (writes_view writes.now))
        (λ _. pairs_view pairs.new ≡ pairs_view pairs.old)) }
    ensures kept { IfOk result (λ found. (q : List ℕ) → get_by_text others.new q
        ≡ where_none found
        (if bytes_eq (string_bytes token.now) q then Some (length ledger.old.items)
        else get_by_text others.old q) (get_by_text others.old q)) }
    ensures pairs_unchanged { OnErr result (pairs_view pairs.new ≡ pairs_view pairs.old) }
    ensures unchanged { OnErr result
        ((q : List ℕ) → get_by_text others.new q ≡ get_by_text others.old q) }
{
    if let Some(place) = others.get(token.as_str()) {
        return Ok(Some(*place));
    }
    let copy = token.clone()?;
    let Ok(_) = others.insert(copy, ledger.len()) else {
        return Err(AllocError);
    };
    if take_next(alloc, ledger, pairs, writes).is_err() {
        others.remove(token.as_str());
        return Err(AllocError);
    }
    Ok(None)
}

fn has_token_at(ledger: &[Entry], place: usize, token: &str) -> bool
    ensures { result ≡ has_token_at (entries_view ledger.now) place token.now }
{
    match ledger.get(place) {
        None => false,
        Some(entry) => has_token(&entry.token, token),
    }
}

/// A number by which a token is looked up. Unequal tokens can have one.
#[tactic(auto, unfolding(crate::specs::Places::fingerprint))]
fn fingerprint(token: &str) -> u64
    ensures { result ≡ fingerprint token.now }
{
    let mut hasher = FoldHasher::default();
    hasher.write(token.as_bytes());
    hasher.finish()
}
