//! What the next entry of a ledger takes.
ghost use Rattle.std.specs.Prelude.{◌≡◌, OnOk, OnErr};
ghost use Rattle.engine.specs.Places.{IsReady};
ghost use Rattle.engine.specs.Views.{pairs_view, writes_view};

use crate::pairs::take_writes;
use crate::{Entry, LEDGER_BOUND, Write};
use indexmap::IndexMap;
use std::alloc::{AllocError, Global};
use structures::Cell;

/// Ordinals of entries stay below 2^63, so the ledger does too.
const MAX_ENTRIES: u64 = LEDGER_BOUND - 1;

/// Makes room for one more entry of the ledger, and takes copies of its writes into the pairs. If memory is refused, or the ledger would be too long,
/// entries and pairs are as they were.
pub(crate) fn take_next(
    alloc: Global,
    ledger: &mut Vec<Entry>,
    pairs: &mut IndexMap<String, Cell>,
    writes: &[Write],
) -> Result<(), AllocError>
    ensures entries { ledger.new.items ≡ ledger.old.items }
    ensures ready { OnOk result
        (IsReady ledger.new pairs.old pairs.new (writes_view writes.now)) }
    ensures pairs_unchanged { OnErr result (pairs_view pairs.new ≡ pairs_view pairs.old) }
{
    if ledger.len() as u64 >= MAX_ENTRIES {
        return Err(AllocError);
    }
    ledger.reserve(1)?;
    take_writes(alloc, pairs, writes)
}
