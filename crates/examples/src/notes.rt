//! An engine that keeps notes.
ghost use Rattle.std.specs.Prelude.{◌≡◌, []};
ghost use Rattle.engine.specs.Laws.{Runs};
ghost use Rattle.engine.specs.Tokens.{found_in, known_by};
ghost use Rattle.engine.specs.Views.{parameters_view, token_view, writes_view};
ghost use Rattle.examples.specs.Notes.{note_of, notes_answer, notes_are_of_cells, notes_fit};

use engine::{
    Answer, Commit, Engine, EngineFault, Entry, EntryId, Mode, Names, NoMemory, Rows, Write,
};
use std::alloc::Global;
use std::marker::Model;
use structures::Cell;

/// The ledger stays below 2^63 entries.
const MAX_ENTRIES: u64 = (1 << 63) - 1;

/// An engine over a ledger in memory. Each text that may write asks for a note of its first parameter: the answer has no rows, and
/// writes the parameter's value under its name. Its faults are G3 in mode Read, and G2 without a parameter.
#[derive(Drop)]
pub struct Notes {
    ledger: Vec<Entry>,
    alloc: Global,
}

impl Model for Notes {
    ghost use Rattle.std.specs.Prelude.{List};
    ghost use Rattle.std.specs.Coded.{coded_list};
    ghost use Rattle.engine.specs.Code.{entry_code};
    ghost use Rattle.engine.specs.Tokens.{TokensOnce};
    ghost use Rattle.engine.specs.Views.{EntryView, entries_view};

    ghost Value = { List EntryView };

    ghost coded = { coded_list entry_code };

    ghost view = { λ n. entries_view n.ledger.items };

    // No two entries have one token.
    ghost invariant = { λ n. TokensOnce (entries_view n.ledger.items) };
}

impl Notes {
    /// An engine over an empty ledger. Takes no memory.
    pub fn new(alloc: Global) -> Notes
        ensures { result ≡ [] }
    {
        Notes {
            ledger: Vec::new(alloc),
            alloc,
        }
    }

    /// What `commit` answers where an entry has the token.
    fn known_of(&self, token: &Option<String>, writes: &[Write]) -> Option<Commit>
        ensures { result
            ≡ known_by (found_in (token_view token.now) (writes_view writes.now) self.now) }
    {
        match token {
            None => None,
            Some(token) => self.known(token.as_str(), writes),
        }
    }
}

impl Engine for Notes {
    ghost entries = { λ n. n };

    ghost answer = { notes_answer };

    ghost answers_fit = { notes_fit };

    ghost answers_are_of_cells = { notes_are_of_cells };

    fn run(
        &self,
        _own: &[Write],
        _text: &str,
        params: &[(String, Cell)],
        mode: Mode,
    ) -> Result<Answer, EngineFault> {
        match mode {
            Mode::Read => Err(EngineFault::ReadOnly),
            Mode::Write => note(self.alloc, params),
        }
    }

    fn commit(
        &mut self,
        id: EntryId,
        token: Option<String>,
        writes: Vec<Write>,
    ) -> Result<Commit, NoMemory> {
        if let Some(known) = self.known_of(&token, &writes) {
            return Ok(known);
        }
        if self.ledger.len() as u64 >= MAX_ENTRIES {
            return Err(NoMemory { token, writes });
        }
        if let Err(refused) = self.ledger.push(Entry { id, token, writes }) {
            let Entry { token, writes, .. } = refused.value;
            return Err(NoMemory { token, writes });
        }
        Ok(Commit::Added(self.ledger.len() as u64))
    }

    fn ledger(&self) -> &[Entry] {
        self.ledger.as_slice()
    }
}

/// The note of the first parameter.
fn note(alloc: Global, params: &[(String, Cell)]) -> Result<Answer, EngineFault>
    ensures { Runs result (note_of (parameters_view params.now)) }
{
    let Some((name, value)) = params.first() else {
        return Err(EngineFault::Parameter);
    };
    let key = name.clone()?;
    let value = value.clone()?;
    Ok(Answer {
        fields: Names::none(),
        rows: Rows::none(alloc),
        write: Some(Write { key, value }),
        mode: Mode::Write,
    })
}
