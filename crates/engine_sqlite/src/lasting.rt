//! An engine that answers, over a database that keeps its ledger.
ghost use Rattle.std.specs.Prelude.{◌≡◌, ◌≢◌, ◌++◌, [], ◌∷◌, List, ℕ, Ok, Err, false, length, IsTrue, IfOk, IfErr, OnOk, OnErr};
ghost use Rattle.engine.specs.Tokens.{Free, IsCounted, added_by, commit_by, found_in, known_by, is_token};
ghost use Rattle.engine.specs.Views.{EntryView, entry_of, token_view, writes_view};
ghost use Rattle.engine_sqlite.specs.Kept.{Endures, ledger_of};
ghost use Rattle.engine_sqlite.specs.Ledger.{HoldsLedger, LeavesLedger};
ghost use Rattle.sqlite.specs.Held.{state};
ghost use Rattle.engine_sqlite.specs.Shown.{IsLeft, IsOpenedFrom};
ghost use Rattle.engine_sqlite.specs.Table.{ledger_schema, no_schema};
ghost use Rattle.sqlite.specs.State.{HasCleanDisk, Survives};

use crate::adding::{add_to_both, row_key};
use crate::codec::bytes_of;
use crate::fault::OpenFault;
use crate::opening::take_ledger;
use engine::{Answer, Commit, Engine, EngineFault, Entry, EntryId, Mode, NoMemory, Write};
use sqlite::{Alter, Connection};
use std::alloc::Global;
use std::marker::Model;
use structures::Cell;

/// An engine whose ledger is kept by a database. Queries are answered by the engine inside. What a commit adds is in the database before it is answered.
///
/// If the database fails as it is to commit, nobody knows whether it has the entry: the engine stops. It then shows the ledger without that entry, answers
/// what is known of a token, and else want of memory to every commit and query. The next `open` of the database settles it.
#[derive(Drop)]
pub struct Lasting<E: Engine + Drop, S: Alter + Drop> {
    inner: E,
    conn: Connection<S>,
    /// How many entries the database has.
    kept: usize,
    is_stopped: bool,
    opening: i64,
    alloc: Global,
}

impl<E: Engine + Drop, S: Alter + Drop> Model for Lasting<E, S> {
    ghost use Rattle.engine_sqlite.specs.Kept.{Kept, kept_code, IsTied};

    ghost Value = { Kept E S };

    ghost coded = { kept_code E.code S.code };

    ghost view = { λ l. record { inner = l.inner; conn = l.conn; count = l.kept; is_stopped = l.is_stopped; opening = l.opening } };

    ghost invariant = { λ l. IsTied E.entries S.Store
        (record { inner = l.inner; conn = l.conn; count = l.kept; is_stopped = l.is_stopped; opening = l.opening }) };
}

impl<E: Engine + Drop, S: Alter + Drop> Lasting<E, S> {
    /// The engine `empty`, with the entries of a database: its table of entries has a row for each, numbered from 1, and no other. A database with nothing in
    /// it gets that table. One with other tables is refused, and one with a row that is no entry, by the row's number: a hole in the numbers, a number or a
    /// connection out of range, bytes that spell no writes, a token that stood before. What is refused isn't changed, and comes back.
    pub fn open(
        alloc: Global,
        empty: E,
        mut conn: Connection<S>,
    ) -> Result<Lasting<E, S>, (OpenFault, Connection<S>)>
        requires { E.entries empty ≡ [] }
        ensures runs { IfOk result (λ l. l.is_stopped ≡ false) }
        ensures opened { IfOk result (λ l. HasCleanDisk (state S.Store l.conn)
            → IsOpenedFrom S.Store conn l.conn (ledger_of E.entries l) l.opening) }
        // The database has the entries that the engine shows, and so has what any crash leaves of it.
        ensures endures { IfOk result (Endures E.entries S.Store) }
        // A ledger that was committed, as by an engine before it, is the one that is shown.
        ensures finds { (es : List EntryView) → HoldsLedger (state S.Store conn).committed.trees es
            → IfOk result (λ l. HasCleanDisk (state S.Store l.conn) → ledger_of E.entries l ≡ es) }
        ensures other { conn.in_transaction ≡ false → conn.schema ≢ no_schema → conn.schema ≢ ledger_schema
            → result ≡ Err (OpenFault.OtherTables, conn) }
        ensures refused { conn.schema ≢ no_schema → IfErr result (λ e. IsLeft (state S.Store conn) (state S.Store e.1)) }
    {
        let mut inner = empty;
        match take_ledger(alloc, &mut inner, &mut conn) {
            Ok(opening) => {
                let kept = inner.ledger().len();
                Ok(Lasting {
                    inner,
                    conn,
                    kept,
                    is_stopped: false,
                    opening,
                    alloc,
                })
            }
            Err(fault) => Err((fault, conn)),
        }
    }

    /// How many entries the database is known to have. Takes no memory.
    pub fn kept(&self) -> usize
        ensures count { result ≡ self.now.count }
        // The database has these entries.
        ensures endures { Endures E.entries S.Store self.now }
    {
        self.kept
    }

    /// The number of this opening of the database, from 1: one more than the last that added an entry. Takes no memory.
    pub fn opening(&self) -> i64
        ensures { result ≡ self.now.opening }
    {
        self.opening
    }

    /// Whether the engine has stopped. Takes no memory.
    pub fn is_stopped(&self) -> bool
        ensures value { result ≡ self.now.is_stopped }
        // Unless it has, whatever crash comes leaves the ledger that is shown.
        ensures left { result ≡ false → LeavesLedger (state S.Store self.now.conn) (ledger_of E.entries self.now) }
    {
        self.is_stopped
    }

    /// What `commit` does as an engine, and what it leaves on the disk. It is on the disk before it is told. A want of memory is told too where the database
    /// refuses the entry or fails, if a number of the entry is 2^63 or more, and if a value has no bytes.
    pub fn add(
        &mut self,
        id: EntryId,
        token: Option<String>,
        writes: Vec<Write>,
    ) -> Result<Commit, NoMemory>
        ensures answered { IfOk result (λ c. c ≡ commit_by (length (ledger_of E.entries self.old))
            (found_in (token_view token) (writes_view writes.items) (ledger_of E.entries self.old))) }
        ensures adds { OnOk result (ledger_of E.entries self.new ≡ ledger_of E.entries self.old
            ++ added_by (entry_of id token writes)
            (found_in (token_view token) (writes_view writes.items) (ledger_of E.entries self.old))) }
        ensures counted { IfOk result IsCounted }
        ensures unchanged { OnErr result (ledger_of E.entries self.new ≡ ledger_of E.entries self.old) }
        ensures wanted { OnErr result
            (found_in (token_view token) (writes_view writes.items) (ledger_of E.entries self.old) ≡ Free) }
        ensures writes { IfErr result
            (λ e. writes_view e.writes.items ≡ writes_view writes.items) }
        ensures token { IfErr result (λ e. token_view e.token ≡ token_view token) }
        // An engine that adds an entry hasn't stopped, and what had stopped stays so.
        ensures runs { (n : ℕ) → result ≡ Ok (Commit.Added n) → self.new.is_stopped ≡ false }
        ensures stays { IsTrue self.old.is_stopped → IsTrue self.new.is_stopped }
        // The database has the ledger that is shown. Unless the engine has stopped, any crash leaves it; ..
        ensures endures { Endures E.entries S.Store self.new }
        ensures left { self.new.is_stopped ≡ false
            → LeavesLedger (state S.Store self.new.conn) (ledger_of E.entries self.new) }
        // .. and a crash inside of the call leaves what one before it did, or the ledger with the entry at its end.
        ensures survives { Survives (state S.Store self.old.conn) (state S.Store self.new.conn)
            (λ trees. HoldsLedger trees (ledger_of E.entries self.old ++ entry_of id token writes ∷ [])) }
    {
        if let Some(known) = self.known_of(&token, &writes) {
            return Ok(known);
        }
        if self.is_stopped {
            return Err(NoMemory { token, writes });
        }
        let Ok(bytes) = bytes_of(self.alloc, &writes) else {
            return Err(NoMemory { token, writes });
        };
        let Some(key) = row_key(self.kept, self.opening, id) else {
            return Err(NoMemory { token, writes });
        };
        match add_to_both(
            self.alloc,
            &mut self.inner,
            &mut self.conn,
            key,
            id,
            token,
            writes,
            &bytes,
        ) {
            Ok(len) => {
                self.kept += 1;
                Ok(Commit::Added(len))
            }
            Err(unadded) => {
                self.is_stopped = unadded.is_ahead;
                Err(unadded.refused)
            }
        }
    }

    fn known_of(&self, token: &Option<String>, writes: &[Write]) -> Option<Commit>
        ensures { result
            ≡ known_by (found_in (token_view token.now) (writes_view writes.now) (ledger_of E.entries self.now)) }
    {
        match token {
            None => None,
            Some(token) => self.known(token.as_str(), writes),
        }
    }
}

fn has_token(held: &Option<String>, token: &str) -> bool
    ensures { result ≡ is_token token.now (token_view held.now) }
{
    match held {
        None => false,
        Some(held) => held.as_str() == token,
    }
}

impl<E: Engine + Drop, S: Alter + Drop> Engine for Lasting<E, S> {
    ghost entries = { ledger_of E.entries };

    ghost answer = { E.answer };

    ghost answers_fit = { E.answers_fit };

    ghost answers_are_of_cells = { E.answers_are_of_cells };

    fn run(
        &self,
        own: &[Write],
        text: &str,
        params: &[(String, Cell)],
        mode: Mode,
    ) -> Result<Answer, EngineFault> {
        if self.is_stopped {
            return Err(EngineFault::Memory);
        }
        self.inner.run(own, text, params, mode)
    }

    fn commit(
        &mut self,
        id: EntryId,
        token: Option<String>,
        writes: Vec<Write>,
    ) -> Result<Commit, NoMemory> {
        self.add(id, token, writes)
    }

    fn known(&self, token: &str, writes: &[Write]) -> Option<Commit> {
        if !self.is_stopped {
            return self.inner.known(token, writes);
        }
        // The engine inside has one entry more, which isn't known to be kept.
        let last = &self.inner.ledger()[self.kept];
        if has_token(&last.token, token) {
            return None;
        }
        self.inner.known(token, writes)
    }

    fn ledger(&self) -> &[Entry] {
        &self.inner.ledger()[..self.kept]
    }
}
