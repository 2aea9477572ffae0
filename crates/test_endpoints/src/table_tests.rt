//! What the fixed table and the gate of one user answer.

use crate::table_rows::Plain::*;
use crate::table_rows::Step::*;
use crate::table_rows::Told::*;
use crate::table_rows::{ASKED, CALLER, FIRST, Named, OTHER, Plain, Step, Told};
use engine::Commit::*;
use engine::laws::{commit_and_get, commit_and_run};
use engine::*;
use std::alloc::{AllocError, Global};
use std::test::*;
use structures::Cell;

fn cell(alloc: Global, value: &Plain) -> Result<Cell, AllocError> {
    match value {
        Int(n) => Ok(Cell::Int(*n)),
        Text(text) => Ok(Cell::Text(String::from_str(alloc, text)?)),
        // No parameter is a path.
        Path => Ok(Cell::Null),
    }
}

fn params(alloc: Global, named: Named) -> Result<Vec<(String, Cell)>, AllocError> {
    let mut params = Vec::new(alloc);
    for (name, value) in named {
        params.push((String::from_str(alloc, name)?, cell(alloc, value)?))?;
    }
    Ok(params)
}

fn writes(alloc: Global, named: Named) -> Result<Vec<Write>, AllocError> {
    let mut writes = Vec::new(alloc);
    for (key, value) in params(alloc, named)? {
        writes.push(Write { key, value })?;
    }
    Ok(writes)
}

fn text(alloc: Global, text: &Option<&str>) -> Result<Option<String>, AllocError> {
    match text {
        None => Ok(None),
        Some(text) => Ok(Some(String::from_str(alloc, text)?)),
    }
}

/// Nodes 1 and 2, relationship 7 and two indices of 1.
fn is_path(cell: &Cell) -> bool {
    let Cell::Path(path) = cell else {
        return false;
    };
    match (path.nodes.as_slice(), path.relationships.as_slice()) {
        ([first, second], [walked]) => {
            let ids = [first.id, second.id, walked.id];
            ids == [1, 2, 7] && path.indices.as_slice() == [1, 1].as_slice()
        }
        _ => false,
    }
}

fn is_cell(cell: &Cell, wanted: &Plain) -> bool {
    match (cell, wanted) {
        (Cell::Int(held), Int(n)) => held == n,
        (Cell::Text(held), Text(text)) => held.as_str() == *text,
        (_, Path) => is_path(cell),
        _ => false,
    }
}

/// Whether these are the names, in order.
fn lends(names: &Names, wanted: &[&str]) -> bool {
    for place in 0..names.count() {
        if wanted.get(place) != Some(&names.get(place)) {
            return false;
        }
    }
    names.count() == wanted.len()
}

/// Whether the answer reads one column of this name and these values.
fn reads(answer: &Answer, name: &str, values: &[Plain]) -> bool {
    if !lends(&answer.fields, &[name]) {
        return false;
    }
    if answer.rows.width != 1 || answer.rows.count != values.len() {
        return false;
    }
    for (cell, value) in answer.rows.cells.as_slice().iter().zip(values) {
        if !is_cell(cell, value) {
            return false;
        }
    }
    answer.write.is_none() && answer.mode == Mode::Read
}

/// Whether the answer has nothing but a write, of which a copy has 1 for the key `a`.
fn puts_one(answer: &Answer) -> bool {
    let Some(write) = &answer.write else {
        return false;
    };
    let Ok(copy) = write.clone() else {
        return false;
    };
    let is_one = copy.key.as_str() == "a" && is_cell(&copy.value, &Int(1));
    is_one && answer.fields.count() == 0 && answer.rows.count == 0 && answer.mode == Mode::Write
}

fn is_told(answer: &Result<Answer, EngineFault>, told: &Told) -> bool {
    match (answer, told) {
        (Ok(answer), Column(name, values)) => reads(answer, name, values),
        (Ok(answer), Rows(count)) => answer.rows.count == *count,
        (Ok(answer), PutsOne) => puts_one(answer),
        (Err(fault), Refused(wanted)) => fault == wanted,
        _ => false,
    }
}

fn has_pairs(table: &FixedTable, wanted: Named) -> bool {
    let pairs = table.pairs();
    for (place, (key, value)) in wanted.iter().enumerate() {
        match pairs.get_index(place) {
            Some((held, cell)) if held.as_str() == *key && is_cell(cell, value) => {}
            _ => return false,
        }
    }
    pairs.len() == wanted.len()
}

/// Whether a commit of values of keys tells this.
fn commits(
    alloc: Global,
    table: &mut FixedTable,
    id: EntryId,
    token: &Option<&str>,
    named: Named,
    wanted: Commit,
) -> bool {
    let (Ok(token), Ok(writes)) = (text(alloc, token), writes(alloc, named)) else {
        return false;
    };
    matches!(table.commit(id, token, writes), Ok(told) if told == wanted)
}

/// Whether a query in a transaction of these writes is answered so.
fn asks(
    alloc: Global,
    table: &FixedTable,
    own: Named,
    query: &str,
    named: Named,
    mode: Mode,
    told: &Told,
) -> bool {
    let (Ok(own), Ok(params)) = (writes(alloc, own), params(alloc, named)) else {
        return false;
    };
    is_told(&table.run(&own, query, &params, mode), told)
}

/// Whether GET behind a commit of these values is answered so.
fn commits_and_gets(
    alloc: Global,
    table: &mut FixedTable,
    own: Named,
    named: Named,
    told: &Told,
) -> bool {
    let (Ok(own), Ok(params)) = (writes(alloc, own), params(alloc, named)) else {
        return false;
    };
    match commit_and_get(table, CALLER, None, own, &params) {
        Ok(answer) => is_told(&answer, told),
        Err(_) => false,
    }
}

/// Whether KEYS behind a commit of nothing is answered so.
fn commits_and_runs(alloc: Global, table: &mut FixedTable, told: &Told) -> bool {
    let none = Vec::new(alloc);
    match commit_and_run(table, CALLER, None, none, "KEYS", &[], Mode::Read) {
        Ok(answer) => is_told(&answer, told),
        Err(_) => false,
    }
}

/// Whether this is known of a token and values of keys.
fn knows(
    alloc: Global,
    table: &FixedTable,
    token: &str,
    named: Named,
    wanted: Option<Commit>,
) -> bool {
    match writes(alloc, named) {
        Ok(writes) => table.known(token, &writes) == wanted,
        Err(_) => false,
    }
}

/// Whether a call of the table tells what it should.
fn is_so(alloc: Global, table: &mut FixedTable, step: &Step) -> bool {
    match step {
        Commits(id, token, named, wanted) => commits(alloc, table, *id, token, named, *wanted),
        Knows(token, named, wanted) => knows(alloc, table, token, named, *wanted),
        Entries(count) => table.ledger().len() == *count,
        Pairs(named) => has_pairs(table, named),
        Asks(own, query, named, mode, told) => asks(alloc, table, own, query, named, *mode, told),
        CommitsAndGets(own, named, told) => commits_and_gets(alloc, table, own, named, told),
        CommitsAndRuns(told) => commits_and_runs(alloc, table, told),
    }
}

#[test]
fn a_table_answers(rt: HostRuntime) {
    for (name, before, steps) in ASKED {
        let mut table = FixedTable::new(rt.alloc());
        for (place, step) in before.iter().chain(*steps).enumerate() {
            assert!(rt; is_so(rt.alloc(), &mut table, step), "{name}: step {place}");
        }
    }
}

/// Commits without writes, each second one under a token of its own; and then under the first of these tokens.
#[test]
fn many_commits(rt: HostRuntime) -> Result<(), Fail> {
    let alloc = rt.alloc();
    let mut table = FixedTable::new(alloc);
    for n in 0..2_000 {
        let token = if n % 2 == 0 {
            Some(format!(in alloc; "{n}")?)
        } else {
            None
        };
        let told = table.commit(FIRST, token, Vec::new(alloc));
        assert!(rt; matches!(told, Ok(told) if told == Added(n + 1)), "{n}");
    }
    let again = table.commit(OTHER, Some(format!(in alloc; "0")?), Vec::new(alloc));
    assert!(rt; matches!(again, Ok(told) if told == Repeat(1)));
    Ok(())
}

#[test]
fn too_many_keys(rt: HostRuntime) -> Result<(), Fail> {
    let alloc = rt.alloc();
    let mut own = Vec::new(alloc);
    for n in 0..1025 {
        own.push(Write {
            key: format!(in alloc; "{n}")?,
            value: Cell::Null,
        })?;
    }
    let answer = FixedTable::new(alloc).run(&own, "KEYS", &[], Mode::Read);
    assert!(rt; is_told(&answer, &Refused(EngineFault::TooManyRows)));
    Ok(())
}

#[test]
fn names_of_columns(rt: HostRuntime) -> Result<(), Fail> {
    let alloc = rt.alloc();
    let mut own = Vec::new(alloc);
    for name in ["a", "b"] {
        own.push(String::from_str(alloc, name)?)?;
    }
    assert!(rt; lends(&Names::Own(own), &["a", "b"]));
    let answer = Answer {
        fields: Names::Lent(&["name", "age"]),
        rows: engine::Rows::none(alloc),
        write: None,
        mode: Mode::Read,
    };
    assert!(rt; lends(&answer.fields, &["name", "age"]));
    assert!(rt; lends(&Names::none(), &[]));
    Ok(())
}

/// An answer of plain lists has their names and their cells, in order.
#[test]
fn answer_of_plain_lists(rt: HostRuntime) -> Result<(), Fail> {
    let alloc = rt.alloc();
    let mut fields = Vec::new(alloc);
    let mut rows = Vec::new(alloc);
    for (name, first) in [("name", 1), ("age", 3)] {
        fields.push(String::from_str(alloc, name)?)?;
        rows.push(vec![in alloc; Cell::Int(first), Cell::Int(first + 1)]?)?;
    }
    let answer = Answer::from_lists(alloc, fields, rows, None, Mode::Read)?;
    assert!(rt; lends(&answer.fields, &["name", "age"]));
    assert!(rt; answer.rows.width == 2 && answer.rows.count == 2);
    let cells = answer.rows.cells.as_slice();
    assert!(rt; cells.len() == 4);
    for (place, number) in [1, 2, 3, 4].iter().enumerate() {
        assert!(rt;
            matches!(&cells[place], Cell::Int(n) if n == number),
            "{place}"
        );
    }
    Ok(())
}

/// What is given to a gate of `user` and `pass`, and whether it is accepted.
const GIVEN: &[(&str, &str, bool)] = &[
    ("user", "pass", true),
    ("user", "bad", false),
    ("other", "pass", false),
];

/// The gate prints its principal, and no credentials.
#[test]
fn one_user(rt: HostRuntime) -> Result<(), Fail> {
    let gate = OneUser::new(rt.alloc(), "user", "pass")?;
    for (principal, credentials, accepted) in GIVEN {
        assert!(rt;
            gate.check(principal, credentials) == *accepted,
            "{principal}: {credentials}"
        );
    }
    let printed = format!(in rt.alloc(); "{gate:?}")?;
    assert!(rt; printed.as_str() == "OneUser { principal: \"user\", .. }");
    Ok(())
}
