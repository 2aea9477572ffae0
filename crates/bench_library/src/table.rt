//! The fixed table behind C calls. Each makes a table of its own, by puts over some keys in turn, each its own commit; a
//! program that times a part takes off the time of a call without it. Each answers 0 at want of memory.
use crate::requests::{key_of, key_parameter, put_parameters};
use crate::tokens::Tokens;
use engine::{Answer, Engine, EntryId, FixedTable, Mode, Write};
use std::alloc::{AllocError, Global};
use structures::Cell;

/// A table after so many puts, over so many keys in turn, and answers the ledger's length.
#[unsafe(no_mangle)]
pub extern "C" fn bench_table_puts(alloc: Global, keys: u32, puts: u32) -> u64 {
    length_after(alloc, keys, puts, Tokens::Without)
}

/// As `bench_table_puts`, each commit under a token of its own.
#[unsafe(no_mangle)]
pub extern "C" fn bench_table_tokens(alloc: Global, keys: u32, puts: u32) -> u64 {
    length_after(alloc, keys, puts, Tokens::OfTheirOwn)
}

/// Gets the value of a key so many times, and answers how many rows were read.
#[unsafe(no_mangle)]
pub extern "C" fn bench_table_gets(
    alloc: Global,
    keys: u32,
    puts: u32,
    key: u32,
    gets: u32,
) -> u64 {
    rows_of_gets(alloc, keys, puts, key, gets).unwrap_or(0)
}

/// Reads all keys so many times, and answers how many rows were read.
#[unsafe(no_mangle)]
pub extern "C" fn bench_table_keys(alloc: Global, keys: u32, puts: u32, times: u32) -> u64 {
    match table_of(alloc, keys, puts, Tokens::Without) {
        Ok(table) => rows_read(&table, "KEYS", &[], times),
        Err(_) => 0,
    }
}

fn rows_of_gets(
    alloc: Global,
    keys: u32,
    puts: u32,
    key: u32,
    gets: u32,
) -> Result<u64, AllocError> {
    let table = table_of(alloc, keys, puts, Tokens::Without)?;
    let params = key_parameter(alloc, key)?;
    Ok(rows_read(&table, "GET", &params, gets))
}

/// How many rows so many runs of a query read.
fn rows_read(table: &FixedTable, text: &str, params: &[(String, Cell)], times: u32) -> u64 {
    let mut rows = 0u64;
    for _ in 0..times {
        if let Ok(answer) = table.run(&[], text, params, Mode::Read) {
            rows = rows.saturating_add(answer.rows.count as u64);
        }
    }
    rows
}

fn length_after(alloc: Global, keys: u32, puts: u32, tokens: Tokens) -> u64 {
    match table_of(alloc, keys, puts, tokens) {
        Ok(table) => table.ledger().len() as u64,
        Err(_) => 0,
    }
}

/// A table after so many puts, over so many keys in turn, with these tokens.
fn table_of(alloc: Global, keys: u32, puts: u32, tokens: Tokens) -> Result<FixedTable, AllocError> {
    let mut table = FixedTable::new(alloc);
    for ordinal in 0..puts {
        let token = match tokens {
            Tokens::Without => None,
            Tokens::OfTheirOwn => Some(key_of(alloc, ordinal)?),
        };
        put(alloc, &mut table, ordinal % keys.max(1), ordinal, token)?;
    }
    Ok(table)
}

/// Asks for a put of the ordinal as the key's value, and commits it.
fn put(
    alloc: Global,
    table: &mut FixedTable,
    key: u32,
    ordinal: u32,
    token: Option<String>,
) -> Result<(), AllocError> {
    let params = put_parameters(alloc, key, ordinal)?;
    let writes = writes_of(alloc, table, &params)?;
    let id = EntryId {
        conn: 0,
        ordinal: u64::from(ordinal),
    };
    match table.commit(id, token, writes) {
        Ok(_) => Ok(()),
        Err(_) => Err(AllocError),
    }
}

/// The write that a put asks for.
fn writes_of(
    alloc: Global,
    table: &FixedTable,
    params: &[(String, Cell)],
) -> Result<Vec<Write>, AllocError> {
    let Ok(answer) = table.run(&[], "PUT", params, Mode::Write) else {
        return Err(AllocError);
    };
    let Answer { write, .. } = answer;
    let mut writes = Vec::with_capacity(alloc, 1)?;
    if let Some(write) = write {
        writes.push(write)?;
    }
    Ok(writes)
}
