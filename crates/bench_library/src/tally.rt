//! What was moved and heard.
use client::{Heard, Outcome};
use structures::Cell;

/// Counts of bytes, rows and summaries.
#[derive(Clone, Copy)]
pub(crate) struct Tally {
    pub up: u64,
    pub down: u64,
    pub rows: u64,
    /// The sum of the first cells of rows: an Int, or the length of Bytes or of a list.
    pub cells: u64,
    pub done: u64,
    pub committed: u64,
}

impl Tally {
    pub fn new() -> Tally {
        Tally {
            up: 0,
            down: 0,
            rows: 0,
            cells: 0,
            done: 0,
            committed: 0,
        }
    }

    pub fn add_up(&mut self, count: usize) {
        self.up = self.up.wrapping_add(count as u64);
    }

    pub fn add_down(&mut self, count: usize) {
        self.down = self.down.wrapping_add(count as u64);
    }

    pub fn hear(&mut self, heard: Heard) {
        match heard {
            Heard::Nothing | Heard::Version(_) => {}
            Heard::Row(cells) => self.hear_row(&cells),
            Heard::Summary { outcome, .. } => self.conclude(outcome),
        }
    }

    pub fn hear_row(&mut self, cells: &[Cell]) {
        self.rows = self.rows.wrapping_add(1);
        self.cells = self.cells.wrapping_add(first_of(cells));
    }

    pub fn conclude(&mut self, outcome: Outcome) {
        match outcome {
            Outcome::Done => self.done = self.done.wrapping_add(1),
            Outcome::Committed => self.committed = self.committed.wrapping_add(1),
            Outcome::Refused | Outcome::Ignored | Outcome::Lost | Outcome::Unknown => {}
        }
    }

    /// The check number of a run: bytes up and down, rows, their first cells, summaries done, twice those committed, and the
    /// ledger's length.
    pub fn check(&self, ledger: usize) -> u64 {
        let moved = self.up.wrapping_add(self.down);
        let read = self.rows.wrapping_add(self.cells);
        let told = self.done.wrapping_add(self.committed.wrapping_mul(2));
        moved
            .wrapping_add(read)
            .wrapping_add(told)
            .wrapping_add(ledger as u64)
    }
}

/// The first cell of a row as a number.
fn first_of(cells: &[Cell]) -> u64 {
    match cells.first() {
        Some(Cell::Int(n)) => n.unsigned_abs(),
        Some(Cell::Bytes(bytes)) => bytes.len() as u64,
        Some(Cell::List(cells)) => cells.len() as u64,
        _ => 0,
    }
}
