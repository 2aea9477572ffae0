//! What holds of tables of entries, whatever reads them.
ghost use Rattle.engine_sqlite.specs.Ledger.{HasOneLedger};

/// The table of entries of a database is that of one ledger alone: bytes spell one list of writes, and rows are one list of entries.
pub fn one_ledger()
    ensures { HasOneLedger }
{}
