//! A caller of a connection.
ghost use Rattle.std.specs.Prelude.{◌≡◌, ◌∷◌, [], IfOk, map};
ghost use Rattle.messages.specs.View.{RequestView};
ghost use Rattle.client_tracking.specs.Holding.{row_view};
ghost use Rattle.driver.specs.Stands.{stand_of, place};
ghost use Rattle.driver.specs.Pipelines.{Says};
ghost use Rattle.driver.specs.Requests.{query_view, query_run};
ghost use Rattle.examples.specs.Reads.{first_int, rows_told};

use client_tracking::Rows;
use driver::{Connection, Fault, Query, as_int};
use messages::{Count, Mode};
use streams::{Sink, Source};
use structures::Cell;

/// The first cell of the first row, if that is an integer.
fn first_int(rows: &[Vec<Cell>]) -> Option<i64>
    ensures { result ≡ first_int (map row_view rows.now) }
{
    as_int(rows.first()?.first()?)
}

/// Runs a query that reads, and gives the first cell of its first row if that is an integer; or why not each request was answered SUCCESS.
pub fn read_int<S: Source + Drop, T: Sink + Drop>(
    connection: &mut Connection<S, T>,
    query: &Query,
) -> Result<Option<i64>, Fault>
    ensures says { Says
        (place (stand_of connection.old.tracking)
        (S.given connection.old.source) (T.put connection.old.sink))
        (place (stand_of connection.new.tracking)
        (S.given connection.new.source) (T.put connection.new.sink))
        (query_run Mode.Read (query_view query.now) ∷ RequestView.Pull Count.All ∷ []) result }
    ensures first { IfOk result (λ n. n
        ≡ first_int (rows_told (stand_of connection.old.tracking) (stand_of connection.new.tracking))) }
{
    let answer = connection.run(query, Mode::Read, Rows::Pull(Count::All))?;
    Ok(first_int(connection.rows(answer.rows)))
}
