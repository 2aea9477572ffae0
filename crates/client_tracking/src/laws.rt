//! Laws on the definitions, for callers to rely on. Each function has an empty body, and its contract is the law.

ghost use Rattle.client_tracking.specs.Fates.{FatesSay};
ghost use Rattle.client_tracking.specs.Runs.{AccountsByBytes, AccountTells, HoldsItsRows, KeepsFewRows};

/// Over every list of calls, whatever the server sends and however its bytes are cut: what the account says of each request is a function
/// of the wish, of the requests that were accepted, of the bytes that were taken, and of the loss.
pub fn accounts_by_bytes()
    ensures { AccountsByBytes }
{}

/// Over every list of calls: what the account tells of an attempt is what that attempt tells, as its caller saw it.
pub fn account_tells()
    ensures { AccountTells }
{}

/// Over every list of calls by which no rows are taken: the rows that are held of each request are the first of its own, as many as the limit.
/// Its own are those that were told behind as many summaries as its ordinal says.
pub fn holds_its_rows()
    ensures { HoldsItsRows }
{}

/// Over every list of calls, no more rows of each request are held than the limit that the caller named.
pub fn keeps_few_rows()
    ensures { KeepsFewRows }
{}

/// States what each fate says of what the attempts report.
///
/// - Stands, Clash: the last attempt reports it. Under Tokens none before it reports either, under Never each before it reports nothing.
/// - Refused: the last attempt is refused, and each before it reports nothing.
/// - Open: under Tokens all tries were made, none reports Stands or Clash, and some report a doubt. Under Never the last attempt reports a doubt,
///   and each before it nothing.
/// - Absent: all tries were made, and each reports nothing.
pub fn fates_say()
    ensures { FatesSay }
{}
