//! The named entries of a dictionary, of values or of cells.
ghost use Rattle.std.specs.Prelude.{◌≡◌, [], ◌∷◌, Some, codes};
ghost use Rattle.messages.specs.Prelude.{Tree, tree, shape, text_of, Answers, TellsRequest, TellsResponse, found, entries_seen, IsKind, all_named, how_many, is_token, contents_of_text, contents_of_mode, contents_of_count, contents_of_token, contents_of_transaction, contents_of_rows, contents_of_login, contents_of_dict, mode_tree, token_tree, count_tree, transaction_trees, login_trees, hello, of_error, HELLO, FAILURE, auth_view, token_view};

use crate::MAX_TOKEN;
use crate::fault::{Answer, MsgFault};
use crate::request::{Auth, Count, Mode, Request};
use crate::response::Response;
use packstream::Value;
use structures::Cell;
use wire::Version;

/// The mode of a transaction, and its token if it has one.
pub(crate) type Transaction = (Mode, Option<String>);

/// What stands under a name.
#[derive(Drop)]
pub(crate) enum Kind<'a, T> {
    Absent,
    Text(&'a String),
    Int(i64),
    Dict(&'a [(String, T)]),
    Other,
}

/// What an entry holds: a value or a cell.
pub(crate) trait Item: Sized {
    ghost seen: { Self → Tree };

    fn kind(&self) -> Kind<'_, Self>
        ensures { IsKind seen result (Some (seen self.now)) };
}

impl Item for Value {
    ghost seen = { tree };

    #[tactic(auto, using(packstream::proofs::Putting::tree_of_dict))]
    fn kind(&self) -> Kind<'_, Value> {
        match self {
            Value::Text(text) => Kind::Text(text),
            Value::Int(n) => Kind::Int(*n),
            Value::Dict(pairs) => Kind::Dict(pairs),
            _ => Kind::Other,
        }
    }
}

impl Item for Cell {
    ghost seen = { shape };

    #[tactic(auto, using(structures_encoder::proofs::Flat::shape_of_dict))]
    fn kind(&self) -> Kind<'_, Cell> {
        match self {
            Cell::Text(text) => Kind::Text(text),
            Cell::Int(n) => Kind::Int(*n),
            Cell::Dict(pairs) => Kind::Dict(pairs),
            _ => Kind::Other,
        }
    }
}

/// What stands under this name first.
fn entry<'a, T: Item>(pairs: &'a [(String, T)], name: &str) -> Kind<'a, T>
    ensures { IsKind T.seen result (found T.seen name.now pairs.now) }
{
    for pair in pairs {
        if name == pair.0.as_str() {
            return pair.1.kind();
        }
    }
    Kind::Absent
}

/// A text that has to be there.
fn text_in<T: Item>(pairs: &[(String, T)], name: &str) -> Result<String, MsgFault>
    ensures { Answers (λ s. text_of s ∷ []) result (contents_of_text (found T.seen name.now pairs.now)) }
{
    match entry(pairs, name) {
        Kind::Text(text) => Ok(text.clone()?),
        _ => Err(MsgFault::Extra),
    }
}

/// The mode, to write if it is absent.
fn mode_in<T: Item>(pairs: &[(String, T)]) -> Result<Mode, MsgFault>
    ensures { Answers (λ m. mode_tree m ∷ []) result (contents_of_mode (found T.seen (codes "mode") pairs.now)) }
{
    match entry(pairs, "mode") {
        Kind::Absent => Ok(Mode::Write),
        Kind::Text(text) if text.as_str() == "r" => Ok(Mode::Read),
        Kind::Text(text) if text.as_str() == "w" => Ok(Mode::Write),
        _ => Err(MsgFault::Extra),
    }
}

/// Whether a text may be a token: it has 1 to 64 bytes.
pub(crate) fn is_token(text: &str) -> bool
    ensures { result ≡ is_token text.now }
{
    1 <= text.len() && text.len() <= MAX_TOKEN
}

/// The token among a client's words of its transaction; its other words are ignored.
fn token_among<T: Item>(words: &[(String, T)]) -> Result<Option<String>, MsgFault>
    ensures { Answers (λ t. token_tree (token_view t) ∷ []) result (contents_of_token (found T.seen (codes "token") words.now)) }
{
    match entry(words, "token") {
        Kind::Absent => Ok(None),
        Kind::Text(text) if is_token(text.as_str()) => Ok(Some(text.clone()?)),
        _ => Err(MsgFault::Extra),
    }
}

/// The mode of a transaction, and its token if it has one.
pub(crate) fn transaction_of<T: Item>(pairs: &[(String, T)]) -> Answer<Transaction>
    ensures { Answers transaction_trees result (contents_of_transaction (entries_seen T.seen pairs.now)) }
{
    let mode = mode_in(pairs)?;
    match entry(pairs, "tx_metadata") {
        Kind::Absent => Ok((mode, None)),
        Kind::Dict(words) => Ok((mode, token_among(words)?)),
        _ => Err(MsgFault::Extra),
    }
}

fn number_in<T: Item>(pairs: &[(String, T)]) -> Result<Count, MsgFault>
    ensures { Answers (λ c. count_tree c ∷ []) result (contents_of_count (found T.seen (codes "n") pairs.now)) }
{
    match entry(pairs, "n") {
        Kind::Int(-1) => Ok(Count::All),
        Kind::Int(n) if n >= 1 => Ok(Count::Of(n)),
        _ => Err(MsgFault::Extra),
    }
}

/// Whether `n` and `qid` are the only names.
fn say_how_many_alone<T: Item>(pairs: &[(String, T)]) -> bool
    ensures { result ≡ all_named how_many (entries_seen T.seen pairs.now) }
{
    for pair in pairs {
        if pair.0.as_str() != "n" && pair.0.as_str() != "qid" {
            return false;
        }
    }
    true
}

/// How many rows, of the last query, if one is named; no other entry is allowed.
pub(crate) fn count_in<T: Item>(pairs: &[(String, T)]) -> Result<Count, MsgFault>
    ensures { Answers (λ c. count_tree c ∷ []) result (contents_of_rows (entries_seen T.seen pairs.now)) }
{
    if !say_how_many_alone(pairs) {
        return Err(MsgFault::Extra);
    }
    let count = number_in(pairs)?;
    match entry(pairs, "qid") {
        Kind::Absent | Kind::Int(-1) => Ok(count),
        _ => Err(MsgFault::Extra),
    }
}

/// Who a client is.
pub(crate) fn auth_of<T: Item>(pairs: &[(String, T)]) -> Result<Auth, MsgFault>
    ensures { Answers (λ a. login_trees (auth_view a)) result (contents_of_login (entries_seen T.seen pairs.now)) }
{
    Ok(Auth {
        scheme: text_in(pairs, "scheme")?,
        principal: text_in(pairs, "principal")?,
        credentials: text_in(pairs, "credentials")?,
    })
}

/// A HELLO: the client's name, and who it is if the version tells that with it.
#[tactic(auto, using(crate::proofs::Fields::login_here))]
pub(crate) fn hello_of<T: Item>(version: Version, pairs: &[(String, T)]) -> Answer<Request>
    ensures { TellsRequest result (contents_of_dict version HELLO hello (entries_seen T.seen pairs.now)) }
{
    let agent = text_in(pairs, "user_agent")?;
    if !version.hello_has_login() {
        return Ok(Request::Hello { agent, auth: None });
    }
    let auth = Some(auth_of(pairs)?);
    Ok(Request::Hello { agent, auth })
}

/// A FAILURE: its code and its message.
pub(crate) fn failure_of<T: Item>(pairs: &[(String, T)]) -> Result<Response, MsgFault>
    ensures { TellsResponse result (contents_of_dict Version.V51 FAILURE of_error (entries_seen T.seen pairs.now)) }
{
    let code = text_in(pairs, "code")?;
    let message = text_in(pairs, "message")?;
    Ok(Response::Failure { code, message })
}
