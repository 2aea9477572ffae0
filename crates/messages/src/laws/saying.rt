//! That messages are what the rows of the table say.
ghost use Rattle.messages.specs.Prelude.{requests, responses, request_contents, response_contents, Req, Resp, ToldByRows, StandsByRows};

/// What is told of a value as a request, or as a response, is what a row of the table says of it; and bytes stand for
/// the request, or the response, that a row says of the value that they spell.
#[tactic(auto, using(crate::proofs::Layouts::spelled_by_rows, crate::proofs::Layouts::requests_laid, crate::proofs::Layouts::responses_laid))]
pub fn messages_are_rows()
    ensures requests { ToldByRows requests }
    ensures responses { ToldByRows responses }
    ensures request { StandsByRows Req requests request_contents }
    ensures response { StandsByRows Resp responses response_contents }
{}
