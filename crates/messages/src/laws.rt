//! What holds of messages and their bytes, whatever reads them.
ghost use Rattle.messages.specs.Prelude.{RequestsAreMade, RequestsReadBack, ResponsesAreMade, ResponsesReadBack, Req, Resp, NoRequest, NoResponse, request_of, response_of, OneAtMost, MessageIsTold, ToldIsMessage, FaultIsTold, ToldIsFault, NoProperBeginning, BeginsNone};

pub mod framing;
pub mod saying;
pub mod summaries;

/// Bytes stand for one request at most, and then have no fault; `request_of` is it, or their fault.
pub fn one_request()
    ensures one { OneAtMost Req }
    ensures request { MessageIsTold Req request_of }
    ensures fault { FaultIsTold NoRequest request_of }
    ensures told { ToldIsFault NoRequest request_of }
    ensures back { ToldIsMessage Req request_of }
{}

/// Bytes stand for one response at most, and then have no fault; `response_of` is it, or their fault.
pub fn one_response()
    ensures one { OneAtMost Resp }
    ensures response { MessageIsTold Resp response_of }
    ensures fault { FaultIsTold NoResponse response_of }
    ensures told { ToldIsFault NoResponse response_of }
    ensures back { ToldIsMessage Resp response_of }
{}

/// The bytes of no message are a proper beginning of another's, and those of a request are none of a response, nor begin them,
/// nor the other way round.
pub fn no_proper_beginning()
    ensures requests { NoProperBeginning Req }
    ensures responses { NoProperBeginning Resp }
    ensures request_first { BeginsNone Req Resp }
    ensures response_first { BeginsNone Resp Req }
{}

/// A spelling that is written of a message stands for it, and is read as it: of each request and response, seen as plain data,
/// that is made of texts, of numbers in their ranges and of cells of the version.
pub fn texts_read_back()
    ensures requests { RequestsReadBack }
    ensures responses { ResponsesReadBack }
{}

/// What bytes stand for is made of texts, of numbers in their ranges and of cells of the version.
pub fn read_are_made()
    ensures requests { RequestsAreMade }
    ensures responses { ResponsesAreMade }
{}
