//! Ghost types of what a thread has at the table of request tokens. Proofs use them; the program makes no value of them.
//!
//! Used by: `token_rule`, `request_tokens`. `specs/RequestTokens` says when they are right: change it with a field.

use std::collections::LinkedList;

/// The right to the reply to one request. One session has it at a time.
pub struct RequestToken {
    /// The worker that served the request.
    pub worker: u8,
    /// How many requests had come to this worker before, since the shared words were made.
    pub number: u64,
}

/// The right to give out the tokens of one worker's next requests.
pub struct WorkerSource {
    /// The worker.
    pub worker: u8,
    /// The number of its next request.
    pub next: u64,
}

/// What a thread has.
pub struct TokenView {
    /// The source of a worker's tokens, if the thread has one.
    pub source: Option<WorkerSource>,
    /// The tokens of the requests that the thread was answered, in order.
    pub tokens: LinkedList<RequestToken>,
}
