//! Gives the rule of request tokens as a type that `atomic_table` takes, and the ways in which tokens are given out and
//! collected.
//!
//! Used by: `request_tokens`. Change it with `specs/RequestTokens`.

use crate::token_views::TokenView;
use atomic_table::{Join, Play, Split, TableRule};
use std::marker::{Brand, PhantomData};

/// The rule: no two threads have one token.
pub struct TokenRule;

impl TableRule<u8, TokenView, ()> for TokenRule {
    ghost use Rattle.mw_service.specs.RequestTokens.{AreOwn, no_tokens};

    ghost holds = { λ _. AreOwn };

    ghost first = { λ _. no_tokens };
}

/// A thread comes that has no token.
pub(crate) struct Comes;

impl Play<u8, TokenView> for Comes {
    ghost use Rattle.mw_service.specs.RequestTokens.{came};

    ghost then = { came };
}

/// From which number on a source gives out tokens.
pub(crate) trait FirstNumber {
    ghost use Rattle.std.specs.Prelude.{ℕ};

    ghost first: { ℕ };
}

impl FirstNumber for Brand {
    ghost first = { 0 };
}

/// A thread takes the source of a worker's tokens, if nobody has taken it.
pub(crate) struct TakesSource<N>(PhantomData<N>);

impl<N: FirstNumber> Play<u8, TokenView> for TakesSource<N> {
    ghost use Rattle.mw_service.specs.RequestTokens.{took_source};

    ghost then = { took_source N.first };
}

/// A source gives out the token of its worker's next request.
pub(crate) struct GivesToken;

impl Split<TokenView> for GivesToken {
    ghost use Rattle.mw_service.specs.RequestTokens.{after_next, with_next};

    ghost left = { after_next };

    ghost right = { with_next };
}

/// A thread adds tokens to its own.
pub(crate) struct AddsTokens;

impl Join<TokenView> for AddsTokens {
    ghost use Rattle.mw_service.specs.RequestTokens.{no_tokens, with_more};

    ghost both = { with_more };

    ghost spent = { no_tokens };
}
