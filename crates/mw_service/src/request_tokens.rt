//! Tokens of requests: the right to the reply to one request, which one session has at a time.
//!
//! A lock tells no contract which pass it lends, nor for whom. The tokens do: with a pass goes a source, which gives one token out
//! for each request that the pass serves, and a session collects those of its replies. `specs/RequestTokens` says that no two
//! threads have one token, and `specs/OwnReplies` which one goes with a reply: change them together.
//!
//! Used by: `idle_pass`, `locked_passes`, `pass_pool`, `read_pool`, `borrower`; mw_programs makes the table. `WORKERS`
//! is 256 because a worker's number is a `u8`.
ghost use Rattle.std.specs.Prelude.{ℕ, ◌≡◌, ◌+◌, ◌++◌, [], ◌∷◌, IfSome};
ghost use Rattle.mw_service.specs.declared.request_tokens.TheConstants.{WORKERS};
ghost use Rattle.atomic_table.specs.Seated.{TableId};
ghost use Rattle.mw_service.specs.OwnReplies.{came_to};
ghost use Rattle.mw_service.specs.RequestTokens.{no_table, no_tokens, source_of, token_of};

use crate::token_rule::{AddsTokens, Comes, FirstNumber, GivesToken, TakesSource, TokenRule};
use crate::token_views::TokenView;
use atomic_table::{Seat, Table};
use mw_engine::Pass;
use std::alloc::{AllocError, Global};
use std::marker::{Brand, PhantomData};

/// As many as there are numbers of workers.
const WORKERS: usize = 256;

/// Names a table of request tokens. What is under a lock is known by its type alone, so the types of passes and of sessions that
/// use one table have its name.
pub trait TokenBrand {
    ghost table: { TableId };
}

impl TokenBrand for Brand {
    ghost table = { no_table };
}

/// A table of request tokens that has no name yet.
#[derive(Drop)]
pub struct NewTokenTable {
    table: Table<u8, TokenView, (), TokenRule, Global>,
    ghost long: { table.shared.table_id.words ≡ WORKERS },
}

/// A table of request tokens. It has a word for each worker, which tells whether the source of its tokens was taken. Threads share
/// it by reference.
#[derive(Drop)]
pub struct TokenTable<K: TokenBrand> {
    table: Table<u8, TokenView, (), TokenRule, Global>,
    brand: PhantomData<K>,
    ghost long: { table.shared.table_id.words ≡ WORKERS },
    ghost named: { table.shared.table_id ≡ K.table },
}

/// The source of the tokens of one worker's requests. It has no bytes.
#[derive(Drop)]
pub(crate) struct TokenSource<K: TokenBrand> {
    seat: Seat<u8, TokenView>,
    brand: PhantomData<K>,
    ghost its: { seat.table_id ≡ K.table },
}

/// The tokens of the requests that a session was answered. They have no bytes.
#[derive(Drop)]
pub(crate) struct OwnTokens<K: TokenBrand> {
    seat: Seat<u8, TokenView>,
    brand: PhantomData<K>,
    ghost its: { seat.table_id ≡ K.table },
    ghost no_slot: { seat.me.1 ≡ [] },
}

impl NewTokenTable {
    /// Makes a table of which no token is given out.
    ///
    /// # Errors
    ///
    /// [`AllocError`] if memory is out.
    pub fn new(alloc: Global) -> Result<NewTokenTable, AllocError> {
        let (table, _) = Table::of_words(alloc, &[0; WORKERS], &())?;
        Ok(NewTokenTable { table })
    }

    /// Names the table.
    pub fn named<K: TokenBrand>(self) -> TokenTable<K>
        requires { self.table.shared.table_id ≡ K.table }
    {
        TokenTable {
            table: self.table,
            brand: PhantomData,
        }
    }
}

impl<K: TokenBrand> TokenTable<K> {
    /// Gives the source of the tokens of a pass's worker: of the requests that come to it from now on. None: it was given before.
    pub(crate) fn source<N: FirstNumber>(&self, pass: &Pass) -> Option<TokenSource<K>>
        requires { N.first ≡ came_to pass.now.seat.me.0.tokens }
        ensures { IfSome result (λ source. source.seat.me.0 ≡ source_of pass.now.worker (came_to pass.now.seat.me.0.tokens)) }
    {
        let shared = &self.table.shared;
        let (found, seat) = shared.swap_new_seat::<TakesSource<N>>(usize::from(pass.worker()), 1);
        if found == 0 {
            Some(TokenSource {
                seat,
                brand: PhantomData,
            })
        } else {
            None
        }
    }

    /// Gives the tokens of a session that was answered no request yet.
    pub(crate) fn none(&self) -> OwnTokens<K>
        ensures { result.seat.me.0 ≡ no_tokens }
    {
        let (_, seat) = self.table.shared.load_new_seat::<Comes>(0);
        OwnTokens {
            seat,
            brand: PhantomData,
        }
    }

    /// Takes the token of the next request of a source's worker.
    pub(crate) fn take(&self, source: &mut TokenSource<K>) -> OwnTokens<K>
        ensures after { (worker next : ℕ) → source.old.seat.me.0 ≡ source_of worker next → source.new.seat.me.0 ≡ source_of worker (next + 1) }
        ensures token { (worker next : ℕ) → source.old.seat.me.0 ≡ source_of worker next → result.seat.me.0.tokens ≡ token_of worker next ∷ [] }
    {
        let seat = self.table.shared.split_seat::<GivesToken>(&mut source.seat);
        OwnTokens {
            seat,
            brand: PhantomData,
        }
    }

    /// Adds tokens to those of a session.
    pub(crate) fn add(&self, own: &mut OwnTokens<K>, more: OwnTokens<K>)
        ensures { own.new.seat.me.0.tokens ≡ own.old.seat.me.0.tokens ++ more.seat.me.0.tokens }
    {
        self.table
            .shared
            .join_seat::<AddsTokens>(&mut own.seat, more.seat);
    }
}
