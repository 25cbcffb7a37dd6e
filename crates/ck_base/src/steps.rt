//! Tokens that count calls, in proofs alone.
ghost use Rattle.std.specs.Prelude.{◌≡◌, ◌+◌, ◌<◌, ℕ};

use std::marker::{Brand, Model};
use std::sync::ledger;
use std::sync::ledger::{Blank, Book, Share};

/// What counts: a number that only rises.
pub trait Ledger: Drop {
    /// how many were counted
    ghost count: { Self → ℕ };

    /// Counts one more.
    fn count_one(&mut self)
        ensures { count self.new ≡ count self.old + 1 };
}

/// A ledger with no bytes at run time, which only proofs see.
#[derive(Drop)]
pub struct Quiet<B: ledger::Ledger = Brand> {
    book: Book<B>,
    share: Share<B>,
}

impl<B: ledger::Ledger> Model for Quiet<B> {
    ghost use Rattle.std.specs.Prelude.{ℕ, ◌<◌};

    ghost Value = { ℕ };

    ghost view = { λ quiet. quiet.book.total };

    ghost invariant = { λ quiet. 0 < quiet.share.parts };
}

impl<B: ledger::Ledger> Quiet<B> {
    /// The ledger that a blank names, which has counted nothing.
    pub fn new(blank: Blank) -> Quiet<B>
        requires name { blank.name ≡ B.name }
        requires parts { blank.parts ≡ B.parts }
        requires some { 0 < blank.parts }
        ensures { result ≡ 0 }
    {
        let (book, share) = blank.open::<B>();
        Quiet { book, share }
    }
}

impl<B: ledger::Ledger> Ledger for Quiet<B> {
    ghost count = { λ quiet. quiet };

    fn count_one(&mut self) {
        self.book.add(&mut self.share, 1);
    }
}

/// A token of one counted call. It comes from `Steps::draw` alone.
#[derive(Drop)]
pub struct StepToken {
    drawn: (),
}

/// A ledger that hands out a token for each call that it counts. It is seen as the number of tokens drawn.
#[derive(Drop)]
pub struct Steps<L: Ledger> {
    ledger: L,
}

impl<L: Ledger> Model for Steps<L> {
    ghost use Rattle.std.specs.Prelude.{ℕ};

    ghost Value = { ℕ };

    ghost view = { λ steps. L.count steps.ledger };
}

impl<L: Ledger> Steps<L> {
    /// Steps over this ledger. It takes no memory.
    pub fn new(ledger: L) -> Steps<L>
        ensures { result ≡ L.count ledger }
    {
        Steps { ledger }
    }

    /// Counts one more, and answers its token. It takes no memory.
    pub fn draw(&mut self) -> StepToken
        ensures { self.new ≡ self.old + 1 }
    {
        self.ledger.count_one();
        StepToken { drawn: () }
    }
}
