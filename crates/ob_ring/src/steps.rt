//! A count of steps that takes no bytes.

ghost use Rattle.std.specs.Prelude.{◌≡◌, ◌+◌, ◌<◌};

use std::marker::Model;
use std::sync::ledger::{Blank, Book, Ledger, Share};

/// How many steps were taken. It takes no bytes, and only `tick` changes it.
#[derive(Drop)]
pub struct Steps<C: Ledger> {
    book: Book<C>,
    share: Share<C>,
}

impl<C: Ledger> Model for Steps<C> {
    ghost use Rattle.std.specs.Prelude.{ℕ, ◌<◌};

    ghost Value = { ℕ };

    ghost view = { λ s. s.book.total };

    ghost invariant = { λ s. 0 < s.share.parts };
}

impl<C: Ledger> Steps<C> {
    /// No step was taken, of a ledger that wasn't opened.
    pub fn none(blank: Blank) -> Steps<C>
        requires name { blank.name ≡ C.name }
        requires parts { (blank.parts ≡ C.parts) × (0 < blank.parts) }
        ensures { result ≡ 0 }
    {
        let (book, share) = blank.open::<C>();
        Steps { book, share }
    }

    // One step more. What a step is, its callers say: no number here can be read, so that one
    // stands for each bucket that is asked and each row that is put is the author's word.
    pub(crate) fn tick(&mut self)
        ensures { self.new ≡ self.old + 1 }
    {
        self.book.add(&mut self.share, 1);
    }
}
