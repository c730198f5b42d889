//! A count of what a pass was told.
ghost use Rattle.std.specs.Prelude.{◌≡◌, ◌+◌, ◌<◌};
ghost use Rattle.turn_floor.specs.Counts.{once, risen};

use std::sync::ledger::{Blank, Book, Ledger, Share};

/// How often it was so, and the parts of a ledger in which that is written.
#[derive(Drop)]
pub struct Count<L: Ledger> {
    share: Share<L>,
    so_far: u64,
    ghost so_far_is: { so_far ≡ risen share.amount 0 },
}

impl<L: Ledger> Count<L> {
    /// A new ledger, and a count with all of its parts.
    pub(crate) fn begin(blank: Blank) -> (Book<L>, Count<L>)
        requires name { blank.name ≡ L.name }
        requires parts { blank.parts ≡ L.parts }
        ensures total { result.0.total ≡ 0 }
        ensures parts { result.1.share.parts ≡ L.parts }
        ensures amount { result.1.share.amount ≡ 0 }
    {
        let (book, share) = blank.open::<L>();
        (book, Count { share, so_far: 0 })
    }

    /// A count with one of the parts.
    pub(crate) fn split_off(&mut self) -> Count<L>
        requires { 1 < self.old.share.parts }
        ensures parts { self.new.share.parts + 1 ≡ self.old.share.parts }
        ensures amount { self.new.share.amount ≡ self.old.share.amount }
        ensures one { result.share.parts ≡ 1 }
        ensures none { result.share.amount ≡ 0 }
    {
        Count {
            share: self.share.split_off(1, 0),
            so_far: 0,
        }
    }

    /// Counts where it was so.
    pub(crate) fn raise(&mut self, book: &mut Book<L>, so: bool)
        requires { 0 < self.old.share.parts }
        ensures total { book.new.total ≡ book.old.total + once so }
        ensures amount { self.new.share.amount ≡ self.old.share.amount + once so }
        ensures parts { self.new.share.parts ≡ self.old.share.parts }
    {
        if so {
            book.add(&mut self.share, 1);
            self.so_far = self.so_far.saturating_add(1);
        }
    }

    /// How often it was so, as far as a number of 64 bits goes.
    pub(crate) fn so_far(&self) -> u64
        ensures { result ≡ risen self.now.share.amount 0 }
    {
        self.so_far
    }

    /// Takes in another count.
    pub(crate) fn merge(&mut self, other: Count<L>)
        ensures parts { self.new.share.parts ≡ self.old.share.parts + other.share.parts }
        ensures amount { self.new.share.amount ≡ self.old.share.amount + other.share.amount }
    {
        let Count { share, so_far } = other;
        self.share.merge(share);
        self.so_far = self.so_far.saturating_add(so_far);
    }

    /// How often it was so. With all parts of the ledger this is its total.
    pub(crate) fn end(self, book: Book<L>) -> u64
        requires { self.share.parts ≡ L.parts }
        ensures total { book.total ≡ self.share.amount }
        ensures so_far { result ≡ risen self.share.amount 0 }
    {
        let Count { mut share, so_far } = self;
        let mut book = book;
        book.audit(&mut share);
        so_far
    }
}
