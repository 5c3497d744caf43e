//! What an instance knows while it leads.
ghost use Rattle.std.specs.Prelude.{◌≡◌};
ghost use Rattle.etcd_terms.specs.Seats.{ended, is_granted, may, may_fill, is_filled, seated, wished};

use lists::List;

/// What is to be asked.
#[derive(Drop)]
pub enum Wish {
    /// This is the next block of the epoch that goes on.
    Append(List<u8>),
    /// The torn end of the epoch that goes on is removed.
    Cut,
    /// What stands where the next epoch begins.
    Look,
    /// What stands there is removed: a renewal left it that did not come to its end.
    Clear,
    /// This is the next block of the next epoch.
    Fill(List<u8>),
    /// The next epoch goes on.
    Switch,
    /// The blocks of an epoch that is over are removed.
    Forget(u32),
}

/// What is known of the next epoch.
#[derive(Clone, Copy, Debug, PartialEq, Eq)]
pub enum Ahead {
    Unknown,
    /// Its first block was created at this revision, and is to be removed.
    Left(u64),
    /// It has so many blocks, all of this term.
    Has(u32),
}

/// What an instance knows while it leads, and what it asks.
#[derive(Drop)]
pub struct Seat {
    /// Whether it leads no more. Then it asks nothing.
    pub is_over: bool,
    /// The epoch that goes on, 0 before the first.
    pub going: u32,
    /// The number of its next block.
    pub next: u32,
    /// The revision at which the block of this number was created, where a torn end begins with it, or 0.
    pub torn: u64,
    pub ahead: Ahead,
    /// What is asked until its answer is known.
    pub asked: Option<Wish>,
}

impl Seat {
    /// That of whoever has read the epoch that goes on.
    pub fn new(going: u32, next: u32, torn: u64) -> Seat
        ensures { result ≡ seated going next torn }
    {
        Seat {
            is_over: false,
            going,
            next,
            torn,
            ahead: Ahead::Unknown,
            asked: None,
        }
    }

    /// Asks this from now on, if it may be asked now. It is not while something else is asked.
    pub fn wish(&mut self, wish: Wish) -> bool
        ensures seat { self.new ≡ wished self.old wish }
        ensures granted { result ≡ is_granted self.old wish }
    {
        if self.is_granted(&wish) {
            drop(self.asked.replace(wish));
            true
        } else {
            drop(wish);
            false
        }
    }

    fn is_granted(&self, wish: &Wish) -> bool
        ensures { result ≡ is_granted self.now wish.now }
    {
        !self.is_over && self.asked.is_none() && self.may(wish)
    }

    fn may(&self, wish: &Wish) -> bool
        ensures { result ≡ may self.now wish.now }
    {
        match wish {
            Wish::Append(_) => self.torn == 0 && self.going != 0 && self.next < u32::MAX,
            Wish::Cut => self.torn != 0,
            Wish::Look => matches!(self.ahead, Ahead::Unknown) && self.going < u32::MAX,
            Wish::Clear => matches!(self.ahead, Ahead::Left(_)),
            Wish::Fill(_) => may_fill(self.ahead),
            Wish::Switch => is_filled(self.ahead),
            Wish::Forget(epoch) => *epoch < self.going,
        }
    }

    /// It leads no more: its lease ended, or nothing is known of that for too long.
    pub fn end(&mut self)
        ensures { self.new ≡ ended self.old }
    {
        self.is_over = true;
        drop(self.asked.take());
    }
}

fn may_fill(ahead: Ahead) -> bool
    ensures { result ≡ may_fill ahead }
{
    match ahead {
        Ahead::Has(count) => count < u32::MAX,
        Ahead::Unknown | Ahead::Left(_) => false,
    }
}

fn is_filled(ahead: Ahead) -> bool
    ensures { result ≡ is_filled ahead }
{
    match ahead {
        Ahead::Has(count) => count > 0,
        Ahead::Unknown | Ahead::Left(_) => false,
    }
}
