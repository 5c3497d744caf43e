//! The right to submit, with what was submitted.
ghost use Rattle.std.specs.Prelude.{◌≡◌};
ghost use Rattle.alloc_desk.specs.Counts.{Counts};

use crate::name::DeskName;
use std::marker::{Model, PhantomData};
use std::sync::ledger::{Ledger, Share};

/// The right to submit, with what was submitted. Contracts see its seat and its counts.
#[derive(Drop)]
pub struct Pass<L: Ledger, B: Ledger, N: DeskName> {
    pub(crate) seat: u32,
    pub(crate) calls: u64,
    pub(crate) booked: u64,
    pub(crate) call_share: Share<L>,
    pub(crate) sample_share: Share<B>,
    pub(crate) of: PhantomData<N>,
}

impl<L: Ledger, B: Ledger, N: DeskName> Model for Pass<L, B, N> {
    ghost use Rattle.std.specs.Prelude.{◌≡◌};
    ghost use Rattle.alloc_desk.specs.Counts.{Counts};

    ghost Value = { Counts };

    ghost view = { λ p. record { seat = p.seat; calls = p.calls; booked = p.booked } };

    ghost invariant = { λ p. (p.call_share.parts ≡ 1) × (p.sample_share.parts ≡ 1) × (p.call_share.amount ≡ p.calls) × (p.sample_share.amount ≡ p.booked) };
}

impl<L: Ledger, B: Ledger, N: DeskName> Pass<L, B, N> {
    /// A pass that has done nothing.
    pub(crate) fn new(seat: u32, call_share: Share<L>, sample_share: Share<B>) -> Pass<L, B, N>
        requires calls { (call_share.parts ≡ 1) × (call_share.amount ≡ 0) }
        requires samples { (sample_share.parts ≡ 1) × (sample_share.amount ≡ 0) }
        ensures { result ≡ record { seat = seat; calls = 0; booked = 0 } }
    {
        Pass {
            seat,
            calls: 0,
            booked: 0,
            call_share,
            sample_share,
            of: PhantomData,
        }
    }

    /// Its shares of the two ledgers.
    pub(crate) fn into_shares(self) -> (Share<L>, Share<B>)
        ensures calls { (result.0.parts ≡ 1) × (result.0.amount ≡ self.calls) }
        ensures samples { (result.1.parts ≡ 1) × (result.1.amount ≡ self.booked) }
    {
        let Pass {
            seat: _,
            calls: _,
            booked: _,
            call_share,
            sample_share,
            of: _,
        } = self;
        (call_share, sample_share)
    }

    /// The pass's place among those that the desk was opened with, from 0.
    pub fn seat(&self) -> u32
        ensures { result ≡ self.now.seat }
    {
        self.seat
    }

    /// How many receipts were given for this pass.
    pub fn calls(&self) -> u64
        ensures { result ≡ self.now.calls }
    {
        self.calls
    }

    /// The samples of its reports that were booked.
    pub fn booked(&self) -> u64
        ensures { result ≡ self.now.booked }
    {
        self.booked
    }
}
