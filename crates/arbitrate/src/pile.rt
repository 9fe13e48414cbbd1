//! An arbiter with up to three reservations on it.

ghost use Rattle.arbitrate.specs.Piles.{after_of, answer_of, ports_of, wait_of};
ghost use Rattle.arbiters.specs.Rules.{told};
ghost use Rattle.std.specs.Prelude.{◌≡◌};

use crate::answer::Fault;
use arbiters::{Arbiter, Reservation};
use pairs::Table;

/// An arbiter with up to three reservations on it.
// Each call has an arm for each depth: the depths are types of their own, and no function may make a boxed `dyn` value and hand it out.
#[derive(Drop)]
pub enum Pile<A: Arbiter> {
    Bare(A),
    One(Reservation<A>),
    Two(Reservation<Reservation<A>>),
    Three(Reservation<Reservation<Reservation<A>>>),
}

impl<A: Arbiter> Pile<A> {
    /// The wait of a pair.
    pub fn wait(&self, input: u8, output: u8) -> u16
        ensures { result ≡ told (ports_of A.meaning self.now) (wait_of A.meaning self.now) input output }
    {
        match self {
            Pile::Bare(arbiter) => arbiter.wait(input, output),
            Pile::One(arbiter) => arbiter.wait(input, output),
            Pile::Two(arbiter) => arbiter.wait(input, output),
            Pile::Three(arbiter) => arbiter.wait(input, output),
        }
    }

    /// The grants to the requests.
    pub fn decide(&mut self, requests: Table) -> Table
        ensures answer { result ≡ answer_of A.meaning self.old requests }
        ensures after { self.new ≡ after_of A.meaning self.old requests }
    {
        match self {
            Pile::Bare(arbiter) => arbiter.decide(requests),
            Pile::One(arbiter) => arbiter.decide(requests),
            Pile::Two(arbiter) => arbiter.decide(requests),
            Pile::Three(arbiter) => arbiter.decide(requests),
        }
    }

    /// Reserves a pair at the topmost reservation.
    pub fn reserve(&mut self, input: u8, output: u8) -> Result<(), Fault> {
        match self {
            Pile::Bare(_) => return Err(Fault::NoReservation),
            Pile::One(arbiter) => arbiter.reserve(input, output)?,
            Pile::Two(arbiter) => arbiter.reserve(input, output)?,
            Pile::Three(arbiter) => arbiter.reserve(input, output)?,
        }
        Ok(())
    }

    /// Puts a reservation on top, and says how that went.
    pub fn put(self, slots: u8) -> (Pile<A>, Result<(), Fault>) {
        match self {
            Pile::Bare(below) => match Reservation::new(below, slots) {
                Ok(one) => (Pile::One(one), Ok(())),
                Err(e) => (Pile::Bare(e.below), Err(Fault::Refused(e.why))),
            },
            Pile::One(below) => match Reservation::new(below, slots) {
                Ok(two) => (Pile::Two(two), Ok(())),
                Err(e) => (Pile::One(e.below), Err(Fault::Refused(e.why))),
            },
            Pile::Two(below) => match Reservation::new(below, slots) {
                Ok(three) => (Pile::Three(three), Ok(())),
                Err(e) => (Pile::Two(e.below), Err(Fault::Refused(e.why))),
            },
            Pile::Three(full) => (Pile::Three(full), Err(Fault::PileFull)),
        }
    }
}
