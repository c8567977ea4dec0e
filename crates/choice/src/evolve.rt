// Intelli-Evolution: a chosen bit is exchanged for another, one at a time, while that gains.
ghost use Rattle.std.specs.Prelude.{◌≡◌, ◌^◌, ◌<◌, ◌≤◌, true, length, map};
ghost use Rattle.bits.specs.Sets.{member, exchanged};
ghost use Rattle.blocks.specs.Tallies.{SameCells};
ghost use Rattle.choice.specs.Evolution.{unchosen, exchanges};
ghost use Rattle.choice.specs.Searches.{offer_in, Costed, Evolves};
ghost use Rattle.choice.specs.Tries.{try_of, exchange_try, tries_of};

use super::choice::{Choice, Outcome};
use super::search::{Offer, Search};
use bits::Bits;
use blocks::Tally;
use judges::Judge;
use kinds::Kind;
use std::ops::ControlFlow;

// How going through exchanges ends before all have passed.
pub(crate) enum Ended {
    // One is taken, and so many tries are left.
    Taken(Offer, u32),
    // The tries are spent.
    Spent,
}

impl<R, J: Judge> Search<'_, R, J> {
    // Tries a set, where a try is left: takes it if it costs less, and else goes on with a try less.
    fn try_one<K: Kind<Row = R>>(
        &self,
        tally: &mut Tally,
        cost: u64,
        bits: Bits,
        left: u32,
    ) -> ControlFlow<Ended, u32>
        requires { 2 ^ length bits ≤ length tally.old.cells.now }
        ensures answer { result ≡ try_of (offer_in K.meaning J.cost self.now) cost bits left }
        ensures kept { SameCells tally.old tally.new }
    {
        if left == 0 {
            return ControlFlow::Break(Ended::Spent);
        }
        match self.offer::<K>(tally, bits) {
            Some(next) if next.cost < cost => ControlFlow::Break(Ended::Taken(next, left - 1)),
            _ => ControlFlow::Continue(left - 1),
        }
    }

    // Tries one exchange, unless the bit in is chosen.
    fn try_exchange<K: Kind<Row = R>>(
        &self,
        tally: &mut Tally,
        present: &Offer,
        out: usize,
        joining: usize,
        left: u32,
    ) -> ControlFlow<Ended, u32>
        requires has { member out present.now.bits ≡ true }
        requires below { joining < 1024 }
        requires room { 2 ^ length present.now.bits ≤ length tally.old.cells.now }
        ensures answer { result ≡ exchange_try (offer_in K.meaning J.cost self.now) present.now.cost present.now.bits out joining left }
        ensures kept { SameCells tally.old tally.new }
    {
        match present.bits.exchanged(out, joining) {
            Some(bits) => self.try_one::<K>(tally, present.cost, bits, left),
            None => ControlFlow::Continue(left),
        }
    }

    // Tries the exchanges of one bit out: the bit in rising.
    #[tactic(auto, using(crate::proofs::Tries::row_try))]
    fn try_without<K: Kind<Row = R>>(
        &self,
        tally: &mut Tally,
        present: &Offer,
        out: usize,
        tries: u32,
    ) -> ControlFlow<Ended, u32>
        requires has { member out present.now.bits ≡ true }
        requires room { 2 ^ length present.now.bits ≤ length tally.old.cells.now }
        ensures answer { result ≡ tries_of (offer_in K.meaning J.cost self.now) present.now.cost (map (exchanged present.now.bits out) (unchosen K.meaning.width present.now.bits)) tries }
        ensures kept { SameCells tally.old tally.new }
    {
        let mut left = tries;
        for joining in 0..K::width() {
            left = self.try_exchange::<K>(tally, present, out, joining, left)?;
        }
        ControlFlow::Continue(left)
    }

    // Tries all exchanges: the bit out rising, and for each the bit in, rising.
    #[tactic(auto, using(crate::proofs::Tries::rows_try, crate::proofs::Tries::member_later))]
    fn try_exchanges<K: Kind<Row = R>>(
        &self,
        tally: &mut Tally,
        present: &Offer,
        tries: u32,
    ) -> ControlFlow<Ended, u32>
        requires { 2 ^ length present.now.bits ≤ length tally.old.cells.now }
        ensures answer { result ≡ tries_of (offer_in K.meaning J.cost self.now) present.now.cost (exchanges K.meaning.width present.now.bits) tries }
        ensures kept { SameCells tally.old tally.new }
    {
        let mut left = tries;
        for out in &present.bits {
            left = self.try_without::<K>(tally, present, out, left)?;
        }
        ControlFlow::Continue(left)
    }

    // The choice that evolution from a set ends with, after so many tries at most.
    #[tactic(auto, using(crate::proofs::Evolves::way_starts, crate::proofs::Evolves::settles, crate::proofs::Evolves::stops))]
    pub(crate) fn evolve<K: Kind<Row = R>>(
        &self,
        tally: &mut Tally,
        start: Offer,
        tries: u32,
    ) -> Choice
        requires room { 2 ^ length start.bits ≤ length tally.old.cells.now }
        requires costed { Costed K.meaning J.cost self.now start }
        ensures evolved { Evolves K.meaning J.cost self.now start.bits tries result.bits result.tries result.outcome }
        ensures kept { SameCells tally.old tally.new }
    {
        let mut present = start;
        let mut left = tries;
        loop {
            match self.try_exchanges::<K>(tally, &present, left) {
                ControlFlow::Break(Ended::Taken(next, rest)) => {
                    present = next;
                    left = rest;
                }
                ControlFlow::Break(Ended::Spent) => {
                    return Choice {
                        bits: present.bits,
                        tries,
                        outcome: Outcome::Stopped,
                    };
                }
                ControlFlow::Continue(rest) => {
                    return Choice {
                        bits: present.bits,
                        tries: tries - rest,
                        outcome: Outcome::Settled,
                    };
                }
            }
        }
    }
}
