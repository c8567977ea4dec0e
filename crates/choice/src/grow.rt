// Fast-Growth: the best bit is added, one at a time, while that gains.
ghost use Rattle.std.specs.Prelude.{◌≡◌, ◌+◌, ◌^◌, ◌<◌, ◌≤◌, length, None, if◌then◌else◌};
ghost use Rattle.bits.specs.Sets.{with_bit};
ghost use Rattle.blocks.specs.Tallies.{SameCells};
ghost use Rattle.choice.specs.Growth.{is_free};
ghost use Rattle.choice.specs.Searches.{offer_in, Costed, BestOf, Grows};

use super::search::{Offer, Search};
use bits::Bits;
use blocks::Tally;
use judges::Judge;
use kinds::Kind;

impl<R, J: Judge> Search<'_, R, J> {
    // The set with one bit more, or none where that is in it or the table does not fit.
    fn offer_with<K: Kind<Row = R>>(
        &self,
        tally: &mut Tally,
        bits: &Bits,
        bit: usize,
    ) -> Option<Offer>
        requires below { bit < 1024 }
        requires few { length bits.now < 12 }
        requires room { 2 ^ (length bits.now + 1) ≤ length tally.old.cells.now }
        ensures answer { result ≡ (if is_free bits.now bit then offer_in K.meaning J.cost self.now (with_bit bit bits.now) else None) }
        ensures kept { SameCells tally.old tally.new }
    {
        self.offer::<K>(tally, bits.with(bit)?)
    }

    // The set with the best bit more, or none where no bit may be added.
    #[tactic(auto, using(crate::proofs::Grows::best_turn))]
    fn best<K: Kind<Row = R>>(&self, tally: &mut Tally, bits: &Bits) -> Option<Offer>
        requires few { length bits.now < 12 }
        requires room { 2 ^ (length bits.now + 1) ≤ length tally.old.cells.now }
        ensures answer { BestOf K.meaning J.cost self.now bits.now result }
        ensures kept { SameCells tally.old tally.new }
    {
        let mut best: Option<Offer> = None;
        for bit in 0..K::width() {
            best = Offer::cheaper(best, self.offer_with::<K>(tally, bits, bit));
        }
        best
    }

    // The set at which growth from a set ends, at most so many bits.
    #[tactic(auto, using(crate::proofs::Grows::grows, crate::proofs::Grows::gains_nothing, crate::proofs::Grows::stays_full, crate::proofs::Grows::stays_stuck, crate::proofs::Grows::longer, crate::proofs::Grows::costed_too))]
    pub(crate) fn grow<K: Kind<Row = R>>(
        &self,
        tally: &mut Tally,
        start: Offer,
        most: usize,
    ) -> Offer
        requires few { most ≤ 12 }
        requires room { 2 ^ most ≤ length tally.old.cells.now }
        requires costed { Costed K.meaning J.cost self.now start }
        ensures grown { Grows K.meaning J.cost self.now most start.bits result.bits }
        ensures costed { Costed K.meaning J.cost self.now result }
        ensures kept { SameCells tally.old tally.new }
    {
        let mut present = start;
        while present.bits.len() < most {
            match self.best::<K>(tally, &present.bits) {
                Some(next) if next.cost < present.cost => present = next,
                _ => break,
            }
        }
        present
    }
}
