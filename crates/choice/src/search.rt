// What a choice is made from, and what one set of bits costs there.
ghost use Rattle.std.specs.Prelude.{◌≡◌, ◌^◌, ◌≤◌, length};
ghost use Rattle.blocks.specs.Tallies.{SameCells};
ghost use Rattle.choice.specs.Offers.{cheaper_of};

use bits::Bits;
use blocks::Tally;
use judges::Judge;
use kinds::{Kind, Line};

// Lines, the area's length and a judge. Lines, at most 16,384, are only read.
#[derive(Drop)]
pub(crate) struct Search<'a, R, J> {
    pub lines: &'a [Line<R>],
    pub room: usize,
    pub judge: &'a J,
    ghost few: { length lines.now ≤ 16384 },
}

// A set of bits whose table fits, with its cost.
#[derive(Clone, Copy)]
pub(crate) struct Offer {
    pub bits: Bits,
    pub cost: u64,
}

impl<R, J: Judge> Search<'_, R, J> {
    ghost use Rattle.choice.specs.Searches.{offer_in};

    // A set with its cost, or none where its table does not fit.
    pub(crate) fn offer<K: Kind<Row = R>>(&self, tally: &mut Tally, bits: Bits) -> Option<Offer>
        requires { 2 ^ length bits ≤ length tally.old.cells.now }
        ensures answer { result ≡ offer_in K.meaning J.cost self.now bits }
        ensures kept { SameCells tally.old tally.new }
    {
        let cost = tally
            .cost::<K, J>(self.lines, &bits, self.room, self.judge)
            .ok()?;
        Some(Offer { bits, cost })
    }
}

impl Offer {
    // The cheaper of two, the first among equals.
    pub(crate) fn cheaper(first: Option<Offer>, second: Option<Offer>) -> Option<Offer>
        ensures { result ≡ cheaper_of first second }
    {
        match (first, second) {
            (Some(one), Some(other)) => Some(if other.cost < one.cost { other } else { one }),
            (one, other) => one.or(other),
        }
    }
}
