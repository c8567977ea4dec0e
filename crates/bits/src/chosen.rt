// A set of bits as a count reads it for each line.
ghost use Rattle.std.specs.Prelude.{◌≡◌, ◌^◌, ◌<◌, ◌≤◌, length};
ghost use Rattle.bits.specs.Chosen.{IsBits};
ghost use Rattle.bits.specs.Sixteens.{worth};

use super::set::Bits;
use std::marker::Model;

// A set of bits, made once for many lines: each reads the arrays faster than the set.
// No `==`: nothing compares them.
#[derive(Debug, Drop)]
pub struct Chosen {
    bits: Bits,
    // Its places, the bits in rising order first.
    places: [u16; 12],
    // Of each sixteen bits, those in the set.
    sixteens: [u32; 64],
}

impl Model for Chosen {
    ghost use Rattle.std.specs.Prelude.{ℕ, List};
    ghost use Rattle.bits.specs.Sixteens.{bits_of, IsMade};

    ghost Value = { List ℕ };

    ghost view = { bits_of };

    ghost invariant = { IsMade };
}

impl Chosen {
    ghost use Rattle.bits.specs.Sixteens.{sixteen};

    // A set's bits.
    pub fn new(bits: &Bits) -> Chosen
        ensures { result ≡ bits.now }
    {
        let mut sixteens = [0; 64];
        for bit in bits {
            sixteens[bit / 16] += worth(bit, bit / 16);
        }
        Chosen {
            bits: *bits,
            places: bits.places(),
            sixteens,
        }
    }

    // The bits one by one.
    #[inline(always)]
    pub fn as_slice(&self) -> &[u16]
        ensures bits { result.now ≡ self.now }
        ensures is { IsBits result.now }
    {
        &self.places[..self.bits.len()]
    }

    // How many values the bits can have together.
    #[inline(always)]
    pub fn cells(&self) -> usize
        ensures answer { result ≡ 2 ^ length self.now }
        ensures few { result ≤ 4096 }
    {
        self.bits.cells()
    }

    // The bits of the set from 16 k to 16 k + 15, as the digits of a number with the first bit most significant; 0 from k = 64 on.
    #[inline(always)]
    pub fn sixteen(&self, k: usize) -> u32
        ensures answer { result ≡ sixteen k self.now }
        ensures bits { IsBits self.now }
    {
        match self.sixteens.get(k) {
            Some(digits) => *digits,
            None => 0,
        }
    }
}

// What a bit is worth in a sixteen, or 0 where it lies in another.
#[inline(always)]
pub fn worth(bit: usize, sixteen: usize) -> u32
    ensures answer { result ≡ worth sixteen bit }
    ensures few { result < 65536 }
{
    if bit / 16 == sixteen {
        1 << (15 - bit % 16)
    } else {
        0
    }
}
