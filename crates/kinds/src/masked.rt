// Numbers that are admitted bit by bit, found with two questions for each bit.
ghost use Rattle.std.specs.Prelude.{◌≡◌, ◌+◌, ◌^◌, ◌<◌, ◌≤◌, [], ◌∷◌, length, bit_and};
ghost use Rattle.std.specs.Iterator.{YieldsFirst, item_count};
ghost use Rattle.kinds.specs.Values.{each, cells_of};
ghost use Rattle.kinds.specs.Masks.{least, largest};
ghost use Rattle.kinds.specs.Parts.{parts, parts_left, AreDigits, IsCellCount};

use super::alone::Alone;
use bits::Chosen;
use std::marker::Model;

// The numbers that are left, in rising order. A digit is free where both values are admitted: it is 0 in some of the numbers and 1 in others.
// No `==`: nothing compares them.
#[derive(Drop)]
pub struct Masked {
    // The least number: its free digits are 0.
    least: usize,
    // A mask of the free digits.
    free: usize,
    // How many cells there are, less `free`. Added to some free digits it puts a one behind them, which the digits between carry on to the next free one.
    gap: usize,
    // The free digits of the next number, or none where no number is left.
    next: Option<usize>,
}

impl Model for Masked {
    ghost use Rattle.std.specs.Prelude.{ℕ, List};
    ghost use Rattle.kinds.specs.Masked.{cells_left, IsSound};

    ghost Value = { List ℕ };

    ghost view = { cells_left };

    ghost invariant = { IsSound };
}

impl Masked {
    // No number at all.
    pub fn none() -> Masked
        ensures { result ≡ [] }
    {
        Masked {
            least: 0,
            free: 0,
            gap: 1,
            next: None,
        }
    }
}

impl Iterator for Masked {
    type Item = usize;

    ghost next_gives = { YieldsFirst (λ left. left) };

    ghost remaining = { item_count (λ left. left) };

    #[inline(always)]
    fn next(&mut self) -> Option<usize> {
        let digits = self.next?;
        self.next = following(self.free, self.gap, digits);
        Some(self.least + digits)
    }
}

// Of the numbers made of a mask's digits, the next one above these digits, or none above the whole mask.
#[inline(always)]
fn following(mask: usize, gap: usize, digits: usize) -> Option<usize>
    requires power { IsCellCount (mask + gap) }
    requires gap { 0 < gap }
    requires digits { bit_and digits mask ≡ digits }
    ensures next { parts (mask + gap) mask digits ≡ digits ∷ parts_left (mask + gap) mask result }
    ensures digits { AreDigits mask result }
{
    if digits == mask {
        return None;
    }
    Some((digits + gap) & mask)
}

// The least number that is admitted, and the largest. Where none is, the first has a 1 that the second has not.
// No branch on what the rule answers, since neither answer is likelier. Two widths, since the compiler puts two numbers of one width into a vector, which is slower here.
#[inline(always)]
fn ends<R: Alone>(rule: &R, chosen: &[u16]) -> (usize, usize)
    requires { length chosen.now ≤ 12 }
    ensures { result ≡ (least (R.alone rule.now) chosen.now, largest (R.alone rule.now) chosen.now) }
{
    let mut least: usize = 0;
    let mut largest: u32 = 0;
    for bit in chosen {
        let bit = usize::from(*bit);
        least = 2 * least + usize::from(!rule.admits_alone(bit, false));
        largest = 2 * largest + u32::from(rule.admits_alone(bit, true));
    }
    (least, largest as usize)
}

// The numbers that a rule admits bit by bit, by the bits one by one and how many cells there are.
#[inline(always)]
fn masked_of<R: Alone>(rule: &R, chosen: &[u16], cells: usize) -> Masked
    requires short { length chosen.now ≤ 12 }
    requires all { cells ≡ 2 ^ length chosen.now }
    requires few { cells ≤ 4096 }
    ensures { result ≡ cells_of (each (R.alone rule.now)) chosen.now }
{
    let (least, largest) = ends(rule, chosen);
    let shared = least & largest;
    let free = largest - shared;
    let next = if shared == least { Some(0) } else { None };
    Masked {
        least,
        free,
        gap: cells - free,
        next,
    }
}

// The numbers that give some bits values which a rule admits bit by bit, in rising order.
#[inline(always)]
pub fn make_masked<R: Alone>(rule: &R, chosen: &Chosen) -> Masked
    ensures { result ≡ cells_of (each (R.alone rule.now)) chosen.now }
{
    masked_of(rule, chosen.as_slice(), chosen.cells())
}
