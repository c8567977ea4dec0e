// Port ranges.
ghost use Rattle.std.specs.Prelude.{◌≡◌, ◌⊎◌, ◌<◌, ◌≤◌, ℕ, ◌-◌, ◌^◌, ◌&&◌, true, false, List, Bool, length, nat_le};
ghost use Rattle.bits.specs.Chosen.{IsBits};
ghost use Rattle.kinds.specs.Values.{each, valued, Rises, AllBelow};
ghost use Rattle.kinds.specs.Spans.{in_span};
ghost use Rattle.routed.specs.Turns.{Turns, own, marks, ones, most, either};

use super::fault::Defect;
use bits::{Chosen, worth};
use kinds::Span;

// The ports from the low end to the high end, both included.
#[derive(Clone, Copy, Debug, PartialEq, Eq)]
pub struct PortRange {
    pub(crate) low: u16,
    pub(crate) high: u16,
    ghost ordered: { low ≤ high },
}

impl PortRange {
    ghost use Rattle.routed.specs.Ranges.{range_of, in_range, is_whole, ends_admit, range_admits};

    // The range of two ends, or what is wrong with them.
    pub fn new(low: u16, high: u16) -> Result<PortRange, Defect>
        ensures { result ≡ range_of low high }
    {
        if low > high {
            return Err(Defect::RangeOrder);
        }
        Ok(PortRange { low, high })
    }

    // Whether a port lies in the range.
    pub fn contains(&self, port: u16) -> bool
        ensures { result ≡ in_range self.now port }
    {
        self.low <= port && port <= self.high
    }

    // Whether every port lies in the range.
    pub(crate) fn is_whole(&self) -> bool
        ensures { result ≡ is_whole self.now }
    {
        self.low == 0 && self.high == 65535
    }

    // Whether some port in the range has a value at bit b, told from the two ends.
    pub(crate) fn admits(&self, b: usize, value: bool) -> bool
        requires { b < 16 }
        ensures { result ≡ ends_admit self.now b value }
    {
        let low = self.low >> (15 - b);
        let high = self.high >> (15 - b);
        // `|`, which asks both: neither answer is likelier.
        (low != high) | ((low % 2 == 1) == value)
    }

    // Whether the range admits all values together that each bit alone may have, at the bits of a sixteen.
    // At one bit or none it does. This is asked first, since it is the same for all rules of a count.
    #[inline(always)]
    pub(crate) fn is_even(&self, digits: u32) -> bool
        ensures even { result ≡ true → (asked : List (ℕ × Bool)) → Rises 0 asked → AllBelow 16 asked → marks asked ≡ digits → each (ends_admit self.now) asked ≡ range_admits self.now asked }
        ensures one { self.now.low ≡ self.now.high → result ≡ true }
    {
        // Read, so that it is known that it has sixteen bits.
        let _high = self.high;
        digits & digits.wrapping_sub(1) == 0 || self.reaches_all(digits)
    }

    // The same at any bits, told from the two ends. Not inlined, so that the way of counts with fewer bits stays short and in registers.
    #[inline(never)]
    fn reaches_all(self, digits: u32) -> bool
        requires { 0 < digits }
        ensures even { result ≡ true → (asked : List (ℕ × Bool)) → Rises 0 asked → AllBelow 16 asked → marks asked ≡ digits → each (ends_admit self) asked ≡ range_admits self asked }
        ensures one { self.low ≡ self.high → result ≡ true }
    {
        // The ends of most ranges differ, if at all, behind the last of the bits.
        if u32::from(self.low ^ self.high) >> digits.trailing_zeros() == 0 {
            return true;
        }
        let Turn {
            size,
            low,
            high,
            ..
        } = self.turn();
        let behind = digits % size;
        let down = behind + low < size;
        let up = behind <= high;
        let unmarked = digits & size == 0;
        // No branch: neither answer is likelier.
        (down & up) | (unmarked & (down | up))
    }

    // Where the ends differ first, and what they have behind that place.
    #[inline(always)]
    fn turn(&self) -> Turn
        ensures place { result.place < 16 }
        ensures size { result.size ≡ 2 ^ result.place }
        ensures few { result.low < result.size }
        ensures turns { ((self.now.low ≡ self.now.high) × (result.place ≡ 0)) ⊎ Turns self.now.low self.now.high result.place (result.size - 1 - result.low) result.high }
    {
        let place = u32::from(self.low ^ self.high).max(1).ilog2();
        let size = 1u32 << place;
        Turn {
            place,
            size,
            low: u32::from(self.low) % size,
            high: u32::from(self.high) % size,
        }
    }

    // The values that the digits of cells may have together where each bit alone is admitted, at the bits of a sixteen.
    #[inline(always)]
    pub(crate) fn span(&self, sixteen: usize, chosen: &Chosen) -> Span
        ensures { (cell : ℕ) → (each (ends_admit self.now) (own sixteen (valued chosen.now cell)) && in_span result cell) ≡ range_admits self.now (own sixteen (valued chosen.now cell)) }
    {
        let digits = chosen.sixteen(sixteen);
        if self.is_even(digits) {
            return Span::WHOLE;
        }
        let Turn {
            place,
            size,
            low,
            high,
        } = self.turn();
        let chosen = chosen.as_slice();
        let over = size - 1 - low;
        if digits & size == 0 {
            span_below(chosen, sixteen, place, over, high, true)
        } else {
            span_below(chosen, sixteen, place + 1, size + over, size + high, false)
        }
    }
}

// The highest place where the ends of a range differ, what the digit there is worth, and what the ends have behind it.
#[derive(Clone, Copy, Debug)]
struct Turn {
    place: u32,
    size: u32,
    low: u32,
    high: u32,
}

// Of the digits of a sixteen below a place, the span of the values that some number up to `under` has, or some number that is at most `over` below only ones; or that both have.
fn span_below(
    chosen: &[u16],
    sixteen: usize,
    place: u32,
    over: u32,
    under: u32,
    around: bool,
) -> Span
    requires bits { IsBits chosen.now }
    requires place { place ≤ 16 }
    ensures { (cell : ℕ) → in_span result cell ≡ either around (nat_le (ones place false (own sixteen (valued chosen.now cell))) over) (nat_le (ones place true (own sixteen (valued chosen.now cell))) under) }
{
    let size = 1 << place;
    let digits = most_up_to(chosen, sixteen, size, size - 1);
    Span {
        digits,
        from: digits - most_up_to(chosen, sixteen, size, over),
        to: most_up_to(chosen, sixteen, size, under),
        around,
    }
}

// In the numbers of cells, the largest that digits below a size make of the numbers up to an end.
fn most_up_to(chosen: &[u16], sixteen: usize, size: u32, end: u32) -> usize
    requires few { length chosen.now ≤ 12 }
    ensures most { result ≡ most sixteen size end chosen.now }
    ensures below { result < 2 ^ length chosen.now }
{
    let mut most = 0;
    let mut rest = end;
    for bit in chosen {
        most *= 2;
        let digit = worth(usize::from(*bit), sixteen);
        if 0 < digit && digit < size && digit <= rest {
            most += 1;
            rest = (rest - digit).min(digit - 1);
        }
    }
    most
}
