// Cells in rising order: of numbers that are admitted bit by bit, those that lie in two spans.
ghost use Rattle.std.specs.Prelude.{◌≡◌, ◌^◌, true, length, filter};
ghost use Rattle.std.specs.List.{range_with_len};
ghost use Rattle.std.specs.Iterator.{YieldsFirst, item_count};
ghost use Rattle.kinds.specs.Spans.{in_both};

use super::alone::Alone;
use super::masked::{Masked, make_masked};
use super::spans::Span;
use bits::{Bits, Chosen};
use std::marker::Model;

// The cells that are left. No `==`: nothing compares them.
#[derive(Drop)]
pub struct Cells {
    masked: Masked,
    first: Span,
    second: Span,
}

impl Model for Cells {
    ghost use Rattle.std.specs.Prelude.{ℕ, List};
    ghost use Rattle.kinds.specs.Cells.{cells_in};

    ghost Value = { List ℕ };

    ghost view = { cells_in };
}

impl Cells {
    // All cells of some bits.
    pub fn all(bits: &Bits) -> Cells
        ensures { result ≡ range_with_len 0 (2 ^ length bits.now) }
    {
        Cells {
            masked: make_masked(&Anything, &Chosen::new(bits)),
            first: Span::WHOLE,
            second: Span::WHOLE,
        }
    }

    // Of some numbers, those that lie in both spans.
    #[inline(always)]
    pub fn new(masked: Masked, first: Span, second: Span) -> Cells
        ensures { result ≡ filter (in_both first second) masked }
    {
        Cells {
            masked,
            first,
            second,
        }
    }
}

impl Iterator for Cells {
    type Item = usize;

    ghost next_gives = { YieldsFirst (λ left. left) };

    ghost remaining = { item_count (λ left. left) };

    #[inline(always)]
    fn next(&mut self) -> Option<usize> {
        while let Some(cell) = self.masked.next() {
            if self.first.has(cell) & self.second.has(cell) {
                return Some(cell);
            }
        }
        None
    }
}

// What admits both values at each bit.
struct Anything;

impl Alone for Anything {
    ghost alone = { λ it b v. true };

    fn admits_alone(&self, _b: usize, _value: bool) -> bool {
        true
    }
}
