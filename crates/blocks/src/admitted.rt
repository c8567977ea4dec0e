// The cells whose blocks name a line.
ghost use Rattle.std.specs.Prelude.{◌≡◌, ℕ, ◌^◌, [], length, filter, None, Some};
ghost use Rattle.std.specs.List.{range_with_len};
ghost use Rattle.std.specs.Iterator.{YieldsFirst, item_count};
ghost use Rattle.kinds.specs.Values.{cells_of};
ghost use Rattle.blocks.specs.Admitted.{passes};

use bits::Bits;
use kinds::{Cells, Kind, Masked, Span};
use std::marker::Model;

// The cells that are left, in rising order. No `==`: nothing compares them.
pub struct Admitted<'a, K: Kind> {
    cells: Cells,
    // The rule, where its kind does not tell its cells and each is asked for.
    asked: Option<K::Rule>,
    bits: &'a Bits,
}

impl<'a, K: Kind> Model for Admitted<'a, K> {
    ghost use Rattle.std.specs.Prelude.{ℕ, List, filter};
    ghost use Rattle.blocks.specs.Admitted.{passes};

    ghost Value = { List ℕ };

    ghost view = { λ a. filter (passes K.meaning a.asked a.bits.now) a.cells };
}

impl<K: Kind> Drop for Admitted<'_, K> {
    fn drop(self) {
        let Admitted {
            cells: _,
            asked: _,
            bits: _,
        } = self;
    }
}

impl<'a, K: Kind> Admitted<'a, K> {
    // No cell at all.
    #[inline(always)]
    pub(crate) fn none(bits: &'a Bits) -> Admitted<'a, K>
        ensures { result ≡ [] }
    {
        Admitted {
            cells: Cells::new(Masked::none(), Span::WHOLE, Span::WHOLE),
            asked: None,
            bits,
        }
    }

    // Cells that a kind tells.
    #[inline(always)]
    pub(crate) fn told(cells: Cells, bits: &'a Bits) -> Admitted<'a, K>
        ensures { result ≡ cells }
    {
        Admitted {
            cells,
            asked: None,
            bits,
        }
    }

    // The cells of some bits that a rule admits, each of which is asked for.
    pub(crate) fn asked(rule: K::Rule, bits: &'a Bits) -> Admitted<'a, K>
        ensures { result ≡ cells_of (K.meaning.admits rule) bits.now }
    {
        Admitted {
            cells: Cells::all(bits),
            asked: Some(rule),
            bits,
        }
    }
}

impl<K: Kind> Iterator for Admitted<'_, K> {
    type Item = usize;

    ghost next_gives = { YieldsFirst (λ left. left) };

    ghost remaining = { item_count (λ left. left) };

    #[inline(always)]
    fn next(&mut self) -> Option<usize> {
        while let Some(cell) = self.cells.next() {
            let passes = match &self.asked {
                None => true,
                Some(rule) => K::admits(rule, self.bits, cell),
            };
            if passes {
                return Some(cell);
            }
        }
        None
    }
}
