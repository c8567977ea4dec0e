// The judge by the squares of all blocks.
ghost use Rattle.std.specs.Prelude.{◌≡◌, ◌+◌, ◌-◌, ◌*◌, ◌^◌, min};
ghost use Rattle.judges.specs.Costs.{capped_squares};
ghost use Rattle.std.proofs.Common.{rules};

use super::judge::Judge;

// The largest cost, 2^63 - 1.
const CAP: u64 = 0x7fff_ffff_ffff_ffff;

// Tells the sum of the squares of the sizes, or 2^63 - 1 where that is larger.
#[derive(Clone, Copy, Debug, PartialEq, Eq)]
pub struct Squares;

impl Judge for Squares {
    ghost cost = { λ _ sizes. capped_squares sizes };

    ghost below = { Prim.search rules };

    // A loop over the sizes with a saturating sum and no `fold`: a rule of the project.
    fn cost_of(&self, sizes: &[u32]) -> u64 {
        let mut sum: u64 = 0;
        for size in sizes {
            sum = with_square(sum, *size);
        }
        sum
    }
}

// A sum with the square of one size more, and the cap where that is larger.
fn with_square(sum: u64, size: u32) -> u64
    ensures { result ≡ min (sum + size * size) (2 ^ 63 - 1) }
{
    let side = u64::from(size);
    sum.saturating_add(side * side).min(CAP)
}
