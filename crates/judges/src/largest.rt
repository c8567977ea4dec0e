// The judge by the largest block.
ghost use Rattle.judges.specs.Costs.{largest};
ghost use Rattle.judges.specs.CostsLemmas.{largest_fits};

use super::judge::Judge;

// Tells the largest size, or 0 where there is none.
#[derive(Clone, Copy, Debug, PartialEq, Eq)]
pub struct Largest;

impl Judge for Largest {
    ghost cost = { λ _ sizes. largest sizes };

    ghost below = { λ _ sizes low. largest_fits sizes low };

    // A `fold` and no `max`: tried, and that the answer of `max` is the largest was not found.
    fn cost_of(&self, sizes: &[u32]) -> u64 {
        sizes
            .iter()
            .fold(0, |most, size| most.max(u64::from(*size)))
    }
}
