// A judge: one cost for each list of block sizes. It refuses nothing and changes nothing.
ghost use Rattle.std.specs.Prelude.{◌≡◌, ℕ, ◌^◌, ◌<◌, List, length, slice_index};

pub trait Judge {
    // The cost of each list of sizes.
    ghost cost: { Self → List ℕ → ℕ };

    // The cost of a list of block sizes in cell order.
    fn cost_of(&self, sizes: &[u32]) -> u64
        ensures { result ≡ cost self.now sizes.now };

    // Sizes of 32 bits cost less than 2^63.
    ghost below: { (judge : Self) (sizes : List ℕ) → ((k : ℕ) → k < length sizes → slice_index sizes k < 2 ^ 32) → cost judge sizes < 2 ^ 63 };
}
