// Zeroing lent memory.
ghost use Rattle.std.specs.Prelude.{◌≡◌, ◌-◌, ◌++◌, length, take, replicate};

// Zeroes numbers from a place on.
pub fn clear_from(numbers: &mut [u32], at: usize)
    ensures { numbers.new ≡ take at numbers.old ++ replicate (length numbers.old - at) 0 }
{
    let at = at.min(numbers.len());
    numbers[at..].fill(0);
}
