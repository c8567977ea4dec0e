// The binary digits of a number.
ghost use Rattle.std.specs.Prelude.{◌≡◌};
ghost use Rattle.kinds.specs.Bits.{digit};

// Whether the digit of weight 2 ^ place is 1.
pub fn digit(number: u64, place: usize) -> bool
    ensures { result ≡ digit number place }
{
    place < 64 && (number >> place) % 2 == 1
}
