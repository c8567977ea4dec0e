// Rules that say of each bit alone what they admit there.
ghost use Rattle.std.specs.Prelude.{◌≡◌, ℕ, Bool};
ghost use Rattle.bits.specs.Chosen.{IsBits};
ghost use Rattle.kinds.specs.Values.{each, valued};

use super::digits::digit;
use bits::Bits;

pub trait Alone {
    // What is admitted at a bit, whatever stands at the others.
    ghost alone: { Self → ℕ → Bool → Bool };

    fn admits_alone(&self, b: usize, value: bool) -> bool
        ensures { result ≡ alone self.now b value };
}

// Whether each bit alone admits the value that a number gives it, the first bit most significant.
pub fn admits_each<R: Alone>(rule: &R, bits: &Bits, cell: usize) -> bool
    ensures answer { result ≡ each (R.alone rule.now) (valued bits.now cell) }
    ensures bits { IsBits bits.now }
{
    let mut behind = bits.len();
    for bit in bits {
        behind -= 1;
        if !rule.admits_alone(bit, digit(cell as u64, behind)) {
            return false;
        }
    }
    true
}
