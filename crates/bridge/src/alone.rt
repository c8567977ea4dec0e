// What a bridge rule admits at each bit alone.
ghost use Rattle.bridge.specs.Bridge.{alone};

use super::rule::Rule;
use kinds::Alone;

impl Alone for Rule {
    ghost alone = { alone };

    #[inline(always)]
    fn admits_alone(&self, b: usize, value: bool) -> bool {
        if b < 112 {
            !self.mask.bit(b) || self.value.bit(b) == value
        } else {
            !value
        }
    }
}
