// What a routed rule admits at each bit alone.
ghost use Rattle.routed.specs.Routed.{alone};

use super::rule::Rule;
use kinds::Alone;

impl Alone for Rule {
    ghost alone = { alone };

    #[inline(always)]
    fn admits_alone(&self, b: usize, value: bool) -> bool {
        match b {
            0..=31 => self.source.admits(b, value),
            32..=63 => self.destination.admits(b - 32, value),
            64..=79 => self.source_ports.admits(b - 64, value),
            80..=95 => self.destination_ports.admits(b - 80, value),
            96..=103 => self.protocol.admits(b - 96, value),
            _ => !value,
        }
    }
}
