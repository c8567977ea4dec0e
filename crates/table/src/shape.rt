// What a measured book and a laid table are, in numbers.
ghost use Rattle.std.specs.Prelude.{◌≡◌, ◌≤◌};

use super::refusal::Refusal;
use bits::Bits;

// How many lines, how long an area, and the chosen bits.
#[derive(Drop)]
pub(crate) struct Shape {
    pub lines: usize,
    pub area: usize,
    pub bits: Bits,
    ghost few: { lines ≤ 16384 },
}

impl Shape {
    ghost use Rattle.table.specs.Checks.{verdict, memory_checks};

    // Whether memory of such lengths is the table's.
    pub(crate) fn check(&self, lines: usize, area: usize) -> Result<(), Refusal>
        ensures { result ≡ verdict (memory_checks self.now lines area) }
    {
        if lines != self.lines || area != self.area {
            return Err(Refusal::OtherMemory);
        }
        Ok(())
    }
}
