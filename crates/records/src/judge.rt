// The judge that a record names.
ghost use Rattle.records.specs.Judges.{named_cost};
ghost use Rattle.records.specs.JudgesLaw.{named_fits};

use judges::{Judge, Largest, Squares};

// One of the judges that there are, so that a record may name it.
#[derive(Clone, Copy, Debug, PartialEq, Eq)]
pub enum NamedJudge {
    Largest,
    Squares,
}

impl Judge for NamedJudge {
    ghost cost = { λ judge sizes. named_cost judge sizes };

    ghost below = { λ judge sizes low. named_fits judge sizes low };

    fn cost_of(&self, sizes: &[u32]) -> u64 {
        match self {
            NamedJudge::Largest => Largest.cost_of(sizes),
            NamedJudge::Squares => Squares.cost_of(sizes),
        }
    }
}
