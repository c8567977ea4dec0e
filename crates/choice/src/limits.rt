// What is asked of a choice.
ghost use Rattle.std.specs.Prelude.{◌≡◌, Ok, Err, if◌then◌else◌};
ghost use Rattle.choice.specs.Checks.{asks_too_much};
ghost use Rattle.choice.specs.declared.refusal.Refusal.TheVariants.{TooMuchAsked};

use super::refusal::Refusal;
use kinds::Kind;

// The most bits and the most tries. No `==`: nothing compares limits.
#[derive(Clone, Copy, Debug)]
pub struct Limits {
    pub most_bits: usize,
    pub most_tries: u32,
}

// The most bits and the most tries that may be asked for.
const MOST_BITS: usize = 12;

const MOST_TRIES: u32 = 1_000_000;

impl Limits {
    // Refuses more bits or more tries than may be asked for a kind of header.
    pub(crate) fn check<K: Kind>(&self) -> Result<(), Refusal>
        ensures { result ≡ (if asks_too_much K.meaning.width self.now then Err TooMuchAsked else Ok tt) }
    {
        if self.most_bits > MOST_BITS
            || self.most_bits > K::width()
            || self.most_tries > MOST_TRIES
        {
            return Err(Refusal::TooMuchAsked);
        }
        Ok(())
    }
}
