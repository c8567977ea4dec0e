// Choices as the tests compare them.
use choice::{Choice, Outcome, Refusal};

// How many bits, the first two of them, the tries, and how it ended.
pub(crate) type Told = Result<(usize, usize, usize, u32, Outcome), Refusal>;

pub(crate) fn told(chosen: Result<Choice, Refusal>) -> Told {
    let choice = chosen?;
    let bits = choice.bits;
    Ok((
        bits.len(),
        bits.at(0),
        bits.at(1),
        choice.tries,
        choice.outcome,
    ))
}
