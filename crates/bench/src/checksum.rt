// One number for many, in their order.

// It changes with each number that is fed.
#[derive(Clone, Copy)]
pub(crate) struct Checksum(u64);

impl Checksum {
    pub(crate) fn new() -> Checksum {
        Checksum(0)
    }

    pub(crate) fn feed(&mut self, number: u64) {
        self.0 = self
            .0
            .wrapping_mul(6_364_136_223_846_793_005)
            .wrapping_add(number.wrapping_add(1));
    }

    pub(crate) fn feed_all(&mut self, numbers: &[u32]) {
        for number in numbers {
            self.feed(u64::from(*number));
        }
    }

    pub(crate) fn value(&self) -> u64 {
        self.0
    }
}

// What was found for many headers: a checksum of all answers, and how many lines or entries were tried for them.
#[derive(Clone, Copy)]
pub(crate) struct Answers {
    pub(crate) sum: Checksum,
    pub(crate) tried: u64,
}

impl Answers {
    pub(crate) fn new() -> Answers {
        Answers {
            sum: Checksum::new(),
            tried: 0,
        }
    }

    // Feeds the line and one more, or 0 for none, and then how many were tried.
    pub(crate) fn feed(&mut self, answer: (Option<usize>, usize)) {
        let (line, tried) = answer;
        // `as`, here and below: there is no `From<usize>` for `u64`.
        self.sum
            .feed(line.map_or(0, |line| (line as u64).wrapping_add(1)));
        self.sum.feed(tried as u64);
        self.tried = self.tried.wrapping_add(tried as u64);
    }
}
