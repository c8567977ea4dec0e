// A field's part in the numbers of cells, of which a rule leaves some out though it admits each digit alone.
ghost use Rattle.std.specs.Prelude.{◌≡◌};
ghost use Rattle.kinds.specs.Spans.{in_span};

// Digits side by side, and which values they may have together.
#[derive(Clone, Copy, Debug)]
pub struct Span {
    // A mask of the digits.
    pub digits: usize,
    // One end of the values and the other, as they stand in a number.
    pub from: usize,
    pub to: usize,
    // Whether the values go around: from the one end up, and from the other down. Else they lie between.
    pub around: bool,
}

impl Span {
    // No digits, and so nothing left out.
    pub const WHOLE: Span = Span {
        digits: 0,
        from: 0,
        to: 0,
        around: true,
    };

    // Whether a number's digits have one of the values.
    #[inline(always)]
    pub fn has(&self, cell: usize) -> bool
        ensures { result ≡ in_span self.now cell }
    {
        let value = cell & self.digits;
        // No branch: neither answer is likelier.
        let above = self.from <= value;
        let below = value <= self.to;
        (above & below) | (self.around & (above | below))
    }
}
