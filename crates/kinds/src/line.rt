// One line of a book: filled if it is marked and its row holds a rule, else empty.
// A mark beside the row and no `Option`: a rule of the project, since any lent memory is a line, and striking one clears its mark alone.
#[derive(Clone, Copy, Debug, PartialEq, Eq)]
pub struct Line<R> {
    pub mark: bool,
    pub row: R,
}
