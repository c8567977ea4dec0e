// A change of one line that is looked at before it is made.
use kinds::Line;

// The line that is to stand at a place.
#[derive(Clone, Copy, Debug, PartialEq, Eq)]
pub struct Change<R> {
    pub place: usize,
    pub line: Line<R>,
}
