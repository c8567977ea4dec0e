// What a record that is not refused is answered.

use choice::Choice;

// No `==`: nothing compares answers.
#[derive(Clone, Copy, Debug)]
pub enum Answer {
    // A book was opened, or a line put or struck.
    Done,
    // Bits were chosen, and the table was laid for them.
    Chosen(Choice),
    // The line that answers a packet or a frame, or none, and how many entries were tried.
    Found(Option<usize>, usize),
}
