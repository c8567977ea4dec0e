// How often a phase repeats what it times, by how many lines there are: the more lines, the longer each takes.

// How often all headers are looked up.
pub(crate) const ROUNDS: usize = 64;

// So many times in all, shared among the lines.
fn shared(times: usize, lines: usize) -> usize {
    times / lines.max(1)
}

// How often a table is laid.
pub(crate) fn lays(lines: usize) -> usize {
    shared(200_000, lines).max(1)
}

// How many headers are sought in all lines.
pub(crate) fn searches(lines: usize, headers: usize) -> usize {
    shared(20_000_000, lines).max(1).min(4096).min(headers)
}

// How often a rule is put into a line.
pub(crate) fn puts(lines: usize) -> usize {
    shared(50_000, lines).max(8)
}

// Where so many strides from a start lead to, round and round below an end; 0 where nothing is below it.
pub(crate) fn strided(start: usize, stride: usize, times: usize, end: usize) -> usize {
    stride
        .wrapping_mul(times)
        .wrapping_add(start)
        .checked_rem(end)
        .unwrap_or(0)
}
