// A record of a job.

// Where it begins, its kind, and its body as a part of the job itself.
#[derive(Clone, Copy, Debug)]
pub struct Record<'a> {
    pub offset: usize,
    pub kind: u16,
    pub body: &'a [u8],
}

// The job ends inside the record that begins here.
#[derive(Clone, Copy, Debug)]
pub struct CutOff {
    pub offset: usize,
}
