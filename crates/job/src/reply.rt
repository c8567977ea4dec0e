// The line that is printed for a record.
ghost use Rattle.std.specs.Prelude.{◌≡◌, true, Some, OnOk, IfErr};
ghost use Rattle.std.specs.Io.KnownBytes.{Appends};
ghost use Rattle.job.specs.Replies.{has_line, reply_text};

use super::answer::Answer;
use super::fault::Fault;
use kinds::FaultCode;
use std::{fmt, io};

// A record's answer, and where the record begins. No `==`: nothing compares replies.
#[derive(Clone, Copy, Debug)]
pub struct Reply {
    pub offset: usize,
    pub answer: Result<Answer, Fault>,
}

impl Reply {
    // Whether it has a line.
    fn has_line(&self) -> bool
        ensures { result ≡ has_line self.now }
    {
        !matches!(self.answer, Ok(Answer::Done))
    }

    // Prints its line, if it has one.
    pub fn print<W: io::Write>(&self, out: &mut W) -> io::Result<()>
        ensures text { OnOk result (Appends (W.contents out.old) (W.contents out.new) (reply_text self.now)) }
        ensures failed { IfErr result (λ _. has_line self.now ≡ true) }
    {
        if self.has_line() {
            write!(out, "{self}")?;
        }
        Ok(())
    }
}

// One line with its end, or nothing where something was only done.
impl fmt::Display for Reply {
    ghost output = { λ reply. Some (reply_text reply) };

    fn fmt<W: fmt::Write>(&self, f: &mut fmt::Formatter<W>) -> fmt::Result {
        match self.answer {
            Ok(Answer::Done) => Ok(()),
            Ok(Answer::Chosen(choice)) => {
                let bits = choice.bits.len();
                let tries = choice.tries;
                let outcome = choice.outcome;
                writeln!(f, "bits {bits} tries {tries} {outcome}")
            }
            Ok(Answer::Found(Some(line), tried)) => writeln!(f, "{line} {tried}"),
            Ok(Answer::Found(None, tried)) => writeln!(f, "none {tried}"),
            Err(fault) => {
                let code = FaultCode::from(fault);
                let offset = self.offset;
                writeln!(f, "refused {code} at {offset}")
            }
        }
    }
}
