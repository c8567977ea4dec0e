// What the client prints of an answer and a refusal.
use kinds::FaultCode;
use std::io;

// The answer to a header, or why there was none. It prints a whole line by cases; a type with a `Display` would say no more.
pub(crate) fn answer<F>(
    rt: &impl Print,
    answer: Result<(Option<usize>, usize), F>,
) -> io::Result<()>
where
    FaultCode: From<F>,
{
    match answer {
        Ok((Some(line), compared)) => {
            println!(rt; "  answered by line {line}, lines compared: {compared}")
        }
        Ok((None, compared)) => {
            println!(rt; "  answered by no line, lines compared: {compared}")
        }
        Err(fault) => refusal(rt, fault),
    }
}

// Why a line or an answer was refused: a whole line of the program, of which `FaultCode` prints its part.
pub(crate) fn refusal<F>(rt: &impl Print, fault: F) -> io::Result<()>
where
    FaultCode: From<F>,
{
    println!(rt; "  refused {}", FaultCode::from(fault))
}
