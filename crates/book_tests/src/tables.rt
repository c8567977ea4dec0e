// The table of the seven lines for two bits, in memory of its own.
use bridge::{Bridge, Row};
use choice::Limits;
use judges::Largest;
use kinds::{FaultCode, Line};
use table::{Fault, LaidTable, OpenBook};

// Two bits at most.
pub(crate) const TWO_BITS: Limits = Limits {
    most_bits: 2,
    most_tries: 1000,
};

// A book with the seven lines, which are put into it.
pub(crate) fn book(lines: &mut [Line<Row>; 7]) -> Result<OpenBook<Bridge>, FaultCode> {
    let book = OpenBook::<Bridge>::open(lines)?;
    for (at, line) in seven_lines::lines().iter().enumerate() {
        if let Some(rule) = kinds::rule_of::<Bridge>(line) {
            book.put(lines, at, &rule)?;
        }
    }
    Ok(book)
}

// Their table, by the largest block.
pub(crate) fn table(
    lines: &mut [Line<Row>; 7],
    area: &mut [u32],
) -> Result<LaidTable<Bridge>, FaultCode> {
    let mut tally = [9u32; 4];
    let (measured, _) = book(lines)?
        .measure(lines, area.len(), &Largest, TWO_BITS, &mut tally)
        .map_err(|refused| refused.fault)?;
    let table = measured
        .lay(lines, area, &mut tally)
        .map_err(|refused| refused.fault)?;
    Ok(table)
}

// A refusal by its number and place.
pub(crate) fn told(fault: Fault) -> (u16, usize) {
    let code = FaultCode::from(fault);
    (code.number, code.place)
}
