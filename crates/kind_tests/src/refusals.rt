// What a reading or a row is refused with, to be compared.
use kinds::FaultCode;

// The code of a refusal, or none where there is none.
pub(crate) fn refusal<T: Drop, F>(answer: Result<T, F>) -> Option<FaultCode>
where
    FaultCode: From<F>,
{
    answer.err().map(FaultCode::from)
}

// A refusal of this layer by its number and its place.
pub(crate) fn refused(number: u16, place: usize) -> Option<FaultCode> {
    Some(FaultCode {
        number,
        layer: 1,
        place,
    })
}
