// Sets of bits: one more, one exchanged, and a full set.
use bits::Bits;
use std::test::Fail;

// The set of two bits.
pub(crate) fn pair(first: usize, second: usize) -> Option<Bits> {
    Bits::none().with(first)?.with(second)
}

// The bits from 0 to 11.
fn twelve() -> Option<Bits> {
    (0..12).try_fold(Bits::none(), |bits, bit| bits.with(bit))
}

#[test]
fn joins_bits(rt: HostRuntime) -> Result<(), Fail> {
    let bits = pair(5, 3).ok_or("refused")?;
    assert_eq!(rt; bits.len(), 2);
    assert_eq!(rt; bits.cells(), 4);
    assert_eq!(rt; bits.at(0), 3);
    assert_eq!(rt; bits.at(1), 5);
    assert!(rt; bits.with(5).is_none(), "a bit of its own");
    assert!(rt; bits.with(1023).is_some(), "the last bit");
    assert!(rt; bits.with(1024).is_none(), "no bit");
    Ok(())
}

#[test]
fn exchanges_bits(rt: HostRuntime) -> Result<(), Fail> {
    let bits = pair(3, 5).ok_or("refused")?;
    let other = bits.exchanged(3, 9).ok_or("not exchanged")?;
    assert_eq!(rt; other.len(), 2);
    assert_eq!(rt; other.at(0), 5);
    assert_eq!(rt; other.at(1), 9);
    assert!(rt;
        bits.exchanged(4, 9).is_none(),
        "a bit that is not in the set"
    );
    assert!(rt; bits.exchanged(3, 5).is_none(), "for a bit of its own");
    assert!(rt; bits.exchanged(3, 3).is_none(), "for itself");
    Ok(())
}

#[test]
fn fills_a_set(rt: HostRuntime) -> Result<(), Fail> {
    let bits = twelve().ok_or("refused")?;
    assert_eq!(rt; bits.cells(), 4096);
    assert!(rt; bits.with(12).is_none(), "a thirteenth bit");
    let other = bits.exchanged(0, 12).ok_or("not exchanged")?;
    assert_eq!(rt; other.at(0), 1);
    assert_eq!(rt; other.at(11), 12);
    Ok(())
}
