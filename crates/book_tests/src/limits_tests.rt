// Books and tables at their limits.
use super::tables::{TWO_BITS, book, table, told};
use bridge::Bridge;
use judges::Squares;
use kinds::FaultCode;
use table::OpenBook;

#[test]
fn opens_16384_lines(rt: HostRuntime) {
    let mut lines = [seven_lines::lines()[6]; 16385];
    let more = OpenBook::<Bridge>::open(&mut lines).map(|_| ());
    assert_eq!(rt; more.map_err(told), Err((9, 0)), "one more");
    assert!(rt; lines[16383].mark, "as they were found");
    let most = OpenBook::<Bridge>::open(&mut lines[..16384]).map(|_| ());
    assert_eq!(rt; most, Ok(()), "the most");
    assert!(rt; !lines[16383].mark, "empty now");
    assert!(rt; lines[16384].mark, "not lent");
    let none = OpenBook::<Bridge>::open(&mut lines[..0]).map(|_| ());
    assert_eq!(rt; none.map_err(told), Err((9, 0)), "none");
}

#[test]
fn hands_back_what_is_refused(rt: HostRuntime) -> Result<(), FaultCode> {
    let mut lines = seven_lines::lines();
    let mut tally = [9u32; 4];
    let open = book(&mut lines)?;
    let refused = open.measure(&lines, 8, &Squares, TWO_BITS, &mut tally);
    let Err(refused) = refused else {
        assert!(rt; false, "it does not fit");
        return Ok(());
    };
    assert_eq!(rt; told(refused.fault), (13, 0));
    assert_eq!(rt; tally, [0u32; 4], "counting had begun");
    let again = refused
        .state
        .measure(&lines, 17, &Squares, TWO_BITS, &mut tally[..3]);
    assert_eq!(rt;
        again.map(|_| ()).map_err(|refused| told(refused.fault)),
        Err((14, 0))
    );
    Ok(())
}

#[test]
fn checks_in_one_order(rt: HostRuntime) -> Result<(), FaultCode> {
    let mut lines = seven_lines::lines();
    let mut area = [0u32; 17];
    let mut tally = [9u32; 3];
    let table = table(&mut lines, &mut area)?;
    let short = table.strike(&mut lines, &mut area[..16], &mut tally, 7);
    assert_eq!(rt; short.map_err(told), Err((15, 7)), "another length first");
    let past = table.strike(&mut lines, &mut area, &mut tally, 7);
    assert_eq!(rt; past.map_err(told), Err((10, 7)), "then no such line");
    lines[3].mark = false;
    let empty = table.strike(&mut lines, &mut area, &mut tally, 3);
    assert_eq!(rt; empty.map_err(told), Err((11, 3)), "then an empty one");
    let few = table.strike(&mut lines, &mut area, &mut tally, 4);
    assert_eq!(rt; few.map_err(told), Err((14, 4)), "then a short tally");
    assert_eq!(rt; tally, [9u32; 3], "as it was found");
    Ok(())
}

// A rule that matches everything is in every block, so it does not fit the area that the others fill.
#[test]
fn puts_what_fits_alone(rt: HostRuntime) -> Result<(), FaultCode> {
    let mut lines = seven_lines::lines();
    let mut area = [0u32; 17];
    let mut tally = [9u32; 4];
    let table = table(&mut lines, &mut area)?;
    let before = area;
    let all = kinds::rule_of::<Bridge>(&lines[6]);
    let Some(all) = all else {
        assert!(rt; false, "line 6 is filled");
        return Ok(());
    };
    let put = table.put(&mut lines, &mut area, &mut tally, 0, &all);
    assert_eq!(rt; put.map_err(told), Err((13, 0)));
    assert_eq!(rt; area, before, "as it was found");
    assert_eq!(rt; lines, seven_lines::lines(), "as they were found");
    assert_eq!(rt; tally, [0u32; 4], "counting had begun");
    Ok(())
}
