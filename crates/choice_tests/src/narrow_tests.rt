// Choices for headers of two bits, where all sets can be counted by hand.
use super::narrow::{Narrow, Pair};
use super::told::{Told, told};
use bits::Bits;
use blocks::Tally;
use choice::{Limits, Outcome, Refusal};
use judges::Largest;
use kinds::Line;

// A line that matches one header.
fn line(first: bool, second: bool) -> Line<Pair> {
    Line {
        mark: true,
        row: Pair { first, second },
    }
}

// A line for each header: either bit halves the largest block, and both make it one line.
fn all() -> [Line<Pair>; 4] {
    [
        line(false, false),
        line(false, true),
        line(true, false),
        line(true, true),
    ]
}

// The choice by the largest block.
fn choose(lines: &[Line<Pair>], room: usize, limits: (usize, u32), tally: &mut [u32]) -> Told {
    let (most_bits, most_tries) = limits;
    let limits = Limits {
        most_bits,
        most_tries,
    };
    told(choice::choose::<Narrow, Largest>(lines, room, &Largest, limits, tally))
}

#[test]
fn takes_the_lowest_among_equals(rt: HostRuntime) {
    let mut tally = [9u32; 5];
    let chosen = choose(&all(), 64, (1, 100), &mut tally);
    assert_eq!(rt; chosen, Ok((1, 0, 0, 1, Outcome::Settled)));
    assert_eq!(rt; tally, [0u32; 5]);
}

#[test]
fn counts_each_exchange(rt: HostRuntime) {
    let mut tally = [0u32; 2];
    let none = choose(&all(), 64, (1, 0), &mut tally);
    assert_eq!(rt; none, Ok((1, 0, 0, 0, Outcome::Stopped)));
    let exact = choose(&all(), 64, (1, 1), &mut tally);
    assert_eq!(rt; exact, Ok((1, 0, 0, 1, Outcome::Settled)));
}

#[test]
fn settles_where_no_exchange_is_possible(rt: HostRuntime) {
    let mut tally = [0u32; 4];
    let all_bits = choose(&all(), 64, (2, 0), &mut tally);
    assert_eq!(rt; all_bits, Ok((2, 0, 1, 0, Outcome::Settled)));
    let no_bit = choose(&all(), 64, (0, 0), &mut tally);
    assert_eq!(rt; no_bit, Ok((0, 0, 0, 0, Outcome::Settled)));
    let no_line = choose(&[], 2, (2, 9), &mut tally);
    assert_eq!(rt; no_line, Ok((0, 0, 0, 0, Outcome::Settled)));
}

// The kind tells no cells, so each is asked for.
#[test]
fn each_line_stands_in_its_own_cell(rt: HostRuntime) {
    let bits = Bits::none();
    let bits = bits.with(0).unwrap_or(bits);
    let bits = bits.with(1).unwrap_or(bits);
    let mut numbers = [9u32; 4];
    let mut tally = Tally::new(&mut numbers);
    let too_few = tally.fits::<Narrow>(&all(), None, &bits, 8);
    assert_eq!(rt; too_few, Err(blocks::Refusal::NoRoom));
    let enough = tally.fits::<Narrow>(&all(), None, &bits, 9);
    assert_eq!(rt; enough, Ok(()));
    assert_eq!(rt; tally.sizes(&bits), &[1u32; 4][..]);
}

#[test]
fn refuses_in_order(rt: HostRuntime) {
    let many = [line(true, true); 16385];
    let mut tally = [9u32; 1];
    let most = Err(Refusal::TooMuchAsked);
    assert_eq!(rt; choose(&many, 0, (3, 0), &mut tally), most, "most bits");
    assert_eq!(rt;
        choose(&many, 0, (2, 1_000_001), &mut tally),
        most,
        "most tries"
    );
    let lines = Err(Refusal::Table(blocks::Refusal::TooManyLines));
    assert_eq!(rt; choose(&many, 0, (2, 1_000_000), &mut tally), lines);
    let short = Err(Refusal::Table(blocks::Refusal::ShortTally));
    assert_eq!(rt; choose(&many[..4], 0, (1, 9), &mut tally), short);
    assert_eq!(rt; tally, [9u32; 1], "not counted");
    let room = Err(Refusal::Table(blocks::Refusal::NoRoom));
    assert_eq!(rt; choose(&many[..4], 5, (0, 9), &mut tally), room);
    assert_eq!(rt; tally, [0u32; 1], "counted");
    assert!(rt;
        choose(&many[..4], 6, (0, 9), &mut tally).is_ok(),
        "exact room"
    );
}
