// Choices for the seven bridge lines and for two routed lines.
use super::told::{Told, told};
use bridge::Bridge;
use choice::{Limits, Outcome, Refusal};
use judges::{Largest, Squares};
use kinds::Line;
use routed::{Routed, Row};

// Two bits at most of the seven lines, by the largest block.
fn seven(room: usize, most_tries: u32) -> Told {
    let limits = Limits {
        most_bits: 2,
        most_tries,
    };
    let mut tally = [0u32; 4];
    told(choice::choose::<Bridge, Largest>(
        &seven_lines::lines(),
        room,
        &Largest,
        limits,
        &mut tally,
    ))
}

#[test]
fn stops_where_the_tries_are_spent(rt: HostRuntime) {
    assert_eq!(rt; seven(64, 0), Ok((2, 0, 1, 0, Outcome::Stopped)), "none");
    assert_eq!(rt;
        seven(64, 1),
        Ok((2, 1, 2, 1, Outcome::Stopped)),
        "taken on the last"
    );
    assert_eq!(rt;
        seven(64, 220),
        Ok((2, 1, 2, 220, Outcome::Stopped)),
        "one short"
    );
    assert_eq!(rt;
        seven(64, 221),
        Ok((2, 1, 2, 221, Outcome::Settled)),
        "exact"
    );
}

// The first exchange, 0 for 2, makes a table of 17 places.
#[test]
fn counts_what_does_not_fit(rt: HostRuntime) {
    assert_eq!(rt; seven(17, 1), Ok((2, 1, 2, 1, Outcome::Stopped)), "it fits");
    assert_eq!(rt;
        seven(16, 1),
        Ok((2, 0, 1, 1, Outcome::Stopped)),
        "it does not"
    );
    assert_eq!(rt; seven(16, 220), Ok((2, 0, 1, 220, Outcome::Settled)));
}

#[test]
fn may_be_asked_for_twelve_bits(rt: HostRuntime) {
    let mut tally = [0u32; 4096];
    let mut limits = Limits {
        most_bits: 12,
        most_tries: 0,
    };
    let lines = seven_lines::lines();
    let twelve = choice::choose::<Bridge, Squares>(&lines, 64, &Squares, limits, &mut tally);
    assert!(rt; twelve.is_ok(), "twelve");
    limits.most_bits = 13;
    let more = choice::choose::<Bridge, Squares>(&lines, 64, &Squares, limits, &mut tally);
    assert_eq!(rt; told(more), Err(Refusal::TooMuchAsked));
}

// Two lines that differ in the first bit of the source address alone.
#[test]
fn chooses_for_routed_lines(rt: HostRuntime) {
    let low = Row {
        source_length: 1,
        ..Row::ALL
    };
    let lines = [
        Line {
            mark: true,
            row: low,
        },
        Line {
            mark: true,
            row: Row {
                source: 1 << 31,
                ..low
            },
        },
    ];
    let limits = Limits {
        most_bits: 4,
        most_tries: 1000,
    };
    let mut tally = [0u32; 16];
    let chosen = choice::choose::<Routed, Largest>(&lines, 64, &Largest, limits, &mut tally);
    assert_eq!(rt; told(chosen), Ok((1, 0, 0, 103, Outcome::Settled)));
}
