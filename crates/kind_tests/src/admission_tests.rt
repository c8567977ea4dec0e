// What rules admit at several bits together, against the ports that their ranges have.
use bits::{Bits, Chosen};
use kinds::Kind;
use routed::{Fault, Routed, Row, Rule};
use std::test::Fail;

fn ports(source: (u16, u16), destination: (u16, u16)) -> Result<Rule, Fault> {
    Rule::try_from(Row {
        source_low: source.0,
        source_high: source.1,
        destination_low: destination.0,
        destination_high: destination.1,
        ..Row::ALL
    })
}

fn bits_from(first: usize, last: usize) -> Bits {
    (first..=last).fold(Bits::none(), |bits, bit| bits.with(bit).unwrap_or(bits))
}

// Of the five bits 91 to 95, those where a number has a one.
fn last_bits(ones: usize) -> Bits {
    let mut bits = Bits::none();
    for place in 0..5usize {
        if (ones >> place) % 2 == 1 {
            bits = bits.with(95 - place).unwrap_or(bits);
        }
    }
    bits
}

// The cell that a destination port stands in, by bits of destination ports alone.
fn cell_of(port: u16, bits: &Bits) -> usize {
    let mut cell = 0;
    for bit in bits {
        cell = 2 * (cell % 2048) + usize::from((port >> (15 - bit % 16)) % 2);
    }
    cell
}

fn mark(cells: &mut [bool; 4096], cell: usize) {
    if let Some(mark) = cells.get_mut(cell) {
        *mark = true;
    }
}

// The cells that a kind tells of a rule.
fn told(rule: &Rule, bits: &Bits) -> [bool; 4096] {
    let chosen = Chosen::new(bits);
    let mut told = [false; 4096];
    if let Some(cells) = Routed::masked(rule, &chosen) {
        for cell in cells {
            mark(&mut told, cell);
        }
    } else if let Some(cells) = Routed::cells(rule, &chosen) {
        for cell in cells {
            mark(&mut told, cell);
        }
    }
    told
}

// Whether a rule admits these cells, and tells them, and no others.
fn is_in(rule: &Rule, bits: &Bits, cells: &[bool; 4096]) -> bool {
    let told = told(rule, bits);
    (0..bits.cells()).all(|cell| {
        told[cell] == cells[cell] && Routed::admits(rule, bits, cell) == cells[cell]
    })
}

fn those(cells: &[usize]) -> [bool; 4096] {
    let mut those = [false; 4096];
    for cell in cells {
        mark(&mut those, *cell);
    }
    those
}

#[test]
fn admits_what_some_port_has(rt: HostRuntime) -> Result<(), Fail> {
    for low in 0..32u16 {
        for high in low..32u16 {
            let rule = ports((0, 65535), (low, high))?;
            for ones in 0..32usize {
                let bits = last_bits(ones);
                let mut cells = [false; 4096];
                for port in low..=high {
                    mark(&mut cells, cell_of(port, &bits));
                }
                assert!(rt; is_in(&rule, &bits, &cells));
            }
        }
    }
    Ok(())
}

#[test]
fn leaves_out_what_no_port_has(rt: HostRuntime) -> Result<(), Fail> {
    let middle = ports((0, 65535), (32767, 32768))?;
    assert!(rt; is_in(&middle, &bits_from(80, 91), &those(&[0x7ff, 0x800])));
    let unprivileged = ports((0, 65535), (1024, 65535))?;
    let mut all_but_zero = [true; 4096];
    all_but_zero[0] = false;
    assert!(rt; is_in(&unprivileged, &bits_from(80, 85), &all_but_zero));
    let two = ports((0, 65535), (1, 2))?;
    assert!(rt; is_in(&two, &bits_from(94, 95), &those(&[0b01, 0b10])));
    Ok(())
}

#[test]
fn leaves_nothing_out_of_all_ports_and_single_ones(rt: HostRuntime) -> Result<(), Fail> {
    let all = Rule::try_from(Row::ALL)?;
    assert!(rt; is_in(&all, &bits_from(84, 95), &[true; 4096]));
    let one = ports((0, 65535), (443, 443))?;
    assert!(rt; is_in(&one, &bits_from(84, 95), &those(&[443])));
    Ok(())
}

#[test]
fn both_ranges_leave_values_out(rt: HostRuntime) -> Result<(), Fail> {
    let rule = ports((1, 2), (3, 4))?;
    let mut bits = bits_from(78, 79);
    for bit in 93..=95 {
        bits = bits.with(bit).unwrap_or(bits);
    }
    assert!(rt;
        is_in(
            &rule,
            &bits,
            &those(&[0b01_011, 0b01_100, 0b10_011, 0b10_100])
        )
    );
    Ok(())
}

#[test]
fn past_the_width_zero_alone(rt: HostRuntime) -> Result<(), Fail> {
    let rule = Rule::try_from(Row::ALL)?;
    assert_eq!(rt; Routed::width(), 104);
    assert!(rt; is_in(&rule, &bits_from(103, 104), &those(&[0b00, 0b10])));
    Ok(())
}

#[test]
fn no_bits_are_admitted(rt: HostRuntime) -> Result<(), Fail> {
    let rule = ports((1, 2), (32767, 32768))?;
    assert!(rt; is_in(&rule, &Bits::none(), &those(&[0])));
    Ok(())
}
