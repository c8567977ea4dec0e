// Areas of which one number is spoilt: every answer is defined, and the next put lays the table right again.
use super::tables::{table, told};
use bridge::{Bridge, Row};
use kinds::{FaultCode, Line};
use std::test::Fail;
use table::{Fault, LaidTable};

// Whether an answer is one that a spoilt area may give: a line of the book, or none, after some of the area's entries, or a refusal.
fn defined(answer: Result<(Option<usize>, usize), Fault>) -> bool {
    match answer {
        Ok((Some(line), tried)) => line < 7 && tried >= 1 && tried <= 12,
        Ok((None, tried)) => tried <= 12,
        Err(fault) => told(fault) == (15, 0),
    }
}

// Whether all frames get defined answers, and defined blocks.
fn all_defined(table: &LaidTable<Bridge>, lines: &[Line<Row>; 7], area: &[u32; 17]) -> bool {
    for first in 0..=255u8 {
        let header = seven_lines::header(first);
        if !defined(table.look_up(lines, area, &header)) {
            return false;
        }
        let block = table.block(area, &header);
        if !block.is_ok_and(|entries| entries.len() <= 12)
            && !table
                .block(area, &header)
                .is_err_and(|fault| told(fault) == (15, 0))
        {
            return false;
        }
    }
    true
}

// Whether some frame is refused.
fn some_refused(table: &LaidTable<Bridge>, lines: &[Line<Row>; 7], area: &[u32; 17]) -> bool {
    (0..=255u8).any(|first| {
        table
            .look_up(lines, area, &seven_lines::header(first))
            .is_err()
    })
}

#[test]
fn answers_are_defined(rt: HostRuntime) -> Result<(), FaultCode> {
    let mut lines = seven_lines::lines();
    let mut area = [0u32; 17];
    let table = table(&mut lines, &mut area)?;
    let laid = area;
    let mut tally = [0u32; 4];
    assert!(rt; !some_refused(&table, &lines, &area), "as it was laid");
    let mut refused = false;
    let mut answered = false;
    for at in 0..17 {
        for number in [0u32, 1, 6, 7, 12, 13, 17, u32::MAX] {
            area[at] = number;
            assert!(rt;
                all_defined(&table, &lines, &area),
                "place {at}, number {number}"
            );
            if some_refused(&table, &lines, &area) {
                refused = true;
            } else {
                answered = true;
            }
            if let Some(rule) = kinds::rule_of::<Bridge>(&lines[0]) {
                table.put(&mut lines, &mut area, &mut tally, 0, &rule)?;
            }
            assert_eq!(rt; area, laid, "laid again after place {at}, number {number}");
        }
    }
    assert!(rt;
        refused && answered,
        "some spoilt areas refuse a frame, and some answer all"
    );
    Ok(())
}
