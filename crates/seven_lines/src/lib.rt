// Seven bridge lines, and worked cases of the tables that are made of them.
#![tactic(auto)]

ghost use Rattle.std.specs.Prelude.{◌≡◌, ◌∷◌, replicate};
ghost use Rattle.kinds.specs.Lines.{rules_of};
ghost use Rattle.bridge.specs.Bridge.{bridge};
ghost use Rattle.seven_lines.specs.Beginnings.{beginning_with, line_beginning, header_beginning};
ghost use Rattle.seven_lines.specs.Seven.{marked_lines, seven};
ghost use Rattle.seven_lines.specs.Cases.{Cases};

use bridge::{Header, Octets, Row};
use kinds::Line;

// Fourteen bytes, of which all but the first are zero.
fn beginning(first: u8) -> Octets
    ensures { result ≡ beginning_with first }
{
    Octets {
        first: u64::from(first) << 56,
        middle: 0,
        last: 0,
    }
}

// A frame that begins with a byte and has zeros behind it.
pub fn frame(first: u8) -> [u8; 14]
    ensures { result ≡ first ∷ replicate 13 0 }
{
    let mut frame = [0u8; 14];
    frame[0] = first;
    frame
}

// The header of a frame that begins with a byte and has zeros behind it.
pub fn header(first: u8) -> Header
    ensures { result ≡ header_beginning first }
{
    Header {
        octets: beginning(first),
    }
}

// A marked line by the first byte of its value and of its mask.
fn line(value: u8, mask: u8) -> Line<Row>
    ensures { result ≡ line_beginning value mask }
{
    Line {
        mark: true,
        row: Row {
            value: beginning(value),
            mask: beginning(mask),
        },
    }
}

// The seven lines, each by its two first bytes.
fn marked() -> [Line<Row>; 7]
    ensures { result ≡ marked_lines }
{
    [
        line(0x20, 0xe0),
        line(0x40, 0xf0),
        line(0x80, 0xd0),
        line(0xf0, 0xf0),
        line(0xe0, 0xe0),
        line(0x80, 0xb0),
        line(0x00, 0x00),
    ]
}

// The seven lines. The worked cases hold of the tables that are made of them.
#[tactic(auto, using(crate::proofs::Rules::rules_of_marked))]
pub fn lines() -> [Line<Row>; 7]
    ensures lines { rules_of bridge result ≡ seven }
    ensures cases { Cases }
{
    marked()
}
