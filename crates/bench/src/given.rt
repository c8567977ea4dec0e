// What a file holds: a rule list, the headers to look up, and the limits of its table.
// Numbers are little-endian, but for addresses: how many lines, how many headers, the area's length, the most bits, the most tries, each of four bytes; then rows of 20 bytes and headers of 13.
ghost use Rattle.std.specs.Prelude.{◌<◌};

use choice::Limits;
use routed::{Header, Ports, Row};
use std::alloc::{AllocError, Global};

// The rows of the lines, what is looked up, and how much the table may take.
#[derive(Drop)]
pub(crate) struct Given {
    pub(crate) rows: Vec<Row>,
    pub(crate) headers: Vec<Header>,
    pub(crate) area: usize,
    pub(crate) limits: Limits,
}

// The number at one of five places. Callers write `as` where they count by it, since there is no `From<u32>` for `usize`.
fn number(numbers: &[u8; 20], place: usize) -> u32
    requires { place < 5 }
{
    let at = 4 * place;
    u32::from_le_bytes([
        numbers[at],
        numbers[at + 1],
        numbers[at + 2],
        numbers[at + 3],
    ])
}

// The row of 20 bytes.
fn row(b: &[u8; 20]) -> Row {
    Row {
        source: u32::from_be_bytes([b[0], b[1], b[2], b[3]]),
        source_length: b[8],
        destination: u32::from_be_bytes([b[4], b[5], b[6], b[7]]),
        destination_length: b[9],
        source_low: u16::from_le_bytes([b[10], b[11]]),
        source_high: u16::from_le_bytes([b[12], b[13]]),
        destination_low: u16::from_le_bytes([b[14], b[15]]),
        destination_high: u16::from_le_bytes([b[16], b[17]]),
        protocol: b[18],
        mask: b[19],
    }
}

// The header of 13 bytes.
fn header(b: &[u8; 13]) -> Header {
    Header {
        source: u32::from_be_bytes([b[0], b[1], b[2], b[3]]),
        destination: u32::from_be_bytes([b[4], b[5], b[6], b[7]]),
        ports: Some(Ports {
            source: u16::from_le_bytes([b[8], b[9]]),
            destination: u16::from_le_bytes([b[10], b[11]]),
        }),
        protocol: b[12],
    }
}

impl Given {
    // Reads a file; none where it is too short or too long.
    pub(crate) fn read(bytes: &[u8], alloc: Global) -> Result<Option<Given>, AllocError> {
        let Some((numbers, rest)) = bytes.split_first_chunk::<20>() else {
            return Ok(None);
        };
        let Some((rows, headers)) = rest.split_at_checked(20 * number(numbers, 0) as usize) else {
            return Ok(None);
        };
        let (rows, _) = rows.as_chunks::<20>();
        let (headers, behind) = headers.as_chunks::<13>();
        if headers.len() != number(numbers, 1) as usize || !behind.is_empty() {
            return Ok(None);
        }
        Ok(Some(Given {
            rows: rows.iter().map(row).collect(alloc)?,
            headers: headers.iter().map(header).collect(alloc)?,
            area: number(numbers, 2) as usize,
            limits: Limits {
                most_bits: number(numbers, 3) as usize,
                most_tries: number(numbers, 4),
            },
        }))
    }
}
