// The bodies of records, each by its kind. Numbers are little-endian, but for addresses and what stands as in a packet.
ghost use Rattle.std.specs.Prelude.{◌≡◌, ◌+◌, ◌≤◌, length};
ghost use Rattle.kinds.specs.Bytes.{big_endian};
ghost use Rattle.records.specs.Records.{little_endian};
ghost use Rattle.records.specs.Requests.{open_body, put_routed_body, put_bridge_body, strike_body, choose_body, look_up_body, octets_at, judge_named};

use super::judge::NamedJudge;
use super::refusal::Refusal;
use super::request::{Request, Row};
use bridge::Octets;
use choice::Limits;

// The longest packet or frame that a record may hold.
const LONGEST_PACKET: usize = 2048;

// The number of two bytes.
fn number(body: &[u8], at: usize) -> u16
    requires { at + 2 ≤ length body.now }
    ensures { result ≡ little_endian body.now at 2 }
{
    u16::from_le_bytes([body[at], body[at + 1]])
}

// The address of four bytes, in network order.
fn address(body: &[u8], at: usize) -> u32
    requires { at + 4 ≤ length body.now }
    ensures { result ≡ big_endian body.now at 4 }
{
    u32::from_be_bytes([body[at], body[at + 1], body[at + 2], body[at + 3]])
}

// Fourteen bytes of a frame.
fn octets(body: &[u8], at: usize) -> Octets
    requires { at + 14 ≤ length body.now }
    ensures { result ≡ octets_at body.now at }
{
    Octets {
        first: u64::from(address(body, at)) << 32 | u64::from(address(body, at + 4)),
        middle: address(body, at + 8),
        last: u16::from_be_bytes([body[at + 12], body[at + 13]]),
    }
}

pub(crate) fn open(body: &[u8]) -> Result<Request<'_>, Refusal>
    ensures { result ≡ open_body body.now }
{
    match body {
        [1, a, b] => Ok(Request::OpenRouted {
            lines: usize::from(u16::from_le_bytes([*a, *b])),
        }),
        [2, a, b] => Ok(Request::OpenBridge {
            lines: usize::from(u16::from_le_bytes([*a, *b])),
        }),
        [] | [1 | 2, ..] => Err(Refusal::BodyLength),
        _ => Err(Refusal::UnknownKind),
    }
}

pub(crate) fn put_routed(body: &[u8]) -> Result<Request<'_>, Refusal>
    ensures { result ≡ put_routed_body body.now }
{
    if body.len() != 22 {
        return Err(Refusal::BodyLength);
    }
    Ok(Request::Put {
        line: usize::from(number(body, 0)),
        row: Row::Routed(routed::Row {
            source: address(body, 2),
            source_length: body[10],
            destination: address(body, 6),
            destination_length: body[11],
            source_low: number(body, 12),
            source_high: number(body, 14),
            destination_low: number(body, 16),
            destination_high: number(body, 18),
            protocol: body[20],
            mask: body[21],
        }),
    })
}

pub(crate) fn put_bridge(body: &[u8]) -> Result<Request<'_>, Refusal>
    ensures { result ≡ put_bridge_body body.now }
{
    if body.len() != 30 {
        return Err(Refusal::BodyLength);
    }
    Ok(Request::Put {
        line: usize::from(number(body, 0)),
        row: Row::Bridge(bridge::Row {
            value: octets(body, 2),
            mask: octets(body, 16),
        }),
    })
}

pub(crate) fn strike(body: &[u8]) -> Result<Request<'_>, Refusal>
    ensures { result ≡ strike_body body.now }
{
    let [a, b] = body else {
        return Err(Refusal::BodyLength);
    };
    Ok(Request::Strike {
        line: usize::from(u16::from_le_bytes([*a, *b])),
    })
}

// The judge of a number.
fn judge(number: u8) -> Option<NamedJudge>
    ensures { result ≡ judge_named number }
{
    match number {
        0 => Some(NamedJudge::Largest),
        1 => Some(NamedJudge::Squares),
        _ => None,
    }
}

pub(crate) fn choose(body: &[u8]) -> Result<Request<'_>, Refusal>
    ensures { result ≡ choose_body body.now }
{
    let [number, most_bits, a, b, c, d] = body else {
        return Err(Refusal::BodyLength);
    };
    Ok(Request::Choose {
        judge: judge(*number),
        limits: Limits {
            most_bits: usize::from(*most_bits),
            most_tries: u32::from_le_bytes([*a, *b, *c, *d]),
        },
    })
}

pub(crate) fn look_up(body: &[u8]) -> Result<Request<'_>, Refusal>
    ensures { result ≡ look_up_body body.entry }
{
    if body.len() > LONGEST_PACKET {
        return Err(Refusal::BodyLength);
    }
    Ok(Request::LookUp { packet: body })
}
