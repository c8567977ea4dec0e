// What a record asks for, read off its kind and body. What the numbers mean is not judged here.
ghost use Rattle.std.specs.Prelude.{◌≡◌};
ghost use Rattle.records.specs.Requests.{request_of};

use super::bodies;
use super::judge::NamedJudge;
use super::record::Record;
use super::refusal::Refusal;
use choice::Limits;

// The numbers of a rule, by its kind.
#[derive(Clone, Copy, Debug)]
pub enum Row {
    Routed(routed::Row),
    Bridge(bridge::Row),
}

#[derive(Clone, Copy, Debug)]
pub enum Request<'a> {
    // To open a book of so many lines.
    OpenRouted {
        lines: usize,
    },
    OpenBridge {
        lines: usize,
    },
    // To put the rule of a row into a line.
    Put {
        line: usize,
        row: Row,
    },
    // To strike a line.
    Strike {
        line: usize,
    },
    // To choose bits, by a judge if there is one of that number, and to lay the table.
    Choose {
        judge: Option<NamedJudge>,
        limits: Limits,
    },
    // To look up a packet or a frame.
    LookUp {
        packet: &'a [u8],
    },
}

impl<'a> TryFrom<Record<'a>> for Request<'a> {
    type Error = Refusal;

    ghost try_from_gives = { λ given result. result ≡ request_of given };

    fn try_from(given: Record<'a>) -> Result<Request<'a>, Refusal> {
        let body = given.body;
        match given.kind {
            1 => bodies::put_routed(body),
            2 => bodies::put_bridge(body),
            3 => bodies::strike(body),
            4 => bodies::choose(body),
            5 => bodies::look_up(body),
            6 => bodies::open(body),
            _ => Err(Refusal::UnknownKind),
        }
    }
}
