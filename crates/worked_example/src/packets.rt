// A small routed list that guards a print server, and packets that are answered by the first line that matches.
use super::{list, samples, say};
use kinds::Line;
use routed::{Header, Routed, Row};
use std::io;
use std::net::Ipv4Addr;

// Who may reach what. The last row is wrong: its address has ones past the prefix.
const ROWS: [Row; 5] = [
    Row {
        source: 0x0a01_0000,
        source_length: 16,
        destination: 0xc0a8_0700,
        destination_length: 24,
        destination_low: 9100,
        destination_high: 9102,
        protocol: 6,
        mask: 255,
        ..Row::ALL
    },
    Row {
        destination: 0xc0a8_0714,
        destination_length: 32,
        destination_low: 631,
        destination_high: 631,
        protocol: 6,
        mask: 255,
        ..Row::ALL
    },
    Row {
        source: 0x0a00_0000,
        source_length: 8,
        destination: 0x0a01_0035,
        destination_length: 32,
        source_low: 1024,
        destination_low: 53,
        destination_high: 53,
        protocol: 17,
        mask: 255,
        ..Row::ALL
    },
    Row {
        source: 0x0a00_0000,
        source_length: 8,
        protocol: 1,
        mask: 255,
        ..Row::ALL
    },
    Row {
        destination: 0xc0a8_0714,
        destination_length: 24,
        ..Row::ALL
    },
];

// No `Display` in `routed`, here and for headers: the words are this program's own, and it prints them in one place.
fn say_row(rt: &impl Print, row: &Row) -> io::Result<()> {
    println!(rt;
        "Row: {}/{} to {}/{}, ports {} to {}, protocol {} under mask {}",
        Ipv4Addr::from(row.source),
        row.source_length,
        Ipv4Addr::from(row.destination),
        row.destination_length,
        row.destination_low,
        row.destination_high,
        row.protocol,
        row.mask
    )
}

fn make_lines(rt: &HostRuntime) -> io::Result<Vec<Line<Row>>> {
    let mut lines = Vec::new(rt.alloc());
    for row in ROWS {
        say_row(rt, &row)?;
        match list::line::<Routed>(row) {
            Ok(line) => {
                let number = lines.len();
                lines.push(line)?;
                println!(rt; "  becomes line {number}")?;
            }
            Err(fault) => say::refusal(rt, fault)?,
        }
    }
    Ok(lines)
}

fn say_header(rt: &impl Print, header: &Header) -> io::Result<()> {
    let source = Ipv4Addr::from(header.source);
    let destination = Ipv4Addr::from(header.destination);
    let protocol = header.protocol;
    match header.ports {
        Some(ports) => println!(rt;
            "  from {source} port {} to {destination} port {}, protocol {protocol}",
            ports.source, ports.destination
        ),
        None => println!(rt; "  from {source} to {destination}, protocol {protocol}, portless"),
    }
}

fn filter(rt: &impl Print, lines: &[Line<Row>], name: &str, packet: &[u8]) -> io::Result<()> {
    println!(rt; "Packet: {name}")?;
    if let Ok(header) = Header::read(packet) {
        say_header(rt, &header)?;
    }
    say::answer(rt, list::answer::<Routed>(lines, packet))
}

pub(crate) fn run(rt: &HostRuntime) -> io::Result<()> {
    println!(rt; "A routed list that guards a print server")?;
    let lines = make_lines(rt)?;
    filter(rt, &lines, "a print job", samples::PRINT_JOB)?;
    filter(
        rt,
        &lines,
        "a print job behind options",
        samples::WITH_OPTIONS,
    )?;
    filter(rt, &lines, "a DNS question", samples::QUESTION)?;
    filter(rt, &lines, "an echo request", samples::PING)?;
    filter(rt, &lines, "a telnet connection", samples::TELNET)?;
    filter(
        rt,
        &lines,
        "a later fragment of a print job",
        samples::LATER_FRAGMENT,
    )?;
    filter(
        rt,
        &lines,
        "the DNS question, cut off after 23 bytes",
        &samples::QUESTION[0..23],
    )
}
