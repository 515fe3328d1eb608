//! Dates near irregularities of the calendar, as Python's `datetime` computes them, and a row, a
//! line and an object of each kind.

use crate::packets::UDP_QUERY;
use crate::samples::captures::WRITTEN;
use crate::samples::hosts::CLIENT;
use crate::samples::settings::ONE_ADDRESS;
use napt_account::{Entry, LogNote, Party, Shortage};
use napt_config::Config;
use napt_log_text::{
    JsonObject, LogEntry, LogEvent, LogField, LogFileFault, LogReader, LogRow, Request, TimeSpan,
    TimeStamp, add_holder, add_mark, add_nobody, header,
};
use napt_rules::{Outcome, Row};
use napt_sequential::Input;
use napt_wire::{Cause, Endpoint, Packet, Protocol, Side};
use std::alloc::Global;
use std::test::Fail;

/// Times in ns since 1970-01-01, and their dates. The last time has no date.
const DATES: &[(u128, &str)] = &[
    (0, "1970-01-01T00:00:00.000000000Z"),
    (68_169_600_000_000_000, "1972-02-29T00:00:00.000000000Z"),
    (951_868_799_999_999_999, "2000-02-29T23:59:59.999999999Z"),
    (951_868_800_000_000_000, "2000-03-01T00:00:00.000000000Z"),
    (1_795_687_327_000_000_001, "2026-11-26T10:02:07.000000001Z"),
    (4_107_542_399_999_999_999, "2100-02-28T23:59:59.999999999Z"),
    (4_107_542_400_000_000_000, "2100-03-01T00:00:00.000000000Z"),
    (9_223_372_036_854_775_807, "2262-04-11T23:47:16.854775807Z"),
    (18_446_744_073_709_551_615, "2554-07-21T23:34:33.709551615Z"),
    (
        253_402_300_799_999_999_999,
        "9999-12-31T23:59:59.999999999Z",
    ),
    (253_402_300_800_000_000_000, ""),
];

#[test]
fn dates_are_those_of_the_calendar(rt: HostRuntime) -> Result<(), Fail> {
    for (time, date) in DATES {
        let mut text = String::new(rt.alloc());
        TimeStamp(*time).add_date(&mut text)?;
        assert_eq!(rt; text.as_str(), *date);
    }
    Ok(())
}

/// A binding of a UDP host that was made at 1 s and ends after all times of 64 bits.
const ENTRY: Entry = Entry {
    binding: Row {
        protocol: Protocol::Udp,
        inside: CLIENT,
        external: Endpoint {
            address: 0xCB00_7101,
            number: 1024,
        },
        fixed: false,
    },
    made: 1_000_000_000,
    end: Some(304_000_000_000),
    sent: 3,
    received: 2,
    last: 4_000_000_000,
    last_sent: 2_000_000_000,
};

/// Returns the row of an event.
fn row_of(alloc: Global, event: LogEvent) -> Result<String, Fail> {
    let config = Config::read(alloc, ONE_ADDRESS.as_bytes())?;
    let mut text = String::new(alloc);
    event.add_row(&config, &mut text)?;
    Ok(text)
}

#[test]
fn each_event_has_a_row(rt: HostRuntime) -> Result<(), Fail> {
    let listed = LogEntry {
        number: 7,
        entry: ENTRY,
    };
    let shortage = Shortage {
        at: 5,
        cause: Cause::OverQuota,
        protocol: Protocol::Icmp,
        host: 0x0A00_0003,
    };
    let made = row_of(rt.alloc(), LogEvent::Made(listed))?;
    assert_eq!(rt;
        made.as_str(),
        "1000000000,8,17,10.0.0.2,5000,203.0.113.1,1024,,7,0,3,2,4000000000,\n"
    );
    let repeated = row_of(rt.alloc(), LogEvent::Repeated(listed))?;
    assert_eq!(rt;
        repeated.as_str(),
        "1000000000,8,17,10.0.0.2,5000,203.0.113.1,1024,,7,0,3,2,4000000000,repeated\n"
    );
    let ended = row_of(rt.alloc(), LogEvent::Ended(listed))?;
    assert_eq!(rt;
        ended.as_str(),
        "304000000000,9,17,10.0.0.2,5000,203.0.113.1,1024,,7,0,3,2,4000000000,\n"
    );
    let living = row_of(rt.alloc(), LogEvent::Living(listed))?;
    assert_eq!(rt;
        living.as_str(),
        "304000000000,,17,10.0.0.2,5000,203.0.113.1,1024,,7,0,3,2,4000000000,\n"
    );
    let refused = row_of(rt.alloc(), LogEvent::Refused(shortage))?;
    assert_eq!(rt; refused.as_str(), "5,13,1,10.0.0.3,,203.0.113.1,,3,,,,,,\n");
    assert_eq!(rt; header().matches(',').count(), refused.matches(',').count());
    Ok(())
}

/// Returns a row of the binding of `ENTRY`, as it is read.
fn saved(event: LogField) -> LogRow {
    LogRow {
        time: LogField::Number(304_000_000_000),
        event,
        protocol: LogField::Number(17),
        inside: Some(ENTRY.binding.inside),
        external: Some(ENTRY.binding.external),
        number: LogField::Number(7),
        redirect: LogField::Number(0),
        is_of_gateway: false,
    }
}

#[test]
fn logs_are_read_back(rt: HostRuntime) -> Result<(), Fail> {
    let ended = "304000000000,9,17,10.0.0.2,5000,203.0.113.1,1024,,7,0,3,2,4000000000,";
    let text = format!(in rt.alloc(); "{}{ended}\n{ended}", header())?;
    let Ok(mut log) = LogReader::open(rt.alloc(), text.as_bytes()) else {
        return Err(Fail::from(text.len()));
    };
    assert!(rt; matches!(log.next(), Ok(Some(row)) if row == saved(LogField::Number(9))));
    assert!(rt; matches!(log.next(), Err(LogFileFault::IncompleteRow)));
    assert!(rt; matches!(log.next(), Ok(None)));
    assert!(rt; LogReader::open(rt.alloc(), ended.as_bytes()).is_err());
    assert_eq!(rt; saved(LogField::Empty).binding(), Ok(ENTRY.binding));
    assert_eq!(rt; LogRow::read(",,,,,,,,,,,,"), None);
    Ok(())
}

#[test]
fn fields_are_read_back(rt: HostRuntime) -> Result<(), Fail> {
    let redirect = LogRow {
        time: LogField::Other,
        number: LogField::Other,
        redirect: LogField::Number(1),
        ..saved(LogField::Number(8))
    };
    let row = "x,8,17,10.0.0.2,5000,203.0.113.1,1024,,x,1,0,0,,";
    assert_eq!(rt; LogRow::read(row), Some(redirect));
    let refused = LogRow {
        time: LogField::Number(5),
        inside: None,
        external: None,
        number: LogField::Empty,
        redirect: LogField::Empty,
        ..saved(LogField::Number(12))
    };
    assert_eq!(rt;
        LogRow::read("5,12,17,10.0.0.3,,203.0.113.1,,,,,,,,"),
        Some(refused)
    );
    assert_eq!(rt;
        LogRow::read("5,,12,17,10.0.0.3,,203.0.113.1,,,,,,,,"),
        Some(refused)
    );
    assert!(rt; refused.binding().is_err());
    Ok(())
}

/// Returns the external endpoint of `ENTRY`, with another number.
fn party(number: u16) -> Party {
    Party {
        address: 0xCB00_7101,
        number: Some(number),
    }
}

/// Returns the request for the holders of an endpoint with this number, over UDP, in a span of ns.
fn request(number: u16, first: u128, until: u128) -> Request {
    Request {
        protocol: Some(Protocol::Udp),
        party: party(number),
        at: Some(TimeSpan { first, until }),
    }
}

#[test]
fn holders_have_lines(rt: HostRuntime) -> Result<(), Fail> {
    let mut text = String::new(rt.alloc());
    add_mark(12, &mut text)?;
    add_holder(&ENTRY, 303_999_999_999, &mut text)?;
    let cut = Entry { end: None, ..ENTRY };
    add_holder(&cut, 4_000_000_000, &mut text)?;
    assert_eq!(rt;
        text.as_str(),
        "12: udp 10.0.0.2:5000 at 203.0.113.1:1024 from 1.000000000 (1970-01-01T00:00:01.000000000Z) until 304.000000000 (1970-01-01T00:05:04.000000000Z), if no packet comes\nudp 10.0.0.2:5000 at 203.0.113.1:1024 from 1.000000000 (1970-01-01T00:00:01.000000000Z) on, with no end in the log\n"
    );
    Ok(())
}

#[test]
fn nobody_has_lines(rt: HostRuntime) -> Result<(), Fail> {
    let config = Config::read(rt.alloc(), ONE_ADDRESS.as_bytes())?;
    let mut text = String::new(rt.alloc());
    let entries = [ENTRY];
    let before = request(1024, 999_999_999, 1_000_000_000);
    add_nobody(
        &before,
        &before.nearest_among(&entries),
        Some(&config),
        4_000_000_000,
        &mut text,
    )?;
    let other = request(9, 0, 1_000_000_000);
    add_nobody(
        &other,
        &other.nearest_among(&entries),
        None,
        4_000_000_000,
        &mut text,
    )?;
    assert_eq!(rt;
        text.as_str(),
        "nobody had udp 203.0.113.1:1024 at 0.999999999 (1970-01-01T00:00:00.999999999Z); 0.000000001 s after: udp 10.0.0.2:5000 at 203.0.113.1:1024 from 1.000000000 (1970-01-01T00:00:01.000000000Z) until 304.000000000 (1970-01-01T00:05:04.000000000Z), if no packet comes\nnobody had udp 203.0.113.1:9 from 0.000000000 (1970-01-01T00:00:00.000000000Z) until 1.000000000 (1970-01-01T00:00:01.000000000Z)\n"
    );
    Ok(())
}

#[test]
fn a_span_has_holders(rt: HostRuntime) -> Result<(), Fail> {
    // Three entries, one after another: from 1 s, from 304 s and from 900 s on.
    let second = Entry {
        made: 304_000_000_000,
        end: Some(604_000_000_000),
        ..ENTRY
    };
    let third = Entry {
        made: 900_000_000_000,
        end: None,
        ..ENTRY
    };
    let entries = [ENTRY, second, third];
    let both = request(1024, 303_999_999_999, 304_000_000_001);
    let holders = both.holders_among(rt.alloc(), &entries)?;
    assert_eq!(rt; holders.as_slice(), [ENTRY, second].as_slice());
    let none = request(1024, 604_000_000_000, 900_000_000_000);
    assert_eq!(rt; none.holders_among(rt.alloc(), &entries)?.len(), 0);
    let nearest = none.nearest_among(&entries);
    assert_eq!(rt; nearest.before, Some(second));
    assert_eq!(rt; nearest.after, Some(third));
    let tcp = Request {
        protocol: Some(Protocol::Tcp),
        ..none
    };
    assert_eq!(rt; tcp.nearest_among(&entries).before, None);
    Ok(())
}

/// An echo request of 10.0.0.2 with identifier 7.
const ECHO: &[u8] = &[
    0x45, 0, 0, 28, 0, 3, 0, 0, 64, 1, 0x46, 0xa2, 10, 0, 0, 2, 198, 51, 100, 7, // IPv4
    8, 0, 0xf7, 0xf7, 0, 7, 0, 1, // echo request, checksum, identifier, sequence number
];

/// Port unreachable about the query as it left, and as 10.0.0.2 receives it.
const UNREACHABLE: &[u8] = &[
    0x45, 0, 0, 56, 0, 2, 0, 0, 64, 1, 0x14, 0x87, 198, 51, 100, 7, 203, 0, 113, 1, // IPv4
    3, 3, 0xcb, 0xbe, 0, 0, 0, 0, // port unreachable, checksum, unused
    0x45, 0, 0, 30, 0, 1, 0, 0, 64, 17, 0x14, 0x92, 203, 0, 113, 1, 198, 51, 100, 7, // quoted
    0x13, 0x88, 0, 53, 0, 10, 0x1d, 0x77, // ports, length, checksum
];

const UNREACHABLE_IN: &[u8] = &[
    0x45, 0, 0, 56, 0, 2, 0, 0, 64, 1, 0x46, 0x87, 198, 51, 100, 7, 10, 0, 0, 2, // IPv4
    3, 3, 0x99, 0xbe, 0, 0, 0, 0, // port unreachable, checksum, unused
    0x45, 0, 0, 30, 0, 1, 0, 0, 64, 17, 0x46, 0x92, 10, 0, 0, 2, 198, 51, 100, 7, // quoted
    0x13, 0x88, 0, 53, 0, 10, 0x4f, 0x77, // ports, length, checksum
];

/// Returns an input that arrived at 1 s.
fn input(alloc: Global, side: Side, bytes: &[u8]) -> Result<Input, Fail> {
    Ok(Input {
        side,
        time: 1_000_000_000,
        clock: 1_000_000_000,
        bytes: Vec::from_slice(alloc, bytes)?,
    })
}

fn packet(alloc: Global, side: Side, bytes: &[u8]) -> Result<Packet, Fail> {
    let bytes = Vec::from_slice(alloc, bytes)?;
    Ok(Packet::read(side, bytes).ok().ok_or("a packet")?)
}

/// Returns the object of an input that has a number, an outcome and a note.
fn object_of(
    alloc: Global,
    number: u64,
    input: &Input,
    outcome: &Outcome,
    note: LogNote,
) -> Result<String, Fail> {
    let mut text = String::new(alloc);
    let object = JsonObject {
        number,
        input,
        outcome,
        note,
    };
    object.add_to(alloc, &mut text)?;
    Ok(text)
}

#[test]
fn a_packet_that_leaves_has_an_object(rt: HostRuntime) -> Result<(), Fail> {
    let alloc = rt.alloc();
    let query = input(alloc, Side::Inside, &UDP_QUERY)?;
    let left = Outcome::ToOutside(packet(alloc, Side::Inside, &WRITTEN[40..])?);
    let made = object_of(alloc, 1, &query, &left, LogNote::Made)?;
    assert_eq!(rt;
        made.as_str(),
        "{\"number\":1,\"time\":1000000000,\"side\":\"inside\",\"outcome\":\"to-outside\",\"cause\":null,\"binding\":\"made\",\"hairpin\":false,\"before\":{\"kind\":\"udp\",\"source\":\"10.0.0.2\",\"source_port\":5000,\"destination\":\"198.51.100.7\",\"destination_port\":53,\"identifier\":null,\"about\":null},\"after\":{\"kind\":\"udp\",\"source\":\"203.0.113.1\",\"source_port\":5000,\"destination\":\"198.51.100.7\",\"destination_port\":53,\"identifier\":null,\"about\":null}}\n"
    );
    // The packet leaves as a hairpin would, since only the side to which it leaves matters.
    let echo = input(alloc, Side::Inside, ECHO)?;
    let back = Outcome::ToInside(packet(alloc, Side::Inside, ECHO)?);
    let hairpin = object_of(alloc, 2, &echo, &back, LogNote::Redirect)?;
    assert_eq!(rt;
        hairpin.as_str(),
        "{\"number\":2,\"time\":1000000000,\"side\":\"inside\",\"outcome\":\"to-inside\",\"cause\":null,\"binding\":\"redirect\",\"hairpin\":true,\"before\":{\"kind\":\"icmp-echo-request\",\"source\":\"10.0.0.2\",\"source_port\":null,\"destination\":\"198.51.100.7\",\"destination_port\":null,\"identifier\":7,\"about\":null},\"after\":{\"kind\":\"icmp-echo-request\",\"source\":\"10.0.0.2\",\"source_port\":null,\"destination\":\"198.51.100.7\",\"destination_port\":null,\"identifier\":7,\"about\":null}}\n"
    );
    Ok(())
}

#[test]
fn an_error_has_an_object_that_tells_what_it_quotes(rt: HostRuntime) -> Result<(), Fail> {
    let alloc = rt.alloc();
    let error = input(alloc, Side::Outside, UNREACHABLE)?;
    let left = Outcome::ToInside(packet(alloc, Side::Outside, UNREACHABLE_IN)?);
    let told = object_of(alloc, 3, &error, &left, LogNote::Nothing)?;
    assert_eq!(rt;
        told.as_str(),
        "{\"number\":3,\"time\":1000000000,\"side\":\"outside\",\"outcome\":\"to-inside\",\"cause\":null,\"binding\":null,\"hairpin\":false,\"before\":{\"kind\":\"icmp-error\",\"source\":\"198.51.100.7\",\"source_port\":null,\"destination\":\"203.0.113.1\",\"destination_port\":null,\"identifier\":null,\"about\":{\"protocol\":\"udp\",\"source\":\"203.0.113.1\",\"source_port\":5000,\"destination\":\"198.51.100.7\",\"destination_port\":53,\"identifier\":null}},\"after\":{\"kind\":\"icmp-error\",\"source\":\"198.51.100.7\",\"source_port\":null,\"destination\":\"10.0.0.2\",\"destination_port\":null,\"identifier\":null,\"about\":{\"protocol\":\"udp\",\"source\":\"10.0.0.2\",\"source_port\":5000,\"destination\":\"198.51.100.7\",\"destination_port\":53,\"identifier\":null}}}\n"
    );
    let cut = input(alloc, Side::Outside, &UDP_QUERY[..8])?;
    let dropped = Outcome::Dropped(Cause::Truncated);
    let refused = object_of(alloc, 4, &cut, &dropped, LogNote::Nothing)?;
    assert_eq!(rt;
        refused.as_str(),
        "{\"number\":4,\"time\":1000000000,\"side\":\"outside\",\"outcome\":\"dropped\",\"cause\":\"truncated\",\"binding\":null,\"hairpin\":false,\"before\":null,\"after\":null}\n"
    );
    Ok(())
}
