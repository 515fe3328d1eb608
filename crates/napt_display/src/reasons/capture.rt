//! The probable form of a refused capture, and the command that makes napt's two captures from it.

ghost use Rattle.std.specs.Prelude.{◌≤◌, ◌+◌, IfOk, OnOk, vec_len};

use crate::reasons::reason::{Reason, add};
use napt_capture::CaptureFault;
use napt_config::Prefix;
use std::alloc::{AllocError, Global};

/// The call of split that makes the captures that napt reads from another capture.
#[derive(Clone, Copy)]
pub struct SplitAdvice<'a> {
    /// The name of split: `./split`, or `napt-split` if it is installed.
    pub command: &'a str,
    /// The path of the capture, if it has one.
    pub capture: Option<&'a str>,
    /// The prefixes of inside hosts.
    pub inside: &'a [Prefix],
}

/// The probable form of some bytes.
#[derive(Clone, Copy)]
enum FileForm {
    Empty,
    Pcapng,
    Gzip,
    /// A libpcap capture of this format and link type.
    Pcap(CaptureFormat, u32),
    /// The capture could not be read.
    Unread,
    /// An unknown form, or a libpcap capture that ends within its header.
    Unknown,
}

/// The four formats of a libpcap capture: the order of its bytes, and its unit of time.
#[derive(Clone, Copy)]
struct CaptureFormat {
    order: &'static str,
    unit: &'static str,
}

/// Returns the first four bytes, or 0 if there are fewer.
fn first_four(bytes: &[u8]) -> [u8; 4] {
    match bytes.first_chunk::<4>() {
        Some(four) => *four,
        None => [0; 4],
    }
}

fn form_of(bytes: &[u8], fault: CaptureFault) -> FileForm {
    if fault == CaptureFault::Read {
        return FileForm::Unread;
    }
    if bytes.is_empty() {
        return FileForm::Empty;
    }
    match first_four(bytes) {
        [0x0a, 0x0d, 0x0d, 0x0a] => FileForm::Pcapng,
        [0x1f, 0x8b, _, _] => FileForm::Gzip,
        [0xd4, 0xc3, 0xb2, 0xa1] => pcap(bytes, false, "microseconds"),
        [0x4d, 0x3c, 0xb2, 0xa1] => pcap(bytes, false, "nanoseconds"),
        [0xa1, 0xb2, 0xc3, 0xd4] => pcap(bytes, true, "microseconds"),
        [0xa1, 0xb2, 0x3c, 0x4d] => pcap(bytes, true, "nanoseconds"),
        _ => FileForm::Unknown,
    }
}

/// Returns the form of a libpcap capture, whose link type is at byte 20.
fn pcap(bytes: &[u8], is_big: bool, unit: &'static str) -> FileForm {
    let link = match bytes.get(20..24) {
        Some(rest) => first_four(rest),
        None => return FileForm::Unknown,
    };
    let (order, link) = match is_big {
        true => ("big-endian", u32::from_be_bytes(link)),
        false => ("little-endian", u32::from_le_bytes(link)),
    };
    FileForm::Pcap(CaptureFormat { order, unit }, link)
}

/// Returns the name of a link type, if captures often have it.
fn link_name(link: u32) -> Option<&'static str> {
    match link {
        0 => Some("BSD loopback"),
        1 => Some("Ethernet"),
        9 => Some("PPP"),
        12 | 14 => Some("raw IP"),
        50 => Some("PPP with HDLC framing"),
        51 => Some("PPPoE"),
        104 => Some("Cisco HDLC"),
        108 => Some("OpenBSD loopback"),
        113 => Some("Linux cooked, version 1"),
        276 => Some("Linux cooked, version 2"),
        _ => None,
    }
}

/// Returns why `read_capture` refuses some bytes with this fault, in at least two reasons: the
/// fault in words, the probable form of the bytes and, if it is known, what to do, with this call
/// of split. Fails only if memory is refused.
pub fn capture_reasons(
    alloc: Global,
    bytes: &[u8],
    fault: CaptureFault,
    splitting: SplitAdvice<'_>,
) -> Result<Vec<Reason>, AllocError>
    ensures { IfOk result (λ reasons. 2 ≤ vec_len reasons) }
{
    let mut reasons = Vec::new(alloc);
    add(&mut reasons, "why", format!(in alloc; "{fault}"))?;
    add_form(alloc, &mut reasons, form_of(bytes, fault), splitting)?;
    Ok(reasons)
}

/// Adds the probable form of some bytes and, if known, the command that converts them for napt.
fn add_form(
    alloc: Global,
    reasons: &mut Vec<Reason>,
    form: FileForm,
    splitting: SplitAdvice<'_>,
) -> Result<(), AllocError>
    ensures { OnOk result (vec_len reasons.old + 1 ≤ vec_len reasons.new) }
{
    add(reasons, "format", form_text(alloc, form))?;
    match form {
        FileForm::Empty | FileForm::Unread => Ok(()),
        FileForm::Unknown => {
            let command = splitting.command;
            let text = format!(in alloc;
                "save it as pcap or pcapng; {command} then makes the captures that napt reads"
            );
            add(reasons, "advice", text)
        }
        FileForm::Pcapng => add_split(alloc, reasons, splitting, "in.pcapng"),
        FileForm::Gzip => add_split(alloc, reasons, splitting, "in.pcap.gz"),
        FileForm::Pcap(_, 9 | 50 | 51) => {
            let text =
                "capture at the ppp interface itself, as tcpdump -i ppp0 does: split does not read this";
            add(reasons, "advice", String::from_str(alloc, text))
        }
        FileForm::Pcap(_, 1 | 12 | 14 | 113 | 276) => {
            add_split(alloc, reasons, splitting, "in.pcap")
        }
        FileForm::Pcap(..) => Ok(()),
    }
}

/// Adds the command that makes napt's two captures from this one, or from `other` without a path.
fn add_split(
    alloc: Global,
    reasons: &mut Vec<Reason>,
    splitting: SplitAdvice<'_>,
    other: &str,
) -> Result<(), AllocError>
    ensures { OnOk result (vec_len reasons.old ≤ vec_len reasons.new) }
{
    let SplitAdvice {
        command,
        inside,
        ..
    } = splitting;
    let capture = splitting.capture.unwrap_or(other);
    let mut call = format!(in alloc; "{command} {capture} --inside")?;
    for prefix in inside {
        call.push_str(&format!(in alloc; " {prefix}")?)?;
    }
    call.push_str(" --out DIR")?;
    add(reasons, "advice", Ok(call))?;
    let more = "DIR/inside.pcap and DIR/outside.pcap are then what napt reads (docs/CAPTURES.md)";
    add(reasons, "", String::from_str(alloc, more))
}

/// Returns a form in words.
fn form_text(alloc: Global, form: FileForm) -> Result<String, AllocError> {
    match form {
        FileForm::Empty => String::from_str(alloc, "empty"),
        FileForm::Pcapng => String::from_str(alloc, "pcapng"),
        FileForm::Gzip => String::from_str(alloc, "compressed by gzip"),
        FileForm::Unread => String::from_str(alloc, "a folder, or a file or device that failed"),
        FileForm::Unknown => String::from_str(alloc, "not a capture of a known form"),
        FileForm::Pcap(format, link) => pcap_text(alloc, format, link),
    }
}

fn pcap_text(alloc: Global, format: CaptureFormat, link: u32) -> Result<String, AllocError> {
    let CaptureFormat { order, unit } = format;
    match link_name(link) {
        Some(name) => {
            format!(in alloc; "a libpcap capture of {name} (link type {link}), {order}, {unit}")
        }
        None => format!(in alloc; "a libpcap capture of link type {link}, {order}, {unit}"),
    }
}
