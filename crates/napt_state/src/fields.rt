//! Writes and reads the words of a line.
ghost use Rattle.std.specs.Prelude.{◌≡◌, ◌+◌, ◌++◌, ◌<◌, ◌≤◌, ◌^◌, ℕ, [], ◌∷◌, Bool, false, Option, Some, None, IfSome, OnOk, codes, decimal, slice_index_or, string_bytes};
ghost use Rattle.napt_account.specs.declared.account.Account.{Account as Held};
ghost use Rattle.napt_config.specs.Text.{address_text};
ghost use Rattle.napt_wire.specs.declared.{Endpoint.Endpoint as End, Protocol.Protocol as Carried};
ghost use Rattle.napt_rules.specs.declared.{SessionMarks.SessionMarks as Noted, Row.Row as Bound};
ghost use Rattle.napt_state.specs.StateText as texts;

use itoa::Buffer;
use napt_account::Account;
use napt_config::Address;
use napt_rules::{Row, SessionMarks};
use napt_wire::{Endpoint, Protocol};
use std::alloc::AllocError;

/// The largest number of entries of a log, and of packets of an entry, with which a run can start.
pub(crate) const MOST_SAVED: u64 = 1 << 61;

/// Appends a number in decimal. Fails only if memory is refused.
pub(crate) fn add_number(text: &mut String, number: u64) -> Result<(), AllocError>
    ensures { OnOk result (string_bytes text.new ≡ string_bytes text.old ++ decimal number) }
{
    let mut digits = Buffer::new();
    text.push_str(digits.format(number))
}

/// Appends a number in decimal and a space. Fails only if memory is refused.
pub(crate) fn add_spaced(text: &mut String, number: u64) -> Result<(), AllocError>
    ensures { OnOk result (string_bytes text.new
        ≡ string_bytes text.old ++ texts.spaced (decimal number ∷ [])) }
{
    add_number(text, number)?;
    text.push_str(" ")
}

/// Appends an address, such as `10.0.0.2`. Fails only if memory is refused.
fn add_address(text: &mut String, address: u32) -> Result<(), AllocError>
    ensures { OnOk result (string_bytes text.new ≡ string_bytes text.old ++ address_text address) }
{
    let [first, second, third, fourth] = address.to_be_bytes();
    add_number(text, u64::from(first))?;
    text.push_str(".")?;
    add_number(text, u64::from(second))?;
    text.push_str(".")?;
    add_number(text, u64::from(third))?;
    text.push_str(".")?;
    add_number(text, u64::from(fourth))?;
    Ok(())
}

/// Appends the two words of an endpoint, with a space after each. Fails only if memory is refused.
pub(crate) fn add_endpoint(text: &mut String, endpoint: Endpoint) -> Result<(), AllocError>
    ensures { OnOk result (string_bytes text.new ≡ string_bytes text.old
        ++ texts.spaced (texts.endpoint_words endpoint [])) }
{
    add_address(text, endpoint.address)?;
    text.push_str(" ")?;
    add_spaced(text, u64::from(endpoint.number))
}

/// Appends the words of a row, with a space after each. Fails only if memory is refused.
pub(crate) fn add_row(text: &mut String, row: &Row) -> Result<(), AllocError>
    ensures { OnOk result (string_bytes text.new ≡ string_bytes text.old
        ++ texts.spaced (texts.row_words row.now [])) }
{
    text.push_str(if row.fixed { "redirect " } else { "binding " })?;
    add_endpoints(text, row)
}

/// Appends the words of the protocol and of both endpoints of a row, with a space after each.
/// Fails only if memory is refused.
pub(crate) fn add_endpoints(text: &mut String, row: &Row) -> Result<(), AllocError>
    ensures { OnOk result (string_bytes text.new ≡ string_bytes text.old
        ++ texts.spaced (texts.ends_words row.now [])) }
{
    text.push_str(protocol_name(row.protocol))?;
    text.push_str(" ")?;
    add_endpoint(text, row.inside)?;
    add_endpoint(text, row.external)
}

/// Appends the end of an entry, in ns or `never`, and a space. Fails only if memory is refused.
pub(crate) fn add_end(text: &mut String, end: Option<u128>) -> Result<(), AllocError>
    ensures { OnOk result (string_bytes text.new
        ≡ string_bytes text.old ++ texts.spaced (texts.end_text end ∷ [])) }
{
    let mut digits = Buffer::new();
    text.push_str(match end {
        Some(end) => digits.format(end),
        None => "never",
    })?;
    text.push_str(" ")
}

/// Appends the words of marks, with a space before each. Fails only if memory is refused.
pub(crate) fn add_marks(text: &mut String, marks: SessionMarks) -> Result<(), AllocError>
    ensures { OnOk result (string_bytes text.new ≡ string_bytes text.old
        ++ (codes " " ++ texts.state_flag marks.syn_out ++ codes " "
        ++ texts.state_flag marks.syn_in
        ++ codes " " ++ texts.state_flag marks.fin_out ++ codes " " ++ texts.state_flag marks.fin_in
        ++ codes " " ++ texts.state_flag marks.reset)) }
{
    text.push_str(flag_name(marks.syn_out))?;
    text.push_str(flag_name(marks.syn_in))?;
    text.push_str(flag_name(marks.fin_out))?;
    text.push_str(flag_name(marks.fin_in))?;
    text.push_str(flag_name(marks.reset))
}

fn flag_name(is_set: bool) -> &'static str
    ensures { result.now ≡ codes " " ++ texts.state_flag is_set }
{
    if is_set { " 1" } else { " 0" }
}

pub(crate) fn protocol_name(protocol: Protocol) -> &'static str
    ensures { result.now ≡ texts.state_protocol_name protocol }
{
    match protocol {
        Protocol::Icmp => "icmp",
        Protocol::Tcp => "tcp",
        Protocol::Udp => "udp",
    }
}

/// Returns the word at an index of a line, from 0, or an empty one if there are fewer words.
pub(crate) fn word(line: &str, place: usize) -> &str
    ensures { result.now ≡ slice_index_or (texts.words_in line.now) place [] }
{
    line.split(' ').nth(place).unwrap_or("")
}

/// Returns the number in the word at an index.
pub(crate) fn number(line: &str, place: usize) -> Option<u64>
    ensures read { (number : ℕ) → number < 2 ^ 64 →
        slice_index_or (texts.words_in line.now) place [] ≡ decimal number → result ≡ Some number }
    ensures none { slice_index_or (texts.words_in line.now) place [] ≡ [] → result ≡ None }
{
    word(line, place).parse::<u64>().ok()
}

/// Returns the number in the word at an index, if it is at most `MOST_SAVED`.
pub(crate) fn count(line: &str, place: usize) -> Option<u64>
    ensures read { (number : ℕ) → number ≤ 2 ^ 61 →
        slice_index_or (texts.words_in line.now) place [] ≡ decimal number → result ≡ Some number }
    ensures few { IfSome result (λ number. number ≤ 2 ^ 61) }
{
    number(line, place).filter(|number| *number <= MOST_SAVED)
}

/// Returns the end of an entry in the word at an index.
pub(crate) fn end(line: &str, place: usize) -> Option<Option<u128>>
    ensures { (end : Option ℕ) → texts.IsEndLine end →
        slice_index_or (texts.words_in line.now) place [] ≡ texts.end_text end → result ≡ Some end }
{
    match word(line, place) {
        "never" => Some(None),
        end => Some(Some(end.parse::<u128>().ok()?)),
    }
}

/// Returns the endpoint in the two words from an index on.
pub(crate) fn endpoint(line: &str, place: usize) -> Option<Endpoint>
    requires { place < 100 }
    ensures { (endpoint : End) → texts.IsEndpointWord endpoint →
        slice_index_or (texts.words_in line.now) place [] ≡ address_text endpoint.address →
        slice_index_or (texts.words_in line.now) (place + 1) [] ≡ decimal endpoint.number →
        result ≡ Some endpoint }
{
    let address = word(line, place).parse::<Address>().ok()?;
    let number = word(line, place + 1).parse::<u16>().ok()?;
    Some(Endpoint {
        address: address.0,
        number,
    })
}

/// Returns the protocol in the word at an index.
pub(crate) fn protocol(line: &str, place: usize) -> Option<Protocol>
    ensures { (protocol : Carried) →
        slice_index_or (texts.words_in line.now) place [] ≡ texts.state_protocol_name protocol →
        result ≡ Some protocol }
{
    match word(line, place) {
        "icmp" => Some(Protocol::Icmp),
        "tcp" => Some(Protocol::Tcp),
        "udp" => Some(Protocol::Udp),
        _ => None,
    }
}

/// Returns whether the row of a line is a redirect, by the word at an index.
pub(crate) fn is_fixed(line: &str, place: usize) -> Option<bool>
    ensures { (fixed : Bool) →
        slice_index_or (texts.words_in line.now) place [] ≡ texts.kind_text fixed →
        result ≡ Some fixed }
{
    match word(line, place) {
        "binding" => Some(false),
        "redirect" => Some(true),
        _ => None,
    }
}

/// Returns the row in the six words from an index on.
pub(crate) fn row(line: &str, place: usize) -> Option<Row>
    requires { place < 90 }
    ensures { (row : Bound) → texts.IsRowLine row →
        slice_index_or (texts.words_in line.now) place [] ≡ texts.kind_text row.fixed →
        slice_index_or (texts.words_in line.now) (place + 1) []
        ≡ texts.state_protocol_name row.protocol →
        slice_index_or (texts.words_in line.now) (place + 2) [] ≡ address_text row.inside.address →
        slice_index_or (texts.words_in line.now) (place + 3) [] ≡ decimal row.inside.number →
        slice_index_or (texts.words_in line.now) (place + 4) []
        ≡ address_text row.external.address →
        slice_index_or (texts.words_in line.now) (place + 5) [] ≡ decimal row.external.number →
        result ≡ Some row }
{
    Some(Row {
        fixed: is_fixed(line, place)?,
        protocol: protocol(line, place + 1)?,
        inside: endpoint(line, place + 2)?,
        external: endpoint(line, place + 4)?,
    })
}

/// Returns the row, not a redirect, whose protocol and endpoints are the five words from an index.
pub(crate) fn endpoints(line: &str, place: usize) -> Option<Row>
    requires { place < 91 }
    ensures { (row : Bound) → row.fixed ≡ false → texts.IsRowLine row →
        slice_index_or (texts.words_in line.now) place []
        ≡ texts.state_protocol_name row.protocol →
        slice_index_or (texts.words_in line.now) (place + 1) [] ≡ address_text row.inside.address →
        slice_index_or (texts.words_in line.now) (place + 2) [] ≡ decimal row.inside.number →
        slice_index_or (texts.words_in line.now) (place + 3) []
        ≡ address_text row.external.address →
        slice_index_or (texts.words_in line.now) (place + 4) [] ≡ decimal row.external.number →
        result ≡ Some row }
{
    Some(Row {
        fixed: false,
        protocol: protocol(line, place)?,
        inside: endpoint(line, place + 1)?,
        external: endpoint(line, place + 3)?,
    })
}

/// Returns the account in the six words from an index on.
pub(crate) fn account(line: &str, place: usize) -> Option<Account>
    requires { place < 90 }
    ensures read { (account : Held) → texts.IsAccount account →
        slice_index_or (texts.words_in line.now) place [] ≡ decimal account.number →
        slice_index_or (texts.words_in line.now) (place + 1) [] ≡ decimal account.made →
        slice_index_or (texts.words_in line.now) (place + 2) [] ≡ decimal account.sent →
        slice_index_or (texts.words_in line.now) (place + 3) [] ≡ decimal account.received →
        slice_index_or (texts.words_in line.now) (place + 4) [] ≡ decimal account.last →
        slice_index_or (texts.words_in line.now) (place + 5) [] ≡ decimal account.last_sent →
        result ≡ Some account }
    ensures none { slice_index_or (texts.words_in line.now) place [] ≡ [] → result ≡ None }
{
    Some(Account {
        number: number(line, place)?,
        made: number(line, place + 1)?,
        sent: count(line, place + 2)?,
        received: count(line, place + 3)?,
        last: number(line, place + 4)?,
        last_sent: number(line, place + 5)?,
    })
}

fn flag(line: &str, place: usize) -> Option<bool>
    ensures { (is_set : Bool) →
        slice_index_or (texts.words_in line.now) place [] ≡ texts.state_flag is_set →
        result ≡ Some is_set }
{
    match word(line, place) {
        "0" => Some(false),
        "1" => Some(true),
        _ => None,
    }
}

/// Returns the marks in the five words from an index on.
pub(crate) fn marks(line: &str, place: usize) -> Option<SessionMarks>
    requires { place < 100 }
    ensures { (marks : Noted) →
        slice_index_or (texts.words_in line.now) place [] ≡ texts.state_flag marks.syn_out →
        slice_index_or (texts.words_in line.now) (place + 1) [] ≡ texts.state_flag marks.syn_in →
        slice_index_or (texts.words_in line.now) (place + 2) [] ≡ texts.state_flag marks.fin_out →
        slice_index_or (texts.words_in line.now) (place + 3) [] ≡ texts.state_flag marks.fin_in →
        slice_index_or (texts.words_in line.now) (place + 4) [] ≡ texts.state_flag marks.reset →
        result ≡ Some marks }
{
    Some(SessionMarks {
        syn_out: flag(line, place)?,
        syn_in: flag(line, place + 1)?,
        fin_out: flag(line, place + 2)?,
        fin_in: flag(line, place + 3)?,
        reset: flag(line, place + 4)?,
    })
}
