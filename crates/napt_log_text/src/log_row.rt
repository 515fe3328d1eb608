//! Rows of a saved log.
ghost use Rattle.std.specs.Prelude.{◌≡◌, ◌++◌, ◌∷◌, ℕ, List, [], Option, codes, decimal, false, length};
ghost use Rattle.napt_config.specs.{Rules.Rules, Text.address_text};
ghost use Rattle.napt_wire.specs.declared.{Endpoint.Endpoint as End, Protocol.Protocol as Carried};
ghost use Rattle.napt_account.specs.declared.log.{LogEntry.LogEntry as Logged, Shortage.Shortage as Short};
ghost use Rattle.napt_log_text.specs.Rows as rows;
ghost use Rattle.napt_log_text.specs.LogRows as saved;
ghost use Rattle.napt_log_text.specs.declared.event.LogEvent.{LogEvent as Told};

use napt_config::Address;
use napt_rules::Row;
use napt_wire::{Endpoint, Protocol};

/// The number of fields in a row of a log.
const FIELDS: usize = 14;

/// The number of fields in a row of a log of the version before, which has two dates and no note.
const EARLIER_FIELDS: usize = 15;

/// A field that may have a number.
#[derive(Clone, Copy, Debug, PartialEq, Eq)]
pub enum LogField {
    Empty,
    Number(u128),
    /// A text that is not a number, or a number of more than 128 bits.
    Other,
}

/// The values in a row of a log, except for the counts, the last use and the note.
#[derive(Clone, Copy, Debug, PartialEq, Eq)]
pub struct LogRow {
    /// The time, in ns.
    pub time: LogField,
    /// natEvent (RFC 8158): 8, a binding was made; 9, one ended; 12 and 13, a packet got none;
    /// empty, a binding is live at the end of the log, and ends at this time if no packet comes.
    pub event: LogField,
    /// The number of the protocol (IANA).
    pub protocol: LogField,
    /// The inside endpoint, or `None` if the row has no number for it.
    pub inside: Option<Endpoint>,
    pub external: Option<Endpoint>,
    /// The number of the binding, from 1.
    pub number: LogField,
    /// 1 for a redirect, 0 for another binding.
    pub redirect: LogField,
    /// Whether the row is about the gateway that writes the log, and about no binding or packet.
    pub is_of_gateway: bool,
}

impl LogRow {
    /// Reads a row without its line feed. Returns `None` if the number of fields is wrong.
    pub fn read(row: &str) -> Option<LogRow>
        ensures { (rules : Rules) (event : Told) → saved.IsEvent event →
            rows.csv_row rules event ≡ row.now ++ codes "\n" →
            result ≡ Some (saved.saved_row event) }
    {
        let fields = field_count(row);
        let (time, others) = first_field(row);
        if fields == FIELDS {
            Some(LogRow::from_fields(time, others))
        } else if fields == EARLIER_FIELDS {
            let (_, others) = first_field(others);
            Some(LogRow::from_fields(time, others))
        } else {
            None
        }
    }

    /// Returns the values of the time and of the fields after it, in the order of
    /// [`header`](crate::header).
    fn from_fields(time: &str, row: &str) -> LogRow
        ensures binding { (at event : Option ℕ) (note : List ℕ) (listed : Logged) →
            saved.IsTimeField at → saved.IsTimeField event → saved.IsEntryField listed →
            time.now ≡ rows.number_if_any at →
            saved.fields_in row.now ≡ rows.listed_fields event note listed →
            result ≡ saved.binding_row at event listed }
        ensures refusal { (external : ℕ) (shortage : Short) → saved.IsTimeField (Some shortage.at) →
            time.now ≡ decimal shortage.at →
            saved.fields_in row.now ≡ rows.shortage_fields external shortage →
            result ≡ saved.refusal_row shortage }
    {
        let (event, row) = first_field(row);
        let (protocol, row) = first_field(row);
        let (inside, row) = first_field(row);
        let (inside_number, row) = first_field(row);
        let (external, row) = first_field(row);
        let (external_number, row) = first_field(row);
        let (_, row) = first_field(row);
        let (number, row) = first_field(row);
        let (redirect, row) = first_field(row);
        let protocol = number_in(protocol);
        LogRow {
            time: number_in(time),
            event: number_in(event),
            protocol,
            inside: endpoint_of(inside, inside_number),
            external: endpoint_of(external, external_number),
            number: number_in(number),
            redirect: number_in(redirect),
            is_of_gateway: is_of_gateway(protocol, row),
        }
    }

    /// Returns the binding of a row. The error names an invalid field, and the expected value.
    pub fn binding(&self) -> Result<Row, &'static str>
        ensures { (time event : Option ℕ) (listed : Logged) →
            self.now ≡ saved.binding_row time event listed → result ≡ Ok listed.entry.binding }
    {
        let Some(protocol) = protocol_of(self.protocol) else {
            return Err("protocolIdentifier: expected 1, 6 or 17");
        };
        let Some(inside) = self.inside else {
            return Err("sourceIPv4Address, sourceTransportPort: expected an address and a number");
        };
        let Some(external) = self.external else {
            return Err(
                "postNATSourceIPv4Address, postNAPTSourceTransportPort: expected an address and a number",
            );
        };
        let fixed = match self.redirect {
            LogField::Number(0) => false,
            LogField::Number(1) => true,
            _ => return Err("redirect: expected 0 or 1"),
        };
        Ok(Row {
            protocol,
            inside,
            external,
            fixed,
        })
    }
}

/// Whether a row is about the gateway: it has no protocol, and of the fields after the redirect
/// only a note, with which a run begins, ends or fails.
fn is_of_gateway(protocol: LogField, others: &str) -> bool
    ensures { (number : ℕ) → protocol ≡ LogField.Number number → result ≡ false }
{
    match (protocol, others.strip_prefix(",,,")) {
        (LogField::Empty, Some(note)) => {
            note.starts_with("gateway ") || note == "end" || note == "fault"
        }
        _ => false,
    }
}

/// Returns the number of fields in a row.
fn field_count(row: &str) -> usize
    ensures { result ≡ length (saved.fields_in row.now) }
{
    row.split(',').count()
}

/// Returns the first field of a row, and the text of the fields after it, which may be empty.
fn first_field(row: &str) -> (&str, &str)
    ensures { (field next : List ℕ) (others : List (List ℕ)) →
        saved.fields_in row.now ≡ field ∷ next ∷ others →
        (result.0.now ≡ field) × (saved.fields_in result.1.now ≡ next ∷ others) }
{
    row.split_once(',').unwrap_or((row, ""))
}

/// Returns the number in a field.
fn number_in(text: &str) -> LogField
    ensures { (number : Option ℕ) → saved.IsTimeField number →
        text.now ≡ rows.number_if_any number → result ≡ saved.number_field number }
{
    if text.is_empty() {
        return LogField::Empty;
    }
    match text.parse::<u128>() {
        Ok(number) => LogField::Number(number),
        Err(_) => LogField::Other,
    }
}

/// Returns the protocol with a number (IANA).
fn protocol_of(number: LogField) -> Option<Protocol>
    ensures { (protocol : Carried) →
        number ≡ saved.number_field (Some (rows.csv_protocol protocol)) →
        result ≡ Some protocol }
{
    match number {
        LogField::Number(1) => Some(Protocol::Icmp),
        LogField::Number(6) => Some(Protocol::Tcp),
        LogField::Number(17) => Some(Protocol::Udp),
        _ => None,
    }
}

/// Returns the endpoint with an address and a number.
fn endpoint_of(address: &str, number: &str) -> Option<Endpoint>
    ensures some { (endpoint : End) → saved.IsEndpointField endpoint →
        address.now ≡ address_text endpoint.address → number.now ≡ decimal endpoint.number →
        result ≡ Some endpoint }
    ensures none { number.now ≡ [] → result ≡ None }
{
    let address = address.parse::<Address>().ok()?;
    let number = number.parse::<u16>().ok()?;
    Some(Endpoint {
        address: address.0,
        number,
    })
}
