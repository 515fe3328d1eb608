//! Numbers, addresses and endpoints as texts.
ghost use Rattle.std.specs.Prelude.{◌≡◌, ◌++◌, OnOk, decimal, string_bytes};
ghost use Rattle.napt_config.specs.Text.{address_text};
ghost use Rattle.napt_records.specs.Report.{endpoint_text};
ghost use Rattle.napt_log_text.specs.Times.{padded};

use crate::suffix::Suffix;
use itoa::Buffer;
use napt_wire::Endpoint;
use std::alloc::AllocError;

/// Appends a number in decimal. Fails only if memory is refused.
pub fn add_number(text: &mut String, number: u64) -> Result<(), AllocError>
    ensures { OnOk result (string_bytes text.new ≡ string_bytes text.old ++ decimal number) }
{
    let mut digits = Buffer::new();
    text.push_str(digits.format(number))
}

/// Appends a number in decimal, padded with zeros up to a width. Fails only if memory is refused.
pub(crate) fn add_padded(text: &mut String, number: u32, width: usize) -> Result<(), AllocError>
    ensures { OnOk result (string_bytes text.new ≡ string_bytes text.old ++ padded width number) }
{
    let mut digits = Buffer::new();
    let shown = digits.format(number);
    for _ in shown.len()..width {
        text.push_str("0")?;
    }
    text.push_str(shown)?;
    Ok(())
}

/// Appends an address in host order, such as `10.0.0.2`. Fails only if memory is refused.
pub fn add_address(text: &mut String, address: u32) -> Result<(), AllocError>
    ensures { OnOk result (string_bytes text.new ≡ string_bytes text.old ++ address_text address) }
{
    let mut shown = Suffix::new();
    shown.push_address(address);
    shown.add_to(text)
}

/// Appends an endpoint, such as `10.0.0.2:5000`. Fails only if memory is refused.
pub fn add_endpoint(text: &mut String, endpoint: Endpoint) -> Result<(), AllocError>
    ensures { OnOk result (string_bytes text.new
        ≡ string_bytes text.old ++ endpoint_text endpoint) }
{
    let mut shown = Suffix::new();
    shown.push_number(endpoint.number);
    shown.push_byte(b':');
    shown.push_address(endpoint.address);
    shown.add_to(text)
}
