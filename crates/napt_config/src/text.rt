//! Parses numbers and addresses.
ghost use Rattle.std.specs.{Prelude.{◌≡◌, ◌≤◌, IfSome}, Char.is_ascii_digit, List.list_all};
ghost use Rattle.napt_config.specs.Text.{is_decimal, number_of, address_of};

use std::net::Ipv4Addr;

fn are_digits(bytes: &[u8]) -> bool
    ensures { result ≡ list_all is_ascii_digit bytes.now }
{
    bytes.iter().all(|byte| byte.is_ascii_digit())
}

/// Returns whether the text is a decimal number: ASCII digits without sign or leading zeros.
fn is_number(text: &str) -> bool
    ensures { result ≡ is_decimal text.now }
{
    let bytes = text.as_bytes();
    let has_leading_zero = bytes.len() > 1 && bytes[0] == b'0';
    !bytes.is_empty() && are_digits(bytes) && !has_leading_zero
}

/// Parses a decimal number, or returns `None` if the text is none from `least` to `most`.
#[tactic(auto, unfolding(crate::specs::Text::number_of))]
pub(crate) fn number(text: &str, least: u32, most: u32) -> Option<u32>
    ensures value { result ≡ number_of least most text.now }
    ensures range { IfSome result (λ number. (least ≤ number) × (number ≤ most)) }
{
    if !is_number(text) {
        return None;
    }
    match text.parse::<u32>() {
        Ok(number) if least <= number && number <= most => Some(number),
        _ => None,
    }
}

/// Parses an IPv4 address, which is returned as a number.
#[tactic(auto, unfolding(crate::specs::Text::address_of))]
pub(crate) fn address(text: &str) -> Option<u32>
    ensures { result ≡ address_of text.now }
{
    match text.parse::<Ipv4Addr>() {
        Ok(address) => Some(address.to_bits()),
        Err(_) => None,
    }
}
