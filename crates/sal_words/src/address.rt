//! Addresses in words.

ghost use Rattle.std.specs.Prelude.{◌≡◌};
ghost use Rattle.std.specs.Option.{option_map};
ghost use Rattle.sal_words.specs.Numbers.{cut, number_within, host_of, address_of};

use crate::number::number;

/// An IPv4 address with a port.
#[derive(Clone, Copy, Debug, PartialEq, Eq)]
pub struct Address {
    /// The four numbers of the host, the first being the highest byte.
    pub host: u32,
    /// The port, 1 to 65,535.
    pub port: u16,
}

// What stands before and after the first dot.
fn cut_at_dot(text: &str) -> Option<(&str, &str)>
    ensures { option_map (λ x. (x.0.now, x.1.now)) result ≡ cut 46 text.now }
{
    text.split_once('.')
}

// What stands before and after the first colon.
fn cut_at_colon(text: &str) -> Option<(&str, &str)>
    ensures { option_map (λ x. (x.0.now, x.1.now)) result ≡ cut 58 text.now }
{
    text.split_once(':')
}

// One of the four numbers of a host.
fn octet(text: &str) -> Option<u8>
    ensures { result ≡ number_within 0 255 text.now }
{
    let octet = number(text, 0, 255)?;
    Some(octet as u8)
}

fn port(text: &str) -> Option<u16>
    ensures { result ≡ number_within 1 65535 text.now }
{
    let port = number(text, 1, 65535)?;
    Some(port as u16)
}

// Four numbers of 0 to 255, joined by dots.
fn host(text: &str) -> Option<u32>
    ensures { result ≡ host_of text.now }
{
    let (first, rest) = cut_at_dot(text)?;
    let (second, rest) = cut_at_dot(rest)?;
    let (third, fourth) = cut_at_dot(rest)?;
    let octets = [octet(first)?, octet(second)?, octet(third)?, octet(fourth)?];
    Some(u32::from_be_bytes(octets))
}

/// The address that a word is: four numbers of 0 to 255 joined by dots, a colon, and a port of 1 to 65,535.
pub(crate) fn read_address(text: &str) -> Option<Address>
    ensures { result ≡ address_of text.now }
{
    let (host_text, port_text) = cut_at_colon(text)?;
    let host = host(host_text)?;
    let port = port(port_text)?;
    Some(Address { host, port })
}
