//! The network of a grant, and the address of a client.
ghost use Rattle.std.specs.Prelude.{◌≡◌, ◌^◌, ◌-◌, ◌<◌, min, option_map, is_some, length, drop, IsTrue};
ghost use Rattle.std.specs.List.{list_all};
ghost use Rattle.std.specs.Str.Parse.{digits_value};
ghost use Rattle.capspec.specs.Words.{is_digit};
ghost use Rattle.release_grants.specs.Networks.{address_in, address_of, begins_as, bits_in, in_network, network_in, share_bits};

use crate::bytes::{rest_while, split_while};
use crate::grant::Text;
use byte_sets::ByteSet;
use capbits::read_u64;
use std::net::IpAddr;

/// Whether a client is in the network of a grant.
#[derive(Clone, Copy)]
pub enum InNetwork {
    /// It is, or the grant is for every network.
    Yes,
    /// It is not, or what the grant has for a network is none.
    No,
    /// The client's address was not told.
    Unknown,
}

/// Whether the address, where it is told, is in the network of a grant, where the grant has one.
pub fn in_network(network: &Option<Text>, address: Option<IpAddr>) -> InNetwork
    ensures { result ≡ in_network network.now (option_map address_of address) }
{
    let Some(text) = network else {
        return InNetwork::Yes;
    };
    let Some((start, bits)) = network_in(text.as_bytes()) else {
        return InNetwork::No;
    };
    let Some(address) = address else {
        return InNetwork::Unknown;
    };
    if begins_as(bits, start, address) {
        InNetwork::Yes
    } else {
        InNetwork::No
    }
}

/// Whether a text writes a network, as `10.0.0.0/8`: an address, a slash and a number of bits. A grant with another text for its network is for nobody.
pub fn writes_network(text: &[u8]) -> bool
    ensures { result ≡ is_some (network_in text.now) }
{
    network_in(text).is_some()
}

// The address and the number of bits that a text writes with a slash between them.
fn network_in(text: &[u8]) -> Option<(IpAddr, u32)>
    ensures { option_map (λ network. record { start = address_of network.0; bits = network.1 }) result ≡ network_in text.now }
{
    let (address, behind) = split_while(ByteSet::AllBut(b'/'), text);
    let start = read_address(address)?;
    let bits = bits_behind(behind)?;
    Some((start, bits))
}

// The number behind the slash.
fn bits_behind(text: &[u8]) -> Option<u32>
    ensures { result ≡ bits_in (drop 1 text.now) }
{
    match text {
        [_, digits @ ..] => bits_in(digits),
        [] => None,
    }
}

/// The address that a whole text writes, as `10.0.0.1` or `fd00::1`.
pub fn read_address(text: &[u8]) -> Option<IpAddr>
    ensures { option_map address_of result ≡ address_in text.now }
{
    IpAddr::parse_ascii(text).ok()
}

// The number that digits write, as the MDS keeps it: of the greatest of 63 bits at most, the last 32.
fn bits_in(digits: &[u8]) -> Option<u32>
    ensures { result ≡ bits_in digits.now }
{
    if digits.is_empty() || !are_digits(digits) {
        return None;
    }
    Some((capped(digits) % 4_294_967_296) as u32)
}

fn are_digits(text: &[u8]) -> bool
    ensures { result ≡ list_all is_digit text.now }
{
    rest_while(ByteSet::Digit, text).is_empty()
}

// The number that digits write, or the greatest of 63 bits if it is greater.
fn capped(digits: &[u8]) -> u64
    requires some { 0 < length digits.now }
    requires digits { IsTrue (list_all is_digit digits.now) }
    ensures { result ≡ min (digits_value 10 digits.now) (2 ^ 63 - 1) }
{
    read_u64(digits).unwrap_or(u64::MAX).min(u64::MAX / 2)
}

// Whether the address is of the kind of the other, and begins with as many of its bits.
fn begins_as(bits: u32, start: IpAddr, address: IpAddr) -> bool
    ensures { result ≡ begins_as bits (address_of start) (address_of address) }
{
    match (start, address) {
        (IpAddr::V4(start), IpAddr::V4(address)) => share_bits(
            bits,
            &start.octets(),
            &address.octets(),
        ),
        (IpAddr::V6(start), IpAddr::V6(address)) => share_bits(
            bits,
            &start.octets(),
            &address.octets(),
        ),
        _ => false,
    }
}

// Whether the first bits are the same, as many as that.
fn share_bits(bits: u32, one: &[u8], other: &[u8]) -> bool
    ensures { result ≡ share_bits bits one.now other.now }
{
    let (Some((x, xs)), Some((y, ys))) = (one.split_first(), other.split_first()) else {
        return true;
    };
    if bits >= 8 {
        return x == y && share_bits(bits - 8, xs, ys);
    }
    let left = 8 - bits;
    u32::from(*x) >> left == u32::from(*y) >> left
}
