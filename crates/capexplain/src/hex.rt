//! Bytes in hexadecimal digits.
ghost use Rattle.std.specs.Prelude.{◌≡◌, ℕ, ◌<◌, List, IsTrue, IfOk, MatchResult};
ghost use Rattle.std.specs.Char.{digit_value};
ghost use Rattle.std.specs.List.{list_all};
ghost use Rattle.capstep.specs.declared.event.Event.{Event as AnEvent};
ghost use Rattle.capexplain.specs.Events.{Tells, says_bytes};
ghost use Rattle.capexplain.specs.Faults.{IsRefused};
ghost use Rattle.capexplain.specs.Values.{hex_bytes, is_hex, is_hex_digit};

use crate::refused::Refused;
use lockmachine::Bytes;
use std::alloc::{AllocError, Global};
use texts::LineFault;

// The bytes that the word writes, whatever is said of them: two digits for each, or `-` for none.
pub(crate) fn read_bytes(alloc: Global, word: &[u8]) -> Result<Bytes, Refused>
    ensures { (event : List ℕ → AnEvent)
        → let said = says_bytes event word.now in
        MatchResult result (λ bytes. Tells said (event bytes)) (IsRefused said) }
{
    if word == b"-".as_slice() {
        return Ok(Bytes::read(alloc, &[])?);
    }
    // Whether these are bytes is told before there is memory for them.
    if !is_hex(word) {
        return Err(Refused::Wrong(LineFault::Hex));
    }
    Ok(bytes_of(alloc, word)?)
}

// The bytes, by two digits each.
fn bytes_of(alloc: Global, word: &[u8]) -> Result<Bytes, AllocError>
    requires digits { IsTrue (list_all is_hex_digit word.now) }
    ensures { IfOk result (λ bytes. bytes ≡ hex_bytes word.now) }
{
    let mut bytes = Vec::new(alloc);
    let mut rest = word;
    while let [high, low, behind @ ..] = rest {
        bytes.push(16 * digit_of(*high) + digit_of(*low))?;
        rest = behind;
    }
    Ok(Bytes::from(bytes))
}

// Two digits for each byte, and at least one byte.
fn is_hex(word: &[u8]) -> bool
    ensures { result ≡ is_hex word.now }
{
    !word.is_empty() && word.len() % 2 == 0 && has_digits_alone(word)
}

fn has_digits_alone(word: &[u8]) -> bool
    ensures { result ≡ list_all is_hex_digit word.now }
{
    for byte in word {
        if !is_hex_digit(*byte) {
            return false;
        }
    }
    true
}

fn is_hex_digit(byte: u8) -> bool
    ensures { result ≡ is_hex_digit byte }
{
    matches!(byte, b'0'..=b'9' | b'a'..=b'f')
}

// The value of a digit.
fn digit_of(byte: u8) -> u8
    requires digit { IsTrue (is_hex_digit byte) }
    ensures value { result ≡ digit_value byte }
    ensures small { result < 16 }
{
    match byte {
        b'0'..=b'9' => byte - b'0',
        _ => byte - b'a' + 10,
    }
}
