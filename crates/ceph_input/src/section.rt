//! The section of an entity, and its line of grants.
ghost use Rattle.std.specs.Prelude.{◌≡◌, ◌⊎◌, ◌++◌, codes, false, IfOk, MatchResult, Ok, Err};
ghost use Rattle.ceph_input.specs.declared.keyring_fault.KeyringFault.TheVariants as faults;
ghost use Rattle.ceph_input.specs.Keyring.{caps_in, is_only, lines, value_in};

use crate::keyring_fault::KeyringFault;
use crate::quoted::{are_blank, read_quoted, skip_blanks};
use std::alloc::{AllocError, Global};

/// The text of the grants that the entity has for the MDS: of its first section, the first line `caps mds = ".."`. The fault is
/// the first thing that is missing, or want of memory.
pub fn mds_caps(alloc: Global, keyring: &[u8], entity: &[u8]) -> Result<Vec<u8>, KeyringFault>
    ensures { MatchResult result
        (λ caps. caps_in keyring.now entity.now ≡ Ok caps.items)
        (λ fault. (fault ≡ faults.NoMemory) ⊎ (caps_in keyring.now entity.now ≡ Err fault)) }
{
    let head = head(alloc, entity)?;
    let value = value(keyring, head.as_slice())?;
    match read_quoted(alloc, value)? {
        Some(caps) => Ok(caps),
        None => Err(KeyringFault::NotQuoted),
    }
}

// The line that begins the section of the entity.
fn head(alloc: Global, entity: &[u8]) -> Result<Vec<u8>, AllocError>
    ensures { IfOk result (λ head. head.items ≡ codes "[" ++ entity.now ++ codes "]") }
{
    let mut head = Vec::new(alloc);
    head.push(b'[')?;
    head.extend_from_slice(entity)?;
    head.push(b']')?;
    Ok(head)
}

// What stands behind `caps mds = ` in the section that begins with this line.
fn value<'a>(keyring: &'a [u8], head: &[u8]) -> Result<&'a [u8], KeyringFault>
    ensures { MatchResult result
        (λ value. value_in head.now false (lines keyring.now) ≡ Ok value.now)
        (λ fault. value_in head.now false (lines keyring.now) ≡ Err fault) }
{
    let mut is_inside = false;
    for line in keyring.split(|byte| *byte == b'\n') {
        let line = skip_blanks(line);
        if !is_inside {
            is_inside = is_only(line, head);
        } else if line.starts_with(b"[") {
            return Err(KeyringFault::NoCaps);
        } else if line.starts_with(CAPS) {
            return Ok(&line[CAPS.len()..]);
        }
    }
    Err(if is_inside {
        KeyringFault::NoCaps
    } else {
        KeyringFault::NoEntity
    })
}

// How the line of the grants begins.
const CAPS: &[u8] = b"caps mds = ";

// Whether the line has only this, and blanks behind it.
fn is_only(line: &[u8], text: &[u8]) -> bool
    ensures { result ≡ is_only text.now line.now }
{
    line.starts_with(text) && are_blank(&line[text.len()..])
}
