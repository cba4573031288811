//! The words of a command line: bytes, and the text that spells them.
//!
//! A word may hold any byte but zero, as a name of a file does. What reads a command line takes text. So each byte is
//! spelled as the character with its number, and spelled back behind the reader: nothing is lost and nothing is refused.
ghost use Rattle.std.specs.Prelude.{◌≡◌, ◌<◌, ℕ, List, All, IfOk};
ghost use Rattle.std.specs.Str.{encode_utf8_all};
ghost use Rattle.std.specs.String.{string_bytes};

use std::alloc::{AllocError, Global};

/// The text that spells these bytes: for each the character with its number. Only memory can be missing.
pub fn spell(alloc: Global, bytes: &[u8]) -> Result<String, AllocError>
    ensures { IfOk result (λ text. string_bytes text ≡ encode_utf8_all bytes.now) }
{
    let mut text = String::new(alloc);
    for byte in bytes {
        text.push(char::from(*byte))?;
    }
    Ok(text)
}

/// The bytes that a text spells. A character that spells no byte stands for its bytes in UTF-8. Only memory can be missing.
pub fn spelled(alloc: Global, text: &str) -> Result<Vec<u8>, AllocError>
    ensures { IfOk result (λ bytes. (spelt : List ℕ) → All (λ byte. byte < 256) spelt → text.now ≡ encode_utf8_all spelt → bytes.items ≡ spelt) }
{
    let mut bytes = Vec::new(alloc);
    for character in text.chars() {
        match u8::try_from(character) {
            Ok(byte) => bytes.push(byte)?,
            Err(_) => bytes.extend_from_slice(character.encode_utf8(&mut [0; 4]).as_bytes())?,
        }
    }
    Ok(bytes)
}
