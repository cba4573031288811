//! Where a byte of an item stands.

ghost use Rattle.std.specs.Prelude.{◌≡◌, ◌+◌, ◌-◌, ◌≤◌, ◌<◌, ◌++◌, ◌^◌, ℕ, List, IsTrue, length, take, drop, get_or};
ghost use Rattle.ceph_input.specs.Rows.{after, closes, depth_of, ends, items_from, longest_item, opens};

/// Where a byte of an item stands, and how many brackets are open around it.
#[derive(Clone, Copy)]
pub enum Place {
    /// Outside of strings.
    Outside {
        /// How many brackets are open.
        depth: u64,
    },
    /// In a string.
    Quoted {
        /// How many brackets are open.
        depth: u64,
    },
    /// In a string, behind a backslash.
    Escaped {
        /// How many brackets are open.
        depth: u64,
    },
}

// Whether the byte is a bracket or a brace that opens.
fn opens(byte: u8) -> bool
    ensures { result ≡ opens byte }
{
    byte == b'[' || byte == b'{'
}

// Whether it is one that closes.
fn closes(byte: u8) -> bool
    ensures { result ≡ closes byte }
{
    byte == b']' || byte == b'}'
}

// Where the byte behind this one stands.
fn after(place: Place, byte: u8) -> Place
    requires { depth_of place + 1 < 2 ^ 64 }
    ensures place { result ≡ after place byte }
    ensures depth { depth_of result ≤ depth_of place + 1 }
{
    match place {
        Place::Outside { depth } => {
            if byte == b'"' {
                Place::Quoted { depth }
            } else if opens(byte) {
                Place::Outside { depth: depth + 1 }
            } else if closes(byte) {
                Place::Outside {
                    depth: depth.saturating_sub(1),
                }
            } else {
                place
            }
        }
        Place::Quoted { depth } => {
            if byte == b'\\' {
                Place::Escaped { depth }
            } else if byte == b'"' {
                Place::Outside { depth }
            } else {
                place
            }
        }
        Place::Escaped { depth } => Place::Quoted { depth },
    }
}

/// Whether an item ends before the byte, which stands there.
pub(crate) fn ends(place: Place, byte: u8) -> bool
    ensures { result ≡ ends place byte }
{
    match place {
        Place::Outside { depth } => depth == 0 && (byte == b',' || byte == b']'),
        _ => false,
    }
}

/// How many of the bytes belong to an item that goes on with them at this place, and where the byte behind them stands.
pub(crate) fn scan(place: Place, bytes: &[u8]) -> (usize, Place)
    requires { depth_of place + length bytes.now < 2 ^ 64 }
    ensures bound { result.0 ≤ length bytes.now }
    ensures depth { depth_of result.1 ≤ depth_of place + result.0 }
    // Where these are not all, the item ends before the next one.
    ensures ended { result.0 < length bytes.now → IsTrue (ends result.1 (get_or bytes.now result.0 0)) }
    ensures rows { (byte : ℕ) (item tail : List ℕ) → length bytes.now ≤ longest_item - length item
        → items_from byte item place (bytes.now ++ tail)
        ≡ items_from (byte + result.0) (item ++ take result.0 bytes.now) result.1 (drop result.0 bytes.now ++ tail) }
{
    let mut here = place;
    for i in 0..bytes.len() {
        let byte = bytes[i];
        if ends(here, byte) {
            return (i, here);
        }
        here = after(here, byte);
    }
    (bytes.len(), here)
}
