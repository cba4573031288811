//! What stands at the keys of JSON objects.

ghost use Rattle.std.specs.Prelude.{◌≡◌, Some, IfOk, IfErr, option_map};
ghost use Rattle.serde_json.specs.Find.{as_array};
ghost use Rattle.serde_json.specs.View.{items_view, view};
ghost use Rattle.ceph_input.specs.Auth.{json_of};
ghost use Rattle.ceph_input.specs.Values.{IsNoJson, id_at, items_at, number_at, text_at};

use serde_json::Value;
use std::alloc::Global;

// Why a text gives no JSON.
#[derive(Drop)]
pub(crate) enum NoJson {
    // It is none: the line at which the JSON reader stopped, from 1, and the byte of that line.
    At { line: usize, column: usize },
    // No memory was left.
    NoMemory,
}

// The JSON that the text is.
pub(crate) fn read_json(alloc: Global, text: &[u8]) -> Result<Value, NoJson>
    ensures ok { IfOk result (λ value. json_of text.now ≡ Some (view value)) }
    ensures err { IfErr result (λ why. IsNoJson why (json_of text.now)) }
{
    match Value::from_slice(alloc, text) {
        Ok(value) => Ok(value),
        Err(error) if error.is_memory() => Err(NoJson::NoMemory),
        Err(error) => Err(NoJson::At {
            line: error.line(),
            column: error.column(),
        }),
    }
}

// The text at a key.
pub(crate) fn text_at<'v>(value: &'v Value, key: &str) -> Option<&'v str>
    ensures { option_map (λ text. text.now) result ≡ text_at key.now (view value.now) }
{
    value.get(key).and_then(Value::as_str)
}

// The number at a key.
pub(crate) fn number_at(value: &Value, key: &str) -> Option<u64>
    ensures { result ≡ number_at key.now (view value.now) }
{
    value.get(key).and_then(Value::as_u64)
}

// The number at a key, where it has at most 32 bits.
pub(crate) fn id_at(value: &Value, key: &str) -> Option<u32>
    ensures { result ≡ id_at key.now (view value.now) }
{
    match number_at(value, key) {
        Some(number) => u32::try_from(number).ok(),
        None => None,
    }
}

// The items of the list at a key. None stand where there is nothing at the key.
pub(crate) fn items_at<'v>(value: &'v Value, key: &str) -> Option<&'v [Value]>
    ensures { option_map (λ items. items_view items.now) result ≡ items_at key.now (view value.now) }
{
    match value.get(key) {
        Some(list) => items_of(list),
        None => Some(&[]),
    }
}

// The items of a list.
fn items_of(list: &Value) -> Option<&[Value]>
    ensures { option_map (λ items. items_view items.now) result ≡ as_array (view list.now) }
{
    match list.as_array() {
        Some(items) => Some(items.as_slice()),
        None => None,
    }
}
