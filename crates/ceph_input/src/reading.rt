//! From a text to its auth list.

ghost use Rattle.std.specs.Prelude.{◌≡◌, [], Some, IfOk, IfErr, Ok, option_map};
ghost use Rattle.serde_json.specs.View.{items_view, view};
ghost use Rattle.ceph_input.specs.Auth.{IsFaultOf, auth_of, entities_of, entity_of, list_in, mds_in};

use crate::auth_fault::AuthFault;
use crate::entity::Entity;
use crate::list::AuthList;
use crate::values::{NoJson, read_json};
use serde_json::Value;
use std::alloc::{AllocError, Global};

/// The auth list that a text is: JSON, either a list of entities or an object with such a list at `auth_dump`. The fault is the
/// first thing that is wrong, or want of memory.
pub fn read_auth(alloc: Global, text: &[u8]) -> Result<AuthList, AuthFault>
    ensures ok { IfOk result (λ list. auth_of text.now ≡ Some (Ok list)) }
    ensures err { IfErr result (λ fault. IsFaultOf fault (auth_of text.now)) }
{
    let value = match read_json(alloc, text) {
        Ok(value) => value,
        Err(NoJson::At { line, column }) => return Err(AuthFault::NotJson { line, column }),
        Err(NoJson::NoMemory) => return Err(AuthFault::NoMemory),
    };
    let Some(items) = list_in(&value) else {
        return Err(AuthFault::NoList);
    };
    Ok(AuthList::of(read_entities(alloc, items.as_slice())?))
}

// The items of the list that it has.
fn list_in(value: &Value) -> Option<&Vec<Value>>
    ensures { option_map (λ items. items_view items.now.items) result ≡ list_in (view value.now) }
{
    value.get("auth_dump").unwrap_or(value).as_array()
}

// The entities that these items are.
fn read_entities(alloc: Global, items: &[Value]) -> Result<Vec<Entity>, AuthFault>
    ensures ok { IfOk result (λ entities. entities_of [] (items_view items.now) ≡ Ok entities.items) }
    ensures err { IfErr result (λ fault. IsFaultOf fault (Some (entities_of [] (items_view items.now)))) }
{
    let mut entities = Vec::new(alloc);
    for item in items {
        let Some(entity) = read_entity(alloc, item)? else {
            return Err(AuthFault::NotAnEntity {
                number: entities.len() + 1,
            });
        };
        entities.push(entity)?;
    }
    Ok(entities)
}

// The entity that an item is, if it is one.
fn read_entity(alloc: Global, item: &Value) -> Result<Option<Entity>, AllocError>
    ensures { IfOk result (λ entity. entity ≡ entity_of (view item.now)) }
{
    let Some(name) = item.get("entity").and_then(Value::as_str) else {
        return Ok(None);
    };
    let Some(caps) = item.get("caps").and_then(mds_in) else {
        return Ok(None);
    };
    Ok(Some(Entity::new(alloc, name, caps)?))
}

// The text at `mds` of the caps, or that there is none; None where the caps are no object or what stands there is no text.
fn mds_in(caps: &Value) -> Option<Option<&str>>
    ensures { option_map (option_map (λ text. text.now)) result ≡ mds_in (view caps.now) }
{
    if !caps.is_object() {
        return None;
    }
    match caps.get("mds") {
        None => Some(None),
        Some(text) => text.as_str().map(Some),
    }
}
