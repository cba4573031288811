//! Who holds something of an inode.

ghost use Rattle.std.specs.Prelude.{◌≡◌, [], IfOk, option_map};
ghost use Rattle.serde_json.specs.View.{items_view, view};
ghost use Rattle.ceph_input.specs.Dump.{holder_of, holders_from};

use crate::values::{number_at, text_at};
use serde_json::Value;
use std::alloc::{AllocError, Global};
use std::marker::Model;

/// A client that holds something of an inode.
pub struct Holder {
    client: u64,
    issued: Vec<u8>,
    pending: Vec<u8>,
}

// Not derived: so the proof of a function that drops one has a single call there.
impl Drop for Holder {
    fn drop(self) {
        let Holder {
            client: _,
            issued: _,
            pending: _,
        } = self;
    }
}

impl Model for Holder {
    ghost use Rattle.ceph_input.specs.Dump.{Held, held};

    ghost Value = { Held };

    ghost view = { λ h. held h.client h.issued.items h.pending.items };
}

impl Holder {
    ghost use Rattle.std.specs.Prelude.{◌≡◌, IfOk};
    ghost use Rattle.ceph_input.specs.Dump.{held};

    // The client with this number, with what it may still hold and what it was last told.
    fn new(alloc: Global, client: u64, issued: &str, pending: &str) -> Result<Holder, AllocError>
        ensures { IfOk result (λ h. h ≡ held client issued.now pending.now) }
    {
        let issued = Vec::from_slice(alloc, issued.as_bytes())?;
        let pending = Vec::from_slice(alloc, pending.as_bytes())?;
        Ok(Holder {
            client,
            issued,
            pending,
        })
    }

    /// The number of its session.
    pub fn client(&self) -> u64
        ensures { result ≡ self.now.client }
    {
        self.client
    }

    /// The text of the caps that it may still hold.
    pub fn issued(&self) -> &[u8]
        ensures { result.now ≡ self.now.issued }
    {
        self.issued.as_slice()
    }

    /// The text of those that it was last told to have. What is issued and not among them is being revoked.
    pub fn pending(&self) -> &[u8]
        ensures { result.now ≡ self.now.pending }
    {
        self.pending.as_slice()
    }
}

// Those who hold something by these items, if each item says it.
pub(crate) fn read_holders(
    alloc: Global,
    items: &[Value],
) -> Result<Option<Vec<Holder>>, AllocError>
    ensures { IfOk result (λ holders. option_map (λ all. all.items) holders ≡ holders_from [] (items_view items.now)) }
{
    let mut holders = Vec::new(alloc);
    for item in items {
        let Some(holder) = read_holder(alloc, item)? else {
            return Ok(None);
        };
        holders.push(holder)?;
    }
    Ok(Some(holders))
}

fn read_holder(alloc: Global, item: &Value) -> Result<Option<Holder>, AllocError>
    ensures { IfOk result (λ holder. holder ≡ holder_of (view item.now)) }
{
    let Some(client) = number_at(item, "client_id") else {
        return Ok(None);
    };
    let Some(issued) = text_at(item, "issued") else {
        return Ok(None);
    };
    let Some(pending) = text_at(item, "pending") else {
        return Ok(None);
    };
    Ok(Some(Holder::new(alloc, client, issued, pending)?))
}
