//! Inodes of the tree.

ghost use Rattle.std.specs.Prelude.{◌≡◌, ◌%◌, IfOk};
ghost use Rattle.serde_json.specs.View.{view};
ghost use Rattle.ceph_input.specs.Dump.{attr_in, inode_of, prior_in};

use crate::holder::{Holder, read_holders};
use crate::values::{id_at, items_at, number_at, text_at};
use capbits::Mode;
use capgrant::Attr;
use capspec::TreePath;
use serde_json::Value;
use std::alloc::{AllocError, Global};
use std::marker::Model;

/// An inode of the tree.
pub struct TreeInode {
    number: u64,
    attr: Attr,
    prior: Option<TreePath>,
    holders: Vec<Holder>,
}

// Not derived: so the proof of a function that drops one has a single call there.
impl Drop for TreeInode {
    fn drop(self) {
        let TreeInode {
            number: _,
            attr: _,
            prior: _,
            holders: _,
        } = self;
    }
}

impl Model for TreeInode {
    ghost use Rattle.ceph_input.specs.Dump.{Listed, listed};

    ghost Value = { Listed };

    ghost view = { λ i. listed i.number i.attr i.prior i.holders.items };
}

impl TreeInode {
    ghost use Rattle.std.specs.Prelude.{◌≡◌, option_map};

    /// Its number.
    pub fn number(&self) -> u64
        ensures { result ≡ self.now.number }
    {
        self.number
    }

    /// Its owner, group and mode.
    pub fn attr(&self) -> &Attr
        ensures { result.now ≡ self.now.attr }
    {
        &self.attr
    }

    /// The path that it had before it was unlinked, if it was. By that the metadata server judges it.
    pub fn prior_path(&self) -> Option<&TreePath>
        ensures { option_map (λ path. path.now) result ≡ self.now.prior }
    {
        self.prior.as_ref()
    }

    /// Who holds something of it, in the order of the text.
    pub fn holders(&self) -> &[Holder]
        ensures { result.now ≡ self.now.holders }
    {
        self.holders.as_slice()
    }
}

// The inode that an item is, if it is one.
pub(crate) fn read_inode(alloc: Global, item: &Value) -> Result<Option<TreeInode>, AllocError>
    ensures { IfOk result (λ inode. inode ≡ inode_of (view item.now)) }
{
    let (Some(number), Some(attr), Some(items)) = (
        number_at(item, "ino"),
        attr_in(item),
        items_at(item, "client_caps"),
    ) else {
        return Ok(None);
    };
    let Some(holders) = read_holders(alloc, items)? else {
        return Ok(None);
    };
    let prior = read_prior_path(alloc, item)?;
    Ok(Some(TreeInode {
        number,
        attr,
        prior,
        holders,
    }))
}

// The path that an item had before it was unlinked.
fn read_prior_path(alloc: Global, item: &Value) -> Result<Option<TreePath>, AllocError>
    ensures { IfOk result (λ path. path ≡ prior_in (view item.now)) }
{
    let Some(text) = text_at(item, "stray_prior_path") else {
        return Ok(None);
    };
    let path = text.as_bytes();
    if path.is_empty() {
        return Ok(None);
    }
    Ok(Some(TreePath::from_text(alloc, path)?))
}

// The owner, the group and the mode of an item.
fn attr_in(item: &Value) -> Option<Attr>
    ensures { result ≡ attr_in (view item.now) }
{
    match (
        id_at(item, "uid"),
        id_at(item, "gid"),
        number_at(item, "mode"),
    ) {
        (Some(uid), Some(gid), Some(bits)) => Some(Attr {
            uid,
            gid,
            mode: mode_of(bits),
        }),
        _ => None,
    }
}

// The mode without the kind of the inode, which stands above its twelve bits.
fn mode_of(bits: u64) -> Mode
    ensures { result ≡ bits % 0o10000 }
{
    Mode::new((bits % 0o10000) as u16).unwrap()
}
