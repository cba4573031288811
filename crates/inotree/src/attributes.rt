//! The extended attributes of an inode.
ghost use Rattle.std.specs.Prelude.{◌≡◌, IfOk, OnOk, OnErr};
ghost use Rattle.std.specs.Option.{option_copied};
ghost use Rattle.std.specs.FinMap as map;

use crate::name::Name;
use std::alloc::{AllocError, Global};
use std::collections::{BTreeMap, btree_map};
use std::marker::Model;
use std::sync::Arc;

/// How many attributes an inode may have.
pub const MAX_ATTRIBUTES: usize = 64;

/// How many bytes the value of an attribute may have.
pub const MAX_VALUE: usize = 4096;

/// The value of an attribute. Its bytes never change, so the tree, replies and the history share them.
#[derive(Debug)]
pub struct Value {
    bytes: Arc<Vec<u8>, Global>,
}

// Not derived: so the proof of a function that drops one has a single call there.
impl Drop for Value {
    fn drop(self) {
        let Value { bytes: _ } = self;
    }
}

impl Model for Value {
    ghost use Rattle.std.specs.Prelude.{List, ℕ};
    ghost use Rattle.std.specs.Arc.{arc_value};

    ghost Value = { List ℕ };

    ghost view = { λ value. (arc_value value.bytes).items };
}

impl Value {
    // A value with these bytes.
    pub(crate) fn read(alloc: Global, bytes: &[u8]) -> Result<Value, AllocError>
        ensures { IfOk result (λ value. value ≡ bytes.now) }
    {
        let bytes = Arc::new(alloc, Vec::from_slice(alloc, bytes)?)?;
        Ok(Value { bytes })
    }

    // A copy of the value. It takes no memory: the error is that of a count of owners which can't be reached.
    fn again(&self) -> Result<Value, AllocError>
        ensures { IfOk result (λ value. value ≡ self.now) }
    {
        let bytes = Arc::try_clone(&self.bytes)?;
        Ok(Value { bytes })
    }

    /// The bytes of the value.
    pub fn as_bytes(&self) -> &[u8]
        ensures { result.now ≡ self.now }
    {
        self.bytes.as_slice()
    }
}

/// The attributes of one inode, by their names.
#[derive(Debug)]
pub struct Attributes {
    values: BTreeMap<Name, Value>,
}

// Not derived: so the proof of a function that drops one has a single call there.
impl Drop for Attributes {
    fn drop(self) {
        let Attributes { values: _ } = self;
    }
}

impl Model for Attributes {
    ghost use Rattle.std.specs.FinMap as map;
    ghost use Rattle.inotree.specs.Node.{AttributeMap, attribute_map_code};

    ghost Value = { AttributeMap };

    ghost coded = { attribute_map_code };

    ghost view = { λ a. map.from_entries a.values.entries };
}

impl Attributes {
    // No attributes.
    pub(crate) fn new(alloc: Global) -> Attributes
        ensures { result ≡ map.empty }
    {
        Attributes {
            values: BTreeMap::new(alloc),
        }
    }

    /// How many attributes there are.
    pub fn len(&self) -> usize
        ensures { result ≡ map.len self.now }
    {
        self.values.len()
    }

    /// The value of an attribute, where the inode has it.
    pub fn get(&self, name: &Name) -> Option<&Value>
        ensures { option_copied result ≡ map.get self.now name.now }
    {
        self.values.get(name)
    }

    /// The attributes with their values, in the order of the bytes of their names.
    pub fn iter(&self) -> btree_map::Iter<'_, Name, Value>
        ensures { result ≡ map.entries self.now }
    {
        self.values.iter()
    }

    /// A copy of the attributes. It shares their values, which take no memory of their own.
    pub fn copy(&self, alloc: Global) -> Result<Attributes, AllocError>
        ensures { IfOk result (λ copy. copy ≡ self.now) }
    {
        let mut made = Attributes::new(alloc);
        for (name, value) in self.iter() {
            let value = value.again()?;
            made.insert(name.copy(), value)?;
        }
        Ok(made)
    }

    // Gives the attribute this value, in place of one that is there.
    pub(crate) fn insert(&mut self, name: Name, value: Value) -> Result<(), AllocError>
        ensures ok { OnOk result (self.new ≡ map.insert self.old name value) }
        ensures err { OnErr result (self.new ≡ self.old) }
    {
        self.values.insert(name, value)?;
        Ok(())
    }

    // Takes the attribute out.
    pub(crate) fn remove(&mut self, name: &Name)
        ensures { self.new ≡ map.remove self.old name.now }
    {
        self.values.remove(name);
    }
}
