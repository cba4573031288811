//! The file systems that the grants of an auth list name.
ghost use Rattle.std.specs.Prelude.{◌≡◌, List, IfOk, OnOk, bytes_eq};
ghost use Rattle.std.specs.List.{list_any};
ghost use Rattle.capspec.specs.declared.grant.Grant.{Grant as AGrant};
ghost use Rattle.ceph_input.specs.FsNames.{AreFsNames, HasGrants, fs_among, is_unnamed, named_by, the_one, with_name, with_names};

use crate::entity::Entity;
use crate::list::AuthList;
use capspec::{FsName, Grant, Grants, SpecFaultKind, read_grants};
use std::alloc::{AllocError, Global};

impl AuthList {
    /// The names of the file systems that the grants of its entities name, each once, in the order in which they come. A text that means no grants
    /// names none. Only memory can be missing.
    pub fn fs_names(&self, alloc: Global) -> Result<Vec<FsName>, AllocError>
        ensures { IfOk result (λ names. AreFsNames self.now names.items) }
    {
        names_of(alloc, self.entities())
    }
}

// The names that the grants of these entities name.
fn names_of(alloc: Global, entities: &[Entity]) -> Result<Vec<FsName>, AllocError>
    ensures { IfOk result (λ names. AreFsNames entities.now names.items) }
{
    let mut names = Vec::new(alloc);
    for entity in entities {
        add_entity(&mut names, entity)?;
    }
    Ok(names)
}

// Puts the names behind the others that the grants of an entity name.
fn add_entity(names: &mut Vec<FsName>, entity: &Entity) -> Result<(), AllocError>
    ensures { OnOk result ((grants : List AGrant) × HasGrants entity.now grants
        × (names.new.items ≡ with_names names.old.items (named_by grants))) }
{
    let grants = grants_of(*names.allocator(), entity)?;
    add_names(names, grants.as_slice())
}

// The grants of an entity: those that its text means, or none.
fn grants_of(alloc: Global, entity: &Entity) -> Result<Grants, AllocError>
    ensures { IfOk result (λ grants. HasGrants entity.now grants) }
{
    let Some(text) = entity.caps() else {
        return Grants::none(alloc);
    };
    match read_grants(alloc, text) {
        Ok(grants) => Ok(grants),
        Err(refused) => match refused.kind {
            SpecFaultKind::NoMemory => Err(AllocError),
            _ => Grants::none(alloc),
        },
    }
}

// Puts the names behind the others that grants name.
fn add_names(names: &mut Vec<FsName>, grants: &[Grant]) -> Result<(), AllocError>
    ensures { OnOk result (names.new.items ≡ with_names names.old.items (named_by grants.now)) }
{
    for grant in grants {
        if let Some(name) = &grant.fsname {
            add_name(names, name)?;
        }
    }
    Ok(())
}

// Puts a name behind the others, unless it is one of them.
fn add_name(names: &mut Vec<FsName>, name: &FsName) -> Result<(), AllocError>
    ensures { OnOk result (names.new.items ≡ with_name names.old.items name.now) }
{
    if stands_in(names.as_slice(), name.as_bytes()) {
        return Ok(());
    }
    Ok(names.push(name.clone()?)?)
}

// Whether the name is one of them.
fn stands_in(names: &[FsName], name: &[u8]) -> bool
    ensures { result ≡ list_any (bytes_eq name.now) names.now }
{
    names.iter().any(|other| name == other.as_bytes())
}

/// The file system of which is asked, where grants name these: the one that is given; else the one that is named, if it is one alone; where none is,
/// the name plays no part, and it is `cephfs`. None where several are named: then one has to be given. Only memory can be missing.
pub fn fs_among(names: &[FsName], given: &Option<FsName>) -> Result<Option<FsName>, AllocError>
    ensures { IfOk result (λ fs. fs ≡ fs_among names.now given.now) }
{
    match given {
        Some(fs) => Ok(Some(fs.clone()?)),
        None => the_one(names),
    }
}

// The file system of which is asked where none is given.
fn the_one(names: &[FsName]) -> Result<Option<FsName>, AllocError>
    ensures { IfOk result (λ fs. fs ≡ the_one names.now) }
{
    match names {
        [] => Ok(FsName::read(b"cephfs")),
        [name] => Ok(Some(name.clone()?)),
        _ => Ok(None),
    }
}

/// Whether grants name file systems, these, and none names this one.
pub fn is_unnamed(names: &[FsName], fs: &[u8]) -> bool
    ensures { result ≡ is_unnamed names.now fs.now }
{
    !names.is_empty() && !stands_in(names, fs)
}
