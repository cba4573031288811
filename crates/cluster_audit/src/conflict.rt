//! Which clients hold together what the table of the locks keeps apart.

ghost use Rattle.std.specs.Prelude.{◌≡◌, ◌++◌, filter_map, IfOk, OnOk};
ghost use Rattle.cluster_audit.specs.Conflicts.{conflict_of, conflicting, conflicting_caps, conflicts_of};

use capbits::{Cap, CapSet};
use std::alloc::{AllocError, Global};

/// A client, by the number of its session, with what it holds of an inode.
#[derive(Clone, Copy, Debug, PartialEq, Eq)]
pub struct Holding {
    /// The number of the session.
    pub client: u64,
    pub caps: CapSet,
}

/// Two clients, each with those of its caps that conflict with some of the other's.
#[derive(Clone, Copy, Debug, PartialEq, Eq)]
pub struct Conflict {
    /// The client that is listed first.
    pub one: Holding,
    pub other: Holding,
}

/// The pairs of clients that hold of one inode what the table of the locks lets no two clients hold together: of each holding
/// with each later one, in their order.
pub fn conflicts(alloc: Global, holdings: &[Holding]) -> Result<Vec<Conflict>, AllocError>
    ensures { IfOk result (λ found. found.items ≡ conflicts_of holdings.now) }
{
    let mut found = Vec::new(alloc);
    for (place, one) in holdings.iter().enumerate() {
        push_conflicts(&mut found, one, &holdings[place + 1..])?;
    }
    Ok(found)
}

// Appends the conflicts of one holding with others.
fn push_conflicts(
    found: &mut Vec<Conflict>,
    one: &Holding,
    others: &[Holding],
) -> Result<(), AllocError>
    ensures { OnOk result (found.new.items ≡ found.old.items ++ filter_map (conflict_of one.now) others.now) }
{
    let conflicting_caps = conflicting_caps(one.caps);
    for other in others {
        if let Some(conflict) = conflict_of(one, conflicting_caps, other) {
            found.push(conflict)?;
        }
    }
    Ok(())
}

// How two holdings conflict, where the caps that conflict with those of the first are known.
fn conflict_of(one: &Holding, conflicting_with_one: CapSet, other: &Holding) -> Option<Conflict>
    requires { conflicting_with_one ≡ conflicting_caps one.now.caps }
    ensures { result ≡ conflict_of one.now other.now }
{
    let caps = other.caps.meet(conflicting_with_one);
    if one.client == other.client || caps.is_empty() {
        return None;
    }
    Some(Conflict {
        one: Holding {
            client: one.client,
            caps: one.caps.meet(conflicting_caps(other.caps)),
        },
        other: Holding {
            client: other.client,
            caps,
        },
    })
}

const ALL: [Cap; 15] = [
    Cap::P,
    Cap::As,
    Cap::Ax,
    Cap::Ls,
    Cap::Lx,
    Cap::Xs,
    Cap::Xx,
    Cap::Fs,
    Cap::Fx,
    Cap::Fc,
    Cap::Fr,
    Cap::Fw,
    Cap::Fb,
    Cap::Fa,
    Cap::Fl,
];

// The caps that conflict with some of these.
fn conflicting_caps(caps: CapSet) -> CapSet
    ensures { result ≡ conflicting_caps caps }
{
    let mut conflicting_caps = CapSet::empty();
    for cap in &ALL {
        if caps.has(*cap) {
            conflicting_caps = conflicting_caps.union(CapSet::of(conflicting(*cap)));
        }
    }
    conflicting_caps
}

// The caps that no other client may hold beside this one.
fn conflicting(cap: Cap) -> &'static [Cap]
    ensures { result.now ≡ conflicting cap }
{
    match cap {
        Cap::As => &[Cap::Ax],
        Cap::Ax => &[Cap::As, Cap::Ax],
        Cap::Ls => &[Cap::Lx],
        Cap::Lx => &[Cap::Ls, Cap::Lx],
        Cap::Xs => &[Cap::Xx],
        Cap::Xx => &[Cap::Xs, Cap::Xx],
        Cap::Fs | Cap::Fc => &[Cap::Fx, Cap::Fw, Cap::Fb],
        Cap::Fr => &[Cap::Fx, Cap::Fb],
        Cap::Fw => &[Cap::Fs, Cap::Fx, Cap::Fc, Cap::Fb],
        Cap::Fx | Cap::Fb => &[Cap::Fs, Cap::Fx, Cap::Fc, Cap::Fr, Cap::Fw, Cap::Fb],
        Cap::P | Cap::Fa | Cap::Fl => &[],
    }
}
