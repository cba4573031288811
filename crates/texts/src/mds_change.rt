//! The lines and objects that say what one list of grants allows and another denies by the rules of a release.
ghost use Rattle.std.specs.Prelude.{◌≡◌, ◌++◌, IfOk, OnOk};
ghost use Rattle.texts.specs.MdsChanges.{mds_change_in, mds_changes, networks_text, no_change_in};

use crate::compare_object::{change_objects, print_changed};
use crate::compare_text::{comparison_lines, print_witness_line};
use crate::shape::Shape;
use capbits::print_str;
use policy_analysis::Change;
use std::alloc::{AllocError, Global};

/// In this shape what was gained and what was lost, or that there is none; and at the end, where both lists have networks and no address is told, that
/// these were not compared with each other. `gained by address` and `lost by address` say that one of the two answers depends on the address of
/// the client. Only memory can be missing.
pub fn mds_changes(
    alloc: Global,
    gain: &Option<Change<'_>>,
    loss: &Option<Change<'_>>,
    networks: Networks,
    shape: Shape,
) -> Result<Vec<u8>, AllocError>
    ensures { IfOk result (λ lines. lines.items ≡ mds_changes shape gain.now loss.now networks) }
{
    let mut lines = if gain.is_none() && loss.is_none() {
        no_change(alloc, shape)?
    } else {
        Vec::new(alloc)
    };
    print_mds_change(&mut lines, "gained", "gained by address", gain, shape)?;
    print_mds_change(&mut lines, "lost", "lost by address", loss, shape)?;
    match networks {
        Networks::Compared => {}
        Networks::NotCompared => print_str(&mut lines, networks_text(shape))?,
    }
    Ok(lines)
}

/// Whether the networks of grants were compared with each other.
#[derive(Clone, Copy)]
pub enum Networks {
    /// As far as there are any.
    Compared,
    /// Both lists have some, and no address of a client is told, which they are compared by.
    NotCompared,
}

fn no_change(alloc: Global, shape: Shape) -> Result<Vec<u8>, AllocError>
    ensures { IfOk result (λ lines. lines.items ≡ no_change_in shape) }
{
    match shape {
        Shape::Lines => comparison_lines(alloc, &None, &None),
        Shape::Objects => change_objects(alloc, &None, &None),
    }
}

fn networks_text(shape: Shape) -> &'static str
    ensures { result.now ≡ networks_text shape }
{
    match shape {
        Shape::Lines => "networks not compared: --addr names an address\n",
        Shape::Objects => "{\"change\":\"networks not compared\"}\n",
    }
}

// Appends a change, if there is one, behind the first of these words, or behind the second where the address plays a part.
fn print_mds_change(
    lines: &mut Vec<u8>,
    plain: &str,
    by_address: &str,
    change: &Option<Change<'_>>,
    shape: Shape,
) -> Result<(), AllocError>
    ensures { OnOk result (lines.new.items ≡ lines.old.items ++ mds_change_in shape plain.now by_address.now change.now) }
{
    let Some(change) = change else {
        return Ok(());
    };
    let word = if change.by_address { by_address } else { plain };
    match shape {
        Shape::Lines => {
            print_str(lines, word)?;
            print_witness_line(lines, ": ", &change.witness)
        }
        Shape::Objects => print_changed(lines, word, &change.witness),
    }
}
