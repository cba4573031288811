//! The texts of what an inode keeps of a part.
ghost use Rattle.std.specs.Prelude.{◌≡◌, ◌++◌, OnOk};
ghost use Rattle.capexplain.specs.ValueTexts.{attr_text, attribute_text, values_text};

use capbits::{print, print_numbered, print_str};
use capgrant::Attr;
use capstep::PartValues;
use inotree::Attributes;
use std::alloc::AllocError;
use texts::{print_bytes, print_mode};

// Appends what an inode keeps of a part.
pub(crate) fn print_values(text: &mut Vec<u8>, values: &PartValues) -> Result<(), AllocError>
    ensures { OnOk result (text.new.items ≡ text.old.items ++ values_text values.now) }
{
    match values {
        PartValues::Auth(attr) => print_attr(text, attr),
        PartValues::Link => print_str(text, "L 1"),
        PartValues::Xattr(attributes) => print_attributes(text, attributes),
        PartValues::File { size, time } => print(text, format_args!("F {size} {time}")),
    }
}

fn print_attr(text: &mut Vec<u8>, attr: &Attr) -> Result<(), AllocError>
    ensures { OnOk result (text.new.items ≡ text.old.items ++ attr_text attr.now) }
{
    let Attr { uid, gid, mode } = *attr;
    print(text, format_args!("A {uid} {gid} "))?;
    print_mode(text, mode)
}

fn print_attributes(text: &mut Vec<u8>, attributes: &Attributes) -> Result<(), AllocError>
    ensures { OnOk result (text.new.items ≡ text.old.items ++ values_text (PartValues.Xattr attributes.now)) }
{
    let count = attributes.len();
    print_numbered(text, "X ", count as u64)?;
    for (name, value) in attributes.iter() {
        print_attribute(text, name.as_bytes(), value.as_bytes())?;
    }
    Ok(())
}

fn print_attribute(text: &mut Vec<u8>, name: &[u8], value: &[u8]) -> Result<(), AllocError>
    ensures { OnOk result (text.new.items ≡ text.old.items ++ attribute_text (name.now, value.now)) }
{
    text.push(b' ')?;
    text.extend_from_slice(name)?;
    text.push(b'=')?;
    print_bytes(text, value)
}
