//! Numbers, names and ranges at the end of a text.

ghost use Rattle.std.specs.Prelude.{◌≡◌, ◌++◌, OnOk};
ghost use Rattle.std.specs.Fmt.{decimal};
ghost use Rattle.dpi_wrapper.specs.WrapperText.{range};

use std::alloc::{AllocError, Global};
use sv_base::Port;

/// Adds a number in decimal digits.
pub fn push_decimal(alloc: Global, into: &mut Vec<u8>, number: u64) -> Result<(), AllocError>
    ensures { OnOk result (into.new.items ≡ into.old.items ++ decimal number) }
{
    let digits = number.to_string(alloc)?;
    into.extend_from_slice(digits.as_bytes())
}

/// Adds a name between two texts.
pub fn push_between(
    into: &mut Vec<u8>,
    front: &[u8],
    name: &[u8],
    back: &[u8],
) -> Result<(), AllocError>
    ensures { OnOk result (into.new.items ≡ into.old.items ++ (front.now ++ name.now ++ back.now)) }
{
    into.extend_from_slice(front)?;
    into.extend_from_slice(name)?;
    into.extend_from_slice(back)
}

/// Adds the range of a width, with the blank behind it.
#[tactic(auto, unfolding(crate::specs::WrapperText::range))]
pub fn push_range(alloc: Global, into: &mut Vec<u8>, width: u32) -> Result<(), AllocError>
    ensures { OnOk result (into.new.items ≡ into.old.items ++ range width) }
{
    into.push(b'[')?;
    push_decimal(alloc, into, u64::from(width.saturating_sub(1)))?;
    into.extend_from_slice(b":0] ")
}

/// Adds a text, and the range and the name of a port.
pub fn push_ranged(
    alloc: Global,
    into: &mut Vec<u8>,
    front: &[u8],
    port: &Port,
) -> Result<(), AllocError>
    ensures { OnOk result (into.new.items
        ≡ into.old.items ++ (front.now ++ range port.now.width ++ port.now.name)) }
{
    into.extend_from_slice(front)?;
    push_range(alloc, into, port.width)?;
    into.extend_from_slice(port.name.bytes())
}
