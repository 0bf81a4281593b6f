//! Reading the text of a wrapper: the comments and the name of the module make a face, and the text of that face
//! is compared with the bytes.

ghost use Rattle.std.specs.Prelude.{◌≡◌, codes, IfOk, IfSome, IfNone};
ghost use Rattle.sv_base.specs.declared.face.WrapperFace.{WrapperFace};
ghost use Rattle.dpi_wrapper.specs.WrapperText.{wrapper_text};
ghost use Rattle.dpi_wrapper.specs.GoodFace.{IsGoodWrapper};
ghost use Rattle.dpi_wrapper.specs.code.Reading.{Gives, number_at, port_at, row_at, items_at, candidate_of};

use crate::fields::{after, behind, class_of, digest_at, number_at, sign_of, word_at};
use crate::good::{PORT_LIMIT, is_good};
use crate::unread::Unread;
use crate::writing::write_wrapper;
use std::alloc::{AllocError, Global};
use sv_base::{Face, Name, Port, Sequence, Summary, WrapperFace};

#[tactic(auto, unfolding(crate::specs::code::Reading::port_at))]
fn port_at(alloc: Global, bytes: &[u8]) -> Result<(Port, &[u8]), Unread>
    ensures { Gives (λ x. (x.0, x.1.now)) result (port_at bytes.now) }
{
    let (name, rest) = word_at(bytes)?;
    let (class, rest) = word_at(rest)?;
    let class = class_of(class)?;
    let (sign, rest) = word_at(rest)?;
    let signed = sign_of(sign)?;
    let (width, rest) = number_at(rest)?;
    let rest = behind(rest, b"\n")?;
    let name = Name::of(alloc, name)?;
    Ok((
        Port {
            name,
            class,
            signed,
            width,
        },
        rest,
    ))
}

fn ports_at(alloc: Global, limit: usize, bytes: &[u8]) -> Result<(Vec<Port>, &[u8]), Unread>
    ensures { Gives (λ x. (x.0.items, x.1.now)) result
        (items_at (codes "// port ") port_at limit bytes.now) }
{
    let mut ports = Vec::new(alloc);
    let mut rest = bytes;
    for _ in 0..limit {
        let Some(start) = after(rest, b"// port ") else {
            return Ok((ports, rest));
        };
        let (port, end) = port_at(alloc, start)?;
        ports.push(port)?;
        rest = end;
    }
    Ok((ports, rest))
}

fn positions_at(alloc: Global, limit: usize, bytes: &[u8]) -> Result<(Vec<u32>, &[u8]), Unread>
    ensures { Gives (λ x. (x.0.items, x.1.now)) result
        (items_at (codes " ") number_at limit bytes.now) }
{
    let mut positions = Vec::new(alloc);
    let mut rest = bytes;
    for _ in 0..limit {
        let Some(start) = after(rest, b" ") else {
            return Ok((positions, rest));
        };
        let (position, end) = number_at(start)?;
        positions.push(position)?;
        rest = end;
    }
    Ok((positions, rest))
}

#[tactic(auto, unfolding(crate::specs::code::Reading::row_at))]
fn row_at(alloc: Global, bytes: &[u8]) -> Result<(Sequence<u32>, &[u8]), Unread>
    ensures { Gives (λ x. (x.0, x.1.now)) result (row_at bytes.now) }
{
    let (_, rest) = number_at(bytes)?;
    let (row, rest) = positions_at(alloc, PORT_LIMIT, rest)?;
    let rest = behind(rest, b"\n")?;
    Ok((Sequence::from_vec(row), rest))
}

fn rows_at(alloc: Global, limit: usize, bytes: &[u8]) -> Result<(Vec<Sequence<u32>>, &[u8]), Unread>
    ensures { Gives (λ x. (x.0.items, x.1.now)) result
        (items_at (codes "// depends ") row_at limit bytes.now) }
{
    let mut rows = Vec::new(alloc);
    let mut rest = bytes;
    for _ in 0..limit {
        let Some(start) = after(rest, b"// depends ") else {
            return Ok((rows, rest));
        };
        let (row, end) = row_at(alloc, start)?;
        rows.push(row)?;
        rest = end;
    }
    Ok((rows, rest))
}

/// The face that the comments and the name of the module make. No other good face can have the bytes as its text.
#[tactic(auto, unfolding(crate::specs::code::Reading::candidate_of))]
fn candidate(alloc: Global, bytes: &[u8]) -> Result<WrapperFace, Unread>
    ensures { Gives (λ w. w) result (candidate_of bytes.now) }
{
    let rest = behind(bytes, b"// hier_wrapper 1\n// digest ")?;
    let (digest, rest) = digest_at(rest)?;
    let rest = behind(rest, b"\n")?;
    let (ports, rest) = ports_at(alloc, PORT_LIMIT, rest)?;
    let (rows, rest) = rows_at(alloc, PORT_LIMIT, rest)?;
    let rest = behind(rest, b"module ")?;
    let (name, _) = word_at(rest)?;
    let name = Name::of(alloc, name)?;
    Ok(WrapperFace {
        face: Face {
            name,
            ports: Sequence::from_vec(ports),
        },
        summary: Summary {
            rows: Sequence::from_vec(rows),
        },
        digest,
    })
}

/// The face, where it is good and the bytes are its text.
fn confirmed(alloc: Global, w: WrapperFace, bytes: &[u8]) -> Result<Option<WrapperFace>, AllocError>
    ensures some { IfOk result (λ found. IfSome found (λ v. (v ≡ w)
        × IsGoodWrapper w × (bytes.now ≡ wrapper_text w))) }
    ensures none { IfOk result (λ found. IfNone found (IsGoodWrapper w → bytes.now ≡ wrapper_text w → ⊥)) }
{
    if !is_good(&w) {
        return Ok(None);
    }
    let text = write_wrapper(alloc, &w)?;
    if text.as_slice() == bytes {
        Ok(Some(w))
    } else {
        Ok(None)
    }
}

/// The good face, with its summary and digest, whose text the bytes are, byte for byte; None where there is none. A
/// good face has names of at most `NAME_LIMIT` bytes, which differ among its ports, widths of 1 to `MAX_WIDTH`, which
/// are 1 for clocks, and at most `PORT_LIMIT` ports; its summary has a row for each output, whose positions rise and
/// are those of data inputs.
pub fn read_wrapper(alloc: Global, bytes: &[u8]) -> Result<Option<WrapperFace>, AllocError>
    ensures some { IfOk result (λ found. IfSome found (λ w. IsGoodWrapper w × (bytes.now ≡ wrapper_text w))) }
    ensures none { IfOk result (λ found. IfNone found
        ((w : WrapperFace) → IsGoodWrapper w → bytes.now ≡ wrapper_text w → ⊥)) }
{
    match candidate(alloc, bytes) {
        Ok(w) => confirmed(alloc, w, bytes),
        Err(Unread::NoMemory) => Err(AllocError),
        Err(Unread::NoFace) => Ok(None),
    }
}
