//! The lines of the summary.

ghost use Rattle.std.specs.Prelude.{◌≡◌, ◌++◌, ◌∷◌, [], OnOk, IfOk, codes, decimal};
ghost use Rattle.rehearsal.specs.Summary.{told, line, mirror_text};

use itoa::Buffer;
use std::alloc::{AllocError, Global};

/// What the line of a mirror states.
#[derive(Clone, Copy)]
pub(crate) struct Standing {
    pub(crate) rows: u64,
    pub(crate) full: u32,
    pub(crate) delta: u32,
}

pub(crate) fn summary(
    alloc: Global,
    revision: u32,
    items: u32,
    first: Standing,
    second: Standing,
    third: Standing,
) -> Result<Vec<u8>, AllocError>
    ensures { IfOk result (λ text. text.items
        ≡ line (told (codes "revision") revision) ++ line (told (codes "items") items)
        ++ mirror_text 1 first.rows first.full first.delta ++ mirror_text 2 second.rows second.full second.delta ++ mirror_text 3 third.rows third.full third.delta) }
{
    let mut out = Vec::new(alloc);
    push_told(&mut out, "revision", u64::from(revision))?;
    out.push(b'\n')?;
    push_told(&mut out, "items", u64::from(items))?;
    out.push(b'\n')?;
    push_mirror(&mut out, 1, first)?;
    push_mirror(&mut out, 2, second)?;
    push_mirror(&mut out, 3, third)?;
    Ok(out)
}

fn push_mirror(out: &mut Vec<u8>, number: u64, standing: Standing) -> Result<(), AllocError>
    ensures { OnOk result (out.new.items
        ≡ out.old.items ++ mirror_text number standing.rows standing.full standing.delta) }
{
    push_told(out, "mirror", number)?;
    push_told(out, " rows", standing.rows)?;
    push_told(out, " full", u64::from(standing.full))?;
    push_told(out, " delta", u64::from(standing.delta))?;
    out.push(b'\n')?;
    Ok(())
}

// Appends a word, a space and a number.
fn push_told(out: &mut Vec<u8>, word: &str, n: u64) -> Result<(), AllocError>
    ensures { OnOk result (out.new.items ≡ out.old.items ++ told word.now n) }
{
    out.extend_from_slice(word.as_bytes())?;
    out.push(b' ')?;
    out.extend_from_slice(Buffer::new().format(n).as_bytes())?;
    Ok(())
}
