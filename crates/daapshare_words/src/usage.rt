//! The usage text: how the program is called, a line for each command.

ghost use Rattle.std.specs.Prelude.{◌≡◌, ◌++◌, ◌∷◌, [], codes, IfOk, OnOk};
ghost use Rattle.daapshare_words.specs.Usage.{usage_line, usage_text};

use crate::{check, codes, edit, follow, json, list, rehearse, relay, replay, serve, show};
use std::alloc::{AllocError, Global};

/// Returns the usage text, which is the output if the arguments are not a command's.
pub fn usage_text(alloc: Global) -> Result<Vec<u8>, AllocError>
    ensures { IfOk result (λ text. text.items ≡ usage_text) }
{
    let mut text = Vec::new(alloc);
    push_line(&mut text, "usage: ", list::USAGE)?;
    push_line(&mut text, "       ", show::USAGE)?;
    push_line(&mut text, "       ", check::USAGE)?;
    push_line(&mut text, "       ", codes::USAGE)?;
    push_line(&mut text, "       ", replay::USAGE)?;
    push_line(&mut text, "       ", rehearse::USAGE)?;
    push_line(&mut text, "       ", serve::USAGE)?;
    push_line(&mut text, "       ", edit::USAGE)?;
    push_line(&mut text, "       ", follow::USAGE)?;
    push_line(&mut text, "       ", relay::USAGE)?;
    push_line(&mut text, "       ", json::USAGE)?;
    Ok(text)
}

fn push_line(text: &mut Vec<u8>, margin: &str, words: &str) -> Result<(), AllocError>
    ensures { OnOk result (text.new.items ≡ text.old.items ++ usage_line margin.now words.now) }
{
    text.extend_from_slice(margin.as_bytes())?;
    text.extend_from_slice(b"daapshare ")?;
    text.extend_from_slice(words.as_bytes())?;
    text.push(b'\n')?;
    Ok(())
}
