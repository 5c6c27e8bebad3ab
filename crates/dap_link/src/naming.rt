//! The names of the files of a design as an editor tells them: it names a file by the part of a path behind its last slash.

ghost use Rattle.std.specs.Prelude.{◌≡◌, IfOk, map, string_bytes};
ghost use Rattle.dap_link.specs.Conversation.{last_part};

use crate::breaking::last_len;
use std::alloc::Global;
use text_core::NoMemory;

/// What stands behind the last slash of a name.
fn behind_slash(name: &str) -> &str
    ensures { result.now ≡ last_part name.now }
{
    let (_, part) = name.split_at(name.len() - last_len(name.as_bytes()));
    part
}

/// What stands behind the last slash of each of these names. Fails only where memory runs out.
pub fn last_parts(alloc: Global, names: &[String]) -> Result<Vec<String>, NoMemory>
    ensures { IfOk result (λ parts. map (λ part. string_bytes part) parts.items ≡ map (λ name. last_part (string_bytes name)) names.now) }
{
    let mut parts = Vec::new(alloc);
    for name in names {
        let part = String::from_str(alloc, behind_slash(name))?;
        parts.push(part)?;
    }
    Ok(parts)
}
