//! The lines of a session, behind a text that waits.

ghost use Rattle.std.specs.Prelude.{◌≡◌, ◌++◌, ◌∷◌, [], OnOk, map};
ghost use Rattle.machine_core.specs.Journal.{Replied, Noticed, told_lines, answered_lines};
ghost use Rattle.batch_run.specs.Texts.{line_text, session_text};

use dbg_core::{Answered, Notice, Reply};
use req_json::{notice_text, reply_text};
use std::alloc::Global;
use text_core::NoMemory;

/// Adds a line, with its line feed.
fn push_line(text: &mut Vec<u8>, line: &[u8]) -> Result<(), NoMemory>
    ensures { OnOk result (text.new.items ≡ text.old.items ++ (line.now ++ 10 ∷ [])) }
{
    text.extend_from_slice(line)?;
    text.push(b'\n')?;
    Ok(())
}

/// Adds the line of a reply.
fn push_reply(alloc: Global, text: &mut Vec<u8>, reply: &Reply) -> Result<(), NoMemory>
    ensures { OnOk result (text.new.items ≡ text.old.items ++ line_text (Replied reply.now)) }
{
    let line = reply_text(alloc, reply)?;
    push_line(text, &line)
}

/// Adds the line of a notice.
fn push_notice(alloc: Global, text: &mut Vec<u8>, notice: &Notice) -> Result<(), NoMemory>
    ensures { OnOk result (text.new.items ≡ text.old.items ++ line_text (Noticed notice.now)) }
{
    let line = notice_text(alloc, notice)?;
    push_line(text, &line)
}

/// Adds the line of a notice, if there is one.
fn push_told(alloc: Global, text: &mut Vec<u8>, told: &Option<Notice>) -> Result<(), NoMemory>
    ensures { OnOk result (text.new.items ≡ text.old.items ++ session_text (told_lines told.now)) }
{
    if let Some(notice) = told {
        push_notice(alloc, text, notice)?;
    }
    Ok(())
}

/// Adds the lines of what a request led to.
pub(crate) fn push_answered(
    alloc: Global,
    text: &mut Vec<u8>,
    answered: &Answered,
) -> Result<(), NoMemory>
    ensures { OnOk result (text.new.items ≡ text.old.items ++ session_text (answered_lines answered.now.reply answered.now.notice)) }
{
    push_reply(alloc, text, &answered.reply)?;
    push_told(alloc, text, &answered.notice)
}

/// Adds the lines of notices, in order.
pub(crate) fn push_notices(
    alloc: Global,
    text: &mut Vec<u8>,
    notices: &[Notice],
) -> Result<(), NoMemory>
    ensures { OnOk result (text.new.items ≡ text.old.items ++ session_text (map (λ n. Noticed n) notices.now)) }
{
    for notice in notices {
        push_notice(alloc, text, notice)?;
    }
    Ok(())
}
