//! Writes a notice.

ghost use Rattle.std.specs.Prelude.{◌≡◌, [], IfOk};
ghost use Rattle.machine_core.specs.declared.turn.Notice.TheVariants.{Rows, Stopped};
ghost use Rattle.req_json.specs.Objects.{member_texts};
ghost use Rattle.req_json.specs.Notices.{notice_members, notice_text, notice_word, told_members};

use crate::object::{Object, object_of_two};
use listen::StopNote;
use machine_core::Notice;
use std::alloc::Global;
use text_core::{Listed, NoMemory, Text};

/// What a notice is called.
fn notice_word(notice: &Notice) -> &'static str
    ensures { result.now ≡ notice_word notice.now }
{
    match notice {
        Notice::Stopped { .. } => "stopped",
        Notice::Ended => "ended",
        Notice::Start => "start",
        Notice::Rows { .. } => "rows",
    }
}

/// What the notice of a stop has of its own, but for watches.
#[tactic(auto, using(crate::proofs::Objects::texts_with, crate::proofs::Objects::texts_none, crate::proofs::Objects::texts_place))]
fn place_members(
    alloc: Global,
    note: StopNote,
    gens: &Listed<(Text, i64)>,
    paths: &Listed<Text>,
) -> Result<Object, NoMemory>
    ensures { IfOk result (λ object. object ≡ member_texts (told_members (Stopped note gens.now paths.now []))) }
{
    let mut object = object_of_two(alloc, "cycle", &note.cycle, "slot", &note.slot)?;
    object.put_place(alloc, u64::from(note.line))?;
    object.put(alloc, "gens", gens)?;
    object.put(alloc, "threads", paths)?;
    Ok(object)
}

/// What the notice of a stop has of its own: the watches that match there, where there are some.
#[tactic(auto, using(crate::proofs::Objects::texts_with))]
fn stop_members(
    alloc: Global,
    note: StopNote,
    gens: &Listed<(Text, i64)>,
    paths: &Listed<Text>,
    watches: &Listed<u64>,
) -> Result<Object, NoMemory>
    ensures { IfOk result (λ object. object ≡ member_texts (told_members (Stopped note gens.now paths.now watches.now))) }
{
    let mut object = place_members(alloc, note, gens, paths)?;
    if !watches.items().is_empty() {
        object.put(alloc, "watches", watches)?;
    }
    Ok(object)
}

/// What the notice of a listener's last pairs has of its own.
#[tactic(auto, using(crate::proofs::Objects::texts_with, crate::proofs::Objects::texts_none))]
fn rows_members(alloc: Global, k: u32, rows: &Listed<(u64, u64)>) -> Result<Object, NoMemory>
    ensures { IfOk result (λ object. object ≡ member_texts (told_members (Rows k rows.now))) }
{
    object_of_two(alloc, "k", &k, "rows", rows)
}

/// What each notice has of its own.
#[tactic(auto, using(crate::proofs::Objects::texts_none))]
fn told_members(alloc: Global, notice: &Notice) -> Result<Object, NoMemory>
    ensures { IfOk result (λ object. object ≡ member_texts (told_members notice.now)) }
{
    match notice {
        Notice::Stopped {
            note,
            gens,
            paths,
            watches,
        } => stop_members(alloc, *note, gens, paths, watches),
        Notice::Ended | Notice::Start => Ok(Object::new(alloc)),
        Notice::Rows { k, rows } => rows_members(alloc, *k, rows),
    }
}

/// What a notice has.
#[tactic(auto, using(crate::proofs::Objects::texts_with))]
fn notice_members(alloc: Global, notice: &Notice) -> Result<Object, NoMemory>
    ensures { IfOk result (λ object. object ≡ member_texts (notice_members notice.now)) }
{
    let mut object = told_members(alloc, notice)?;
    object.put_word(alloc, "notice", notice_word(notice))?;
    Ok(object)
}

/// The text of a notice: compact JSON, with the keys in the order of their bytes. Fails only where memory runs out.
#[tactic(auto, using(crate::proofs::Objects::object_is))]
pub fn notice_text(alloc: Global, notice: &Notice) -> Result<Vec<u8>, NoMemory>
    ensures { IfOk result (λ text. text.items ≡ notice_text notice.now) }
{
    let object = notice_members(alloc, notice)?;
    let mut text = Vec::new(alloc);
    object.push_to(&mut text)?;
    Ok(text)
}
