//! The adapter: answers the messages of an editor over a session.
//!
//! Decides: a message is read whole, and all its arguments are judged, before the session is asked; what it leads to is told as plain
//! data, and written last. The listeners that a session wants are made anew for each request, and are none.

ghost use Rattle.std.specs.Prelude.{◌≡◌, ◌∷◌, ◌++◌, [], IfOk, OnOk, map, string_bytes};
ghost use Rattle.dap_text.specs.Texts.{response_text};
ghost use Rattle.dap_link.specs.Conversation.{happened_texts, is_last, next_written, set_reaction, written_then};

use crate::asking::{Reacted, quiet};
use crate::breaking::set_breakpoints;
use crate::leading::lead;
use dap_text::{
    EditorCmd, Happening, LineAsked, Message, Payload, event_text, read_message, response_text,
};
use dbg_core::Session;
use std::alloc::Global;
use text_core::{Listed, NoMemory, Text};
use trace_core::Trace;

/// What a message led to: what is written, in order, each line a message of its own behind its head; and whether it was the last of the
/// conversation, as a `disconnect` that was answered is.
#[derive(Drop)]
pub struct Said {
    pub lines: Vec<Vec<u8>>,
    pub ended: bool,
}

/// The debugger's side of a conversation with an editor: a session, the names of the files of its design, by number, which breakpoints
/// were set for the editor, and how many messages were written.
#[derive(Drop)]
pub struct Adapter<T: Trace> {
    pub(crate) alloc: Global,
    pub(crate) session: Session<T>,
    pub(crate) names: Listed<Text>,
    pub(crate) set: Vec<(u32, u64)>,
    pub(crate) written: u64,
}

/// Names as texts.
fn texts_of(alloc: Global, names: &[String]) -> Result<Vec<Text>, NoMemory>
    ensures { IfOk result (λ texts. texts.items ≡ map (λ name. string_bytes name) names.now) }
{
    let mut texts = Vec::new(alloc);
    for name in names {
        let text = Text::new(alloc, name.as_bytes())?;
        texts.push(text)?;
    }
    Ok(texts)
}

/// The number of the next message that is written, when so many were.
fn next_written(written: u64) -> u64
    ensures { result ≡ next_written written }
{
    written.saturating_add(1)
}

/// How many messages are written then, if something happened.
fn written_then(written: u64, happened: Option<Happening>) -> u64
    ensures { result ≡ written_then written happened }
{
    match happened {
        Some(_) => next_written(written),
        None => written,
    }
}

/// Adds the text of what happened, if something did.
fn push_happened(
    alloc: Global,
    written: u64,
    happened: Option<Happening>,
    lines: &mut Vec<Vec<u8>>,
) -> Result<(), NoMemory>
    ensures { OnOk result (map (λ line. line.items) lines.new.items ≡ map (λ line. line.items) lines.old.items ++ happened_texts written happened) }
{
    if let Some(happened) = happened {
        let text = event_text(alloc, next_written(written), happened)?;
        lines.push(text)?;
    }
    Ok(())
}

/// The texts of what a message led to, behind so many messages and the response, which is the next.
fn lines_of(
    alloc: Global,
    written: u64,
    message: &Message,
    reacted: &Reacted,
) -> Result<Vec<Vec<u8>>, NoMemory>
    ensures { IfOk result (λ lines. map (λ line. line.items) lines.items
        ≡ response_text written message.now.seq message.now.command reacted.now.told ∷ happened_texts written reacted.now.happened) }
{
    let text = response_text(
        alloc,
        written,
        message.seq,
        message.command.text(),
        &reacted.told,
    )?;
    let mut lines = Vec::new(alloc);
    lines.push(text)?;
    push_happened(alloc, written, reacted.happened, &mut lines)?;
    Ok(lines)
}

/// Whether a command is the last of a conversation.
fn is_last(cmd: &EditorCmd) -> bool
    ensures { result ≡ is_last cmd.now }
{
    matches!(cmd, EditorCmd::Disconnect)
}

impl<T: Trace + Drop> Adapter<T> {
    ghost use Rattle.dap_link.specs.Conversation.{begun};
    ghost use Rattle.dap_link.specs.State.{alone};
    ghost use Rattle.dap_link.specs.Conversing.{conversation_of};

    /// An adapter over a session, with the names of the files of its design, by number.
    pub fn new(
        alloc: Global,
        session: Session<T>,
        names: Vec<String>,
    ) -> Result<Adapter<T>, NoMemory>
        ensures begun { IfOk result (λ adapter. conversation_of adapter ≡ begun (alone session)) }
        ensures names { IfOk result (λ adapter. adapter.names ≡ map (λ name. string_bytes name) names.items) }
        ensures table { IfOk result (λ adapter. adapter.session.table ≡ session.table) }
        ensures samples { IfOk result (λ adapter. T.samples adapter.session.trace ≡ T.samples session.trace) }
    {
        let texts = texts_of(alloc, &names)?;
        Ok(Adapter {
            alloc,
            session,
            names: Listed::new(texts),
            set: Vec::new(alloc),
            written: 0,
        })
    }
}

impl<T: Trace> Adapter<T> {
    ghost use Rattle.machine_core.specs.Reading.{Reader, IsReader};
    ghost use Rattle.dap_link.specs.Conversation.{reaction_to, set_in, file_named, spoken, spoken_by};
    ghost use Rattle.dap_link.specs.State.{alone, world_in};
    ghost use Rattle.dap_link.specs.Reactions.{reaction_of};
    ghost use Rattle.dap_link.specs.Conversing.{conversation_of, told_of};

    /// Sets breakpoints.
    fn set_lines(&mut self, path: &[u8], asked: &[LineAsked]) -> Result<Reacted, NoMemory>
        ensures table { self.new.session.table ≡ self.old.session.table }
        ensures samples { T.samples self.new.session.trace ≡ T.samples self.old.session.trace }
        ensures names { self.new.names ≡ self.old.names }
        ensures written { self.new.written ≡ self.old.written }
        ensures reaction { IfOk result (λ reacted. (read : Reader) → IsReader read → reaction_of (alone self.new.session) self.new.set.items reacted
            ≡ set_reaction
            (set_in read (world_in self.old.session) (alone self.old.session) self.old.set.items (file_named self.old.names path.now) asked.now)) }
    {
        let lines = set_breakpoints(
            self.alloc,
            &mut self.session,
            self.names.items(),
            path,
            asked,
            &mut self.set,
        )?;
        Ok(quiet(Payload::Breakpoints {
            lines: Listed::new(lines),
        }))
    }

    /// Does what a command asks.
    fn react(&mut self, cmd: &EditorCmd) -> Result<Reacted, NoMemory>
        ensures table { self.new.session.table ≡ self.old.session.table }
        ensures samples { T.samples self.new.session.trace ≡ T.samples self.old.session.trace }
        ensures names { self.new.names ≡ self.old.names }
        ensures written { self.new.written ≡ self.old.written }
        ensures reaction { IfOk result (λ reacted. (read : Reader) → IsReader read → reaction_of (alone self.new.session) self.new.set.items reacted
            ≡ reaction_to read (world_in self.old.session) self.old.names (conversation_of self.old) cmd.now) }
    {
        match cmd {
            EditorCmd::SetBreakpoints { path, lines } => {
                self.set_lines(path.text().as_bytes(), lines.items())
            }
            other => {
                let reacted = lead(self.alloc, &mut self.session, self.names.items(), other)?;
                Ok(reacted)
            }
        }
    }

    /// Answers a message.
    fn answer(&mut self, message: &Message) -> Result<Said, NoMemory>
        ensures table { self.new.session.table ≡ self.old.session.table }
        ensures samples { T.samples self.new.session.trace ≡ T.samples self.old.session.trace }
        ensures names { self.new.names ≡ self.old.names }
        ensures said { IfOk result (λ said. (read : Reader) → IsReader read → told_of (conversation_of self.new) said
            ≡ spoken_by (conversation_of self.old) message.now
            (reaction_to read (world_in self.old.session) self.old.names (conversation_of self.old) message.now.cmd)) }
    {
        let reacted = self.react(&message.cmd)?;
        let written = next_written(self.written);
        let lines = lines_of(self.alloc, written, message, &reacted)?;
        self.written = written_then(written, reacted.happened);
        Ok(Said {
            lines,
            ended: is_last(&message.cmd),
        })
    }

    /// Answers one message of an editor: JSON with a whole `seq` from 0 to 2^63-1 and a text `command`; to other bytes nothing is said.
    /// What is said and what it leaves are those of the conversation that `specs/Conversation.antt` defines, over the session's world:
    /// one response, and then an event, where something happened. Fails only where memory runs out; then the requests that the message
    /// gives may have been applied in part, and its lines are lost, so that nothing more should be asked.
    pub fn message(&mut self, body: &[u8]) -> Result<Said, NoMemory>
        ensures table { self.new.session.table ≡ self.old.session.table }
        ensures samples { T.samples self.new.session.trace ≡ T.samples self.old.session.trace }
        ensures names { self.new.names ≡ self.old.names }
        ensures said { IfOk result (λ said. (read : Reader) → IsReader read → told_of (conversation_of self.new) said
            ≡ spoken read (world_in self.old.session) self.old.names (conversation_of self.old) body.now) }
    {
        match read_message(self.alloc, body)? {
            Some(message) => self.answer(&message),
            None => Ok(Said {
                lines: Vec::new(self.alloc),
                ended: false,
            }),
        }
    }
}
