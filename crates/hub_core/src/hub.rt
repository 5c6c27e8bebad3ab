//! A hub: a session with its listeners, and which of its clients are here.

ghost use Rattle.std.specs.Prelude.{◌≡◌, ◌≤◌, ◌<◌, ◌++◌, [], ◌∷◌, ℕ, List, Option, IfOk, OnOk, IfErr, OnErr, Some, None, map, option_map, length, slice_index_or, replicate, set, true, false, if◌then◌else◌};
ghost use Rattle.listen.specs.Pairs.{Heard};
ghost use Rattle.machine_core.specs.Machine.{opening};
ghost use Rattle.machine_core.specs.Journal.{Replied, Noticed, is_bye, told_lines, closing_lines};
ghost use Rattle.req_json.specs.Texts.{line_text, texts_of};
ghost use Rattle.dbg_core.specs.World.{world_of};
ghost use Rattle.dbg_core.specs.State.{machine_of};
ghost use Rattle.hub_core.specs.Hubs.{line, for_one, to_each};

use crate::line::{HubStop, Line};
use crate::tell::{leave_out, tell_turn};
use dbg_core::{Body, Listeners, Notice, Reply, Session, to_drop};
use req_json::{notice_text, read_request, reply_text};
use std::alloc::Global;
use text_core::{Listed, NoMemory};
use trace_core::Trace;

/// A session with its listeners, and which of its at most eight clients are here, by their numbers from 0. Of a session of any type, since
/// no struct can be stated that has both a fact over a trace, as a session has, and boxed listeners.
#[derive(Drop)]
pub struct HubOf<S> {
    session: S,
    listeners: Listeners,
    here: Vec<bool>,
    alloc: Global,
    pub ghost few: { length here.items ≤ 8 },
}

/// A hub over a session.
pub type Hub<T> = HubOf<Session<T>>;

/// Whether an answer is that to an accepted `bye`.
fn is_bye(body: &Body) -> bool
    ensures { result ≡ is_bye body.now }
{
    matches!(body, Body::Bye)
}

/// A client is gone, if it took its leave.
fn leave_if(here: &mut Vec<bool>, client: u32, left: bool)
    requires { client < length here.old.items }
    ensures here { here.new.items ≡ (if left then set here.old.items client false else here.old.items) }
    ensures len { length here.new.items ≡ length here.old.items }
{
    if left {
        here[client as usize] = false;
    }
}

/// Puts a copy of a text last, as a line for a client, if it is here.
fn push_for(
    alloc: Global,
    lines: &mut Vec<Line>,
    client: u32,
    here: bool,
    text: &[u8],
) -> Result<(), NoMemory>
    ensures { OnOk result (lines.new.items ≡ lines.old.items ++ for_one here (line client text.now ∷ [])) }
{
    if here {
        let copy = text.to_vec(alloc)?;
        lines.push(Line {
            client,
            text: Listed::new(copy),
        })?;
    }
    Ok(())
}

/// A text for each client that is here.
fn lines_for(alloc: Global, here: &[bool], text: &[u8]) -> Result<Vec<Line>, NoMemory>
    requires { length here.now ≤ 8 }
    ensures { IfOk result (λ lines. lines.items ≡ to_each 0 here.now (text.now ∷ [])) }
{
    let mut lines = Vec::new(alloc);
    for k in 0..here.len() {
        push_for(alloc, &mut lines, k as u32, here[k], text)?;
    }
    Ok(lines)
}

/// What each client that is here is told.
#[tactic(auto, unfolding(req_json::specs::Texts::line_text))]
fn tell_all(alloc: Global, here: &[bool], notice: Option<Notice>) -> Result<Vec<Line>, NoMemory>
    requires { length here.now ≤ 8 }
    ensures { IfOk result (λ lines. lines.items ≡ to_each 0 here.now (texts_of (told_lines notice))) }
{
    match notice {
        Some(notice) => {
            let text = notice_text(alloc, &notice)?;
            lines_for(alloc, here, &text)
        }
        None => Ok(Vec::new(alloc)),
    }
}

/// The line of a reply.
#[tactic(auto, unfolding(req_json::specs::Texts::line_text))]
fn reply_line(alloc: Global, client: u32, reply: &Reply) -> Result<Line, NoMemory>
    ensures { IfOk result (λ told. told ≡ line client (line_text (Replied reply.now))) }
{
    let text = reply_text(alloc, reply)?;
    Ok(Line {
        client,
        text: Listed::new(text),
    })
}

/// The texts of notices, in order.
fn texts(alloc: Global, notices: &[Notice]) -> Result<Vec<Listed<u8>>, NoMemory>
    ensures { IfOk result (λ texts. texts.items ≡ texts_of (map (λ n. Noticed n) notices.now)) }
{
    let mut texts = Vec::new(alloc);
    for notice in notices {
        let text = notice_text(alloc, notice)?;
        texts.push(Listed::new(text))?;
    }
    Ok(texts)
}

impl<T: Trace + Drop> HubOf<Session<T>> {
    ghost use Rattle.std.specs.Prelude.{IsFalse};
    ghost use Rattle.machine_core.specs.Reading.{Reader, IsReader};
    ghost use Rattle.machine_core.specs.Machine.{is_running};
    ghost use Rattle.hub_core.specs.Hubs.{HubState, ran_to, asked_by, turned, gone};
    ghost use Rattle.hub_core.specs.States.{hub_state};

    /// A hub whose clients, 1 to 8, are all here, over a new session, of whose listeners none was dropped.
    pub fn new(
        alloc: Global,
        session: Session<T>,
        listeners: Listeners,
        clients: u32,
    ) -> Result<Hub<T>, NoMemory>
        requires clients { (1 ≤ clients) × (clients ≤ 8) }
        requires new { (told : List Heard) → machine_of session (map (λ h. Some h) told) ≡ opening told }
        requires undropped { (told : List Heard)
            × (map (option_map (λ b. heard (b.vtable, b.value))) listeners.boxes.items ≡ map (λ h. Some h) told) }
        ensures session { IfOk result (λ hub. hub.session ≡ session) }
        ensures listeners { IfOk result (λ hub. hub.listeners ≡ listeners) }
        ensures here { IfOk result (λ hub. hub.here.items ≡ replicate clients true) }
    {
        let mut here = Vec::new(alloc);
        here.resize(clients as usize, true)?;
        Ok(HubOf {
            session,
            listeners,
            here,
            alloc,
        })
    }

    /// Asks for a client that is here: one line, the reply. One whose `bye` is accepted is not here any more. Where memory ran out, the
    /// request was applied or not, as the answer tells.
    pub fn ask(&mut self, client: u32, text: &[u8]) -> Result<Vec<Line>, HubStop>
        requires here { slice_index_or self.old.here.items client false ≡ true }
        ensures table { self.new.session.table ≡ self.old.session.table }
        ensures samples { T.samples self.new.session.trace ≡ T.samples self.old.session.trace }
        ensures ok { IfOk result (λ lines. (read : Reader) → IsReader read
            → ran_to (hub_state self.new.session self.new.here.items (map (option_map (λ b. heard (b.vtable, b.value))) self.new.listeners.boxes.items))
            lines.items
            ≡ asked_by read (world_of self.old.session.table (T.samples self.old.session.trace))
            (hub_state self.old.session self.old.here.items (map (option_map (λ b. heard (b.vtable, b.value))) self.old.listeners.boxes.items))
            client text.now) }
        ensures applied { IfErr result (λ stop. stop.applied ≡ true → (read : Reader) → IsReader read
            → hub_state self.new.session self.new.here.items (map (option_map (λ b. heard (b.vtable, b.value))) self.new.listeners.boxes.items)
            ≡ (asked_by read (world_of self.old.session.table (T.samples self.old.session.trace))
            (hub_state self.old.session self.old.here.items (map (option_map (λ b. heard (b.vtable, b.value))) self.old.listeners.boxes.items))
            client text.now).after) }
        ensures untouched { IfErr result (λ stop. stop.applied ≡ false
            → hub_state self.new.session self.new.here.items (map (option_map (λ b. heard (b.vtable, b.value))) self.new.listeners.boxes.items)
            ≡ hub_state self.old.session self.old.here.items (map (option_map (λ b. heard (b.vtable, b.value))) self.old.listeners.boxes.items)) }
    {
        let mut lines = Vec::new(self.alloc);
        if lines.try_reserve(1).is_err() {
            return Err(HubStop { applied: false });
        }
        let Ok(reply) = self.apply(client, text) else {
            return Err(HubStop { applied: false });
        };
        match reply_line(self.alloc, client, &reply) {
            Ok(line) => {
                let _ = lines.push(line);
                Ok(lines)
            }
            Err(NoMemory) => Err(HubStop { applied: true }),
        }
    }

    /// Applies a request. For want of memory all is as before.
    fn apply(&mut self, client: u32, text: &[u8]) -> Result<Reply, NoMemory>
        requires here { slice_index_or self.old.here.items client false ≡ true }
        ensures table { self.new.session.table ≡ self.old.session.table }
        ensures samples { T.samples self.new.session.trace ≡ T.samples self.old.session.trace }
        ensures ok { IfOk result (λ reply. (read : Reader) → IsReader read
            → ran_to (hub_state self.new.session self.new.here.items (map (option_map (λ b. heard (b.vtable, b.value))) self.new.listeners.boxes.items))
            (line client (line_text (Replied reply)) ∷ [])
            ≡ asked_by read (world_of self.old.session.table (T.samples self.old.session.trace))
            (hub_state self.old.session self.old.here.items (map (option_map (λ b. heard (b.vtable, b.value))) self.old.listeners.boxes.items))
            client text.now) }
        ensures err { OnErr result (
            hub_state self.new.session self.new.here.items (map (option_map (λ b. heard (b.vtable, b.value))) self.new.listeners.boxes.items)
            ≡ hub_state self.old.session self.old.here.items (map (option_map (λ b. heard (b.vtable, b.value))) self.old.listeners.boxes.items)) }
    {
        let asked = read_request(self.alloc, text)?;
        let reply = self.session.request_alone(&asked, &self.listeners)?;
        leave_out(&mut self.listeners.boxes, to_drop(&asked));
        leave_if(&mut self.here, client, is_bye(&reply.body));
        Ok(reply)
    }

    /// One turn: where it tells something, a line for each client that is here. The turn itself takes no memory, so it is applied where
    /// memory runs out too.
    pub fn turn(&mut self) -> Result<Vec<Line>, HubStop>
        ensures table { self.new.session.table ≡ self.old.session.table }
        ensures samples { T.samples self.new.session.trace ≡ T.samples self.old.session.trace }
        ensures here { self.new.here.items ≡ self.old.here.items }
        ensures state { hub_state self.new.session self.new.here.items (map (option_map (λ b. heard (b.vtable, b.value))) self.new.listeners.boxes.items)
            ≡ (turned (world_of self.old.session.table (T.samples self.old.session.trace))
            (hub_state self.old.session self.old.here.items (map (option_map (λ b. heard (b.vtable, b.value))) self.old.listeners.boxes.items))).after }
        ensures lines { IfOk result (λ lines. lines.items ≡ (turned (world_of self.old.session.table (T.samples self.old.session.trace))
            (hub_state self.old.session self.old.here.items (map (option_map (λ b. heard (b.vtable, b.value))) self.old.listeners.boxes.items))).lines) }
        ensures err { IfErr result (λ stop. stop.applied ≡ true) }
    {
        let turned = self.session.turn_alone();
        tell_turn(&mut self.listeners.boxes, &turned);
        let Ok(notice) = self.session.notice(turned) else {
            return Err(HubStop { applied: true });
        };
        match tell_all(self.alloc, &self.here, notice) {
            Ok(lines) => Ok(lines),
            Err(NoMemory) => Err(HubStop { applied: true }),
        }
    }

    /// Whether a client is here. Takes no memory.
    pub fn here(&self, client: u32) -> bool
        ensures { result ≡ slice_index_or self.now.here.items client false }
    {
        match self.here.get(client as usize) {
            Some(here) => *here,
            None => false,
        }
    }

    /// Which clients are here, by their numbers. Takes no memory.
    pub(crate) fn who_is_here(&self) -> &[bool]
        ensures { result.now ≡ self.now.here.items }
    {
        &self.here
    }

    /// Whether any client is here. Takes no memory.
    pub(crate) fn anyone(&self) -> bool
        ensures none { IsFalse result → (k : ℕ) → slice_index_or self.now.here.items k false ≡ false }
    {
        self.here.contains(&true)
    }

    /// Whether the session runs. Takes no memory.
    pub fn running(&self) -> bool
        ensures { result ≡ is_running self.now.session.motion }
    {
        self.session.running()
    }

    /// A client that is here leaves. Takes no memory.
    pub fn leave(&mut self, client: u32)
        requires here { slice_index_or self.old.here.items client false ≡ true }
        ensures here { self.new.here.items ≡ set self.old.here.items client false }
        ensures session { self.new.session ≡ self.old.session }
        ensures listeners { self.new.listeners ≡ self.old.listeners }
    {
        self.here[client as usize] = false;
    }

    /// The texts of the last lines of the listeners that remain, in order.
    pub fn close(self) -> Result<Vec<Listed<u8>>, NoMemory>
        ensures { IfOk result (λ lines. lines.items
            ≡ texts_of (closing_lines (map (option_map (λ b. heard (b.vtable, b.value))) self.listeners.boxes.items))) }
    {
        let notices = self.listeners.closing_lines()?;
        texts(self.alloc, &notices)
    }
}
