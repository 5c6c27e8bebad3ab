//! A request, and the turns that follow it: what a batch makes of each of its requests.

ghost use Rattle.std.specs.Prelude.{◌≡◌, [], ◌∷◌, IfOk, OnErr, map, option_map};
ghost use Rattle.machine_core.specs.Journal.{is_bye};

use crate::listeners::Listeners;
use crate::session::Session;
use machine_core::{Asked, Body, Notice, Reply};
use text_core::NoMemory;
use trace_core::Trace;

/// What a request led to: its reply, and what is told of where the session ran to, if it ran.
#[derive(Drop)]
pub struct Answered {
    pub reply: Reply,
    pub notice: Option<Notice>,
}

impl Answered {
    /// Whether it is the answer to the last request: an accepted `bye`. Takes no memory.
    pub fn is_last(&self) -> bool
        ensures { result ≡ is_bye self.now.reply.body }
    {
        is_bye(&self.reply.body)
    }
}

/// Whether an answer is that to the last request.
fn is_bye(body: &Body) -> bool
    ensures { result ≡ is_bye body.now }
{
    matches!(body, Body::Bye)
}

impl<T: Trace> Session<T> {
    ghost use Rattle.machine_core.specs.Reading.{Reader, IsReader};
    ghost use Rattle.machine_core.specs.Journal.{Ran, notices_of, until_idle, batch_from, told_lines, answered_lines, IsLeft};
    ghost use Rattle.dbg_core.specs.World.{world_of};
    ghost use Rattle.dbg_core.specs.State.{machine_of};
    ghost use Rattle.dbg_core.specs.Answering.{followed};

    /// Turns until it is idle, and what is told of the last. For want of memory they are made too, and not told.
    fn run_out(&mut self, listeners: &mut Listeners) -> Result<Option<Notice>, NoMemory>
        ensures table { self.new.table ≡ self.old.table }
        ensures samples { T.samples self.new.trace ≡ T.samples self.old.trace }
        ensures ran { IfOk result (λ notice. (let ran : Ran = record {
          after = machine_of self.new
              (map (option_map (λ b. heard b)) listeners.new.boxes.items);
          lines = told_lines notice;
        } in ran)
            ≡ until_idle (world_of self.old.table (T.samples self.old.trace))
            (machine_of self.old (map (option_map (λ b. heard b)) listeners.old.boxes.items))) }
        ensures after { machine_of self.new (map (option_map (λ b. heard b)) listeners.new.boxes.items)
            ≡ (until_idle (world_of self.old.table (T.samples self.old.trace))
            (machine_of self.old (map (option_map (λ b. heard b)) listeners.old.boxes.items))).after }
    {
        let turned = self.settle(listeners);
        self.notice(turned)
    }

    /// What follows a reply: turns until it is idle, and what is told of the last; nothing behind the last reply. For want of memory
    /// the turns are made too, and not told.
    fn follow(&mut self, reply: Reply, listeners: &mut Listeners) -> Result<Answered, NoMemory>
        ensures table { self.new.table ≡ self.old.table }
        ensures samples { T.samples self.new.trace ≡ T.samples self.old.trace }
        ensures ran { IfOk result (λ answered. (let ran : Ran = record {
          after = machine_of self.new
              (map (option_map (λ b. heard b)) listeners.new.boxes.items);
          lines = answered_lines answered.reply answered.notice;
        } in ran)
            ≡ followed (world_of self.old.table (T.samples self.old.trace)) reply
            (machine_of self.old (map (option_map (λ b. heard b)) listeners.old.boxes.items))) }
        ensures after { machine_of self.new (map (option_map (λ b. heard b)) listeners.new.boxes.items)
            ≡ (followed (world_of self.old.table (T.samples self.old.trace)) reply
            (machine_of self.old (map (option_map (λ b. heard b)) listeners.old.boxes.items))).after }
    {
        if is_bye(&reply.body) {
            return Ok(Answered {
                reply,
                notice: None,
            });
        }
        let notice = self.run_out(listeners)?;
        Ok(Answered { reply, notice })
    }

    /// Answers a request, and makes turns until it is idle, but for none after a `bye` that is accepted: exactly what a batch makes
    /// of it. Where memory runs out all is as before, or, where it runs out for what is told of the turns, as these leave it.
    pub fn answer(&mut self, asked: &Asked, listeners: &mut Listeners) -> Result<Answered, NoMemory>
        ensures table { self.new.table ≡ self.old.table }
        ensures samples { T.samples self.new.trace ≡ T.samples self.old.trace }
        ensures ran { IfOk result (λ answered. (read : Reader) → IsReader read
            → (let ran : Ran = record {
              after = machine_of self.new
                  (map (option_map (λ b. heard b)) listeners.new.boxes.items);
              lines = answered_lines answered.reply answered.notice;
            } in ran)
            ≡ batch_from read (world_of self.old.table (T.samples self.old.trace)) (asked.now ∷ [])
            (machine_of self.old (map (option_map (λ b. heard b)) listeners.old.boxes.items))) }
        ensures left { OnErr result ((read : Reader) → IsReader read
            → IsLeft read (world_of self.old.table (T.samples self.old.trace)) asked.now
            (machine_of self.old (map (option_map (λ b. heard b)) listeners.old.boxes.items))
            (machine_of self.new (map (option_map (λ b. heard b)) listeners.new.boxes.items))) }
    {
        match self.request(asked, listeners) {
            Ok(reply) => self.follow(reply, listeners),
            Err(NoMemory) => Err(NoMemory),
        }
    }
}
