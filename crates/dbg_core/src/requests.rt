//! The requests of a session, each by a call of its own, and the answer to each. No call here changes anything before it has found all
//! the memory that its answer takes, or it takes back what it changed.

ghost use Rattle.std.specs.Prelude.{◌≡◌, ℕ, List, Option, IfOk, OnErr, map, option_map};
ghost use Rattle.machine_core.specs.Machine.{going_of, asked_id};
ghost use Rattle.dbg_core.specs.Answering.{run_granted, step_granted};
ghost use Rattle.dbg_core.specs.Alone.{dropped_by, to_drop, without};

use crate::arming::{break_asked, numbers_of, watch_asked};
use crate::listeners::Listeners;
use crate::position::at_place;
use crate::session::Session;
use crate::stops::{busy, eval_asked, going, threads_asked, values_asked};
use crate::texts::{bad_text, bytes_in, text_in};
use machine_core::{Asked, Body, Cmd, Going, Motion, Reply, Utf8};
use text_core::{Listed, NoMemory, Text};
use trace_core::{Trace, Want, Way};

/// The number of the listener that a command drops.
fn dropped_by(cmd: &Cmd) -> Option<u64>
    ensures { result ≡ dropped_by cmd.now }
{
    match cmd {
        Cmd::Drop { k } => Some(*k),
        _ => None,
    }
}

/// Whether a session runs, and in which direction.
fn going_of(motion: Motion) -> Going
    ensures { result ≡ going_of motion }
{
    match motion {
        Motion::Idle => Going::Idle,
        Motion::Running(way, _) => going(way),
    }
}

/// What is granted to a session that runs to a breakpoint.
fn run_granted(way: Way) -> Body
    ensures { result ≡ run_granted way }
{
    match way {
        Way::Forward => Body::Continue,
        Way::Backward => Body::Reverse,
    }
}

/// What is granted to a session that makes a step.
fn step_granted(way: Way) -> Body
    ensures { result ≡ step_granted way }
{
    match way {
        Way::Forward => Body::Step,
        Way::Backward => Body::Back,
    }
}

/// The number of the listener that a request drops, if that one remains; none, where it asks for something else. Takes no memory.
pub fn to_drop(asked: &Asked) -> Option<u64>
    ensures { result ≡ to_drop asked.now }
{
    match asked {
        Asked::Good(request) => dropped_by(&request.cmd),
        Asked::Bad(_) => None,
    }
}

/// The number by which a client knows what it asked.
fn id_of(asked: &Asked) -> Option<u64>
    ensures { result ≡ asked_id asked.now }
{
    match asked {
        Asked::Good(request) => request.id,
        Asked::Bad(text) => text.id,
    }
}

impl<T: Trace> Session<T> {
    ghost use Rattle.listen.specs.Pairs.{Heard};
    ghost use Rattle.machine_core.specs.Reading.{Reader, IsReader};
    ghost use Rattle.machine_core.specs.declared.turn.Motion.TheVariants.{Running};
    ghost use Rattle.trace_core.specs.declared.scan.Want.TheVariants.{Breakpoints};
    ghost use Rattle.machine_core.specs.Machine.{Answer, Accepted, if_idle, delete, unwatch, step, obey, asked_outcome, answer_by, answer_of};
    ghost use Rattle.dbg_core.specs.World.{world_of};
    ghost use Rattle.dbg_core.specs.Answering.{answered};
    ghost use Rattle.dbg_core.specs.State.{machine_of, counted_as};

    /// Arms a breakpoint.
    fn break_on(
        &mut self,
        line: u64,
        instance: &Option<Utf8>,
        cond: &Option<Utf8>,
    ) -> Result<Body, NoMemory>
        ensures table { self.new.table ≡ self.old.table }
        ensures samples { T.samples self.new.trace ≡ T.samples self.old.trace }
        ensures ordinal { self.new.ordinal ≡ self.old.ordinal }
        ensures answer { IfOk result (λ body. (read : Reader) (ordinal : ℕ) (heard : List (Option Heard)) (id : Option ℕ) → IsReader read
            → answered (counted_as self.new ordinal heard) id body
            ≡ answer_by (counted_as self.old ordinal heard) id
            (obey read (world_of self.old.table (T.samples self.old.trace)) (counted_as self.old ordinal heard)
            (Cmd.Break line instance.now cond.now))) }
        ensures kept { OnErr result ((heard : List (Option Heard)) → machine_of self.new heard ≡ machine_of self.old heard) }
    {
        break_asked(
            self.alloc,
            &mut self.schedule,
            &self.table,
            line,
            text_in(instance),
            bytes_in(cond),
        )
    }

    /// Disarms a breakpoint.
    fn delete(&mut self, bp: u64) -> Body
        ensures table { self.new.table ≡ self.old.table }
        ensures samples { T.samples self.new.trace ≡ T.samples self.old.trace }
        ensures ordinal { self.new.ordinal ≡ self.old.ordinal }
        ensures answer { (ordinal : ℕ) (heard : List (Option Heard)) (id : Option ℕ)
            → answered (counted_as self.new ordinal heard) id result
            ≡ answer_by (counted_as self.old ordinal heard) id (delete (counted_as self.old ordinal heard) bp) }
    {
        if self.schedule.disarm(bp) {
            Body::Delete
        } else {
            Body::NoBreakpoint { bp }
        }
    }

    /// Arms a watch.
    fn watch_on(&mut self, line: u64, instance: &Utf8, expr: &Utf8) -> Result<Body, NoMemory>
        ensures table { self.new.table ≡ self.old.table }
        ensures samples { T.samples self.new.trace ≡ T.samples self.old.trace }
        ensures ordinal { self.new.ordinal ≡ self.old.ordinal }
        ensures answer { IfOk result (λ body. (read : Reader) (ordinal : ℕ) (heard : List (Option Heard)) (id : Option ℕ) → IsReader read
            → answered (counted_as self.new ordinal heard) id body
            ≡ answer_by (counted_as self.old ordinal heard) id
            (obey read (world_of self.old.table (T.samples self.old.trace)) (counted_as self.old ordinal heard)
            (Cmd.Watch line instance.now expr.now))) }
        ensures kept { OnErr result ((heard : List (Option Heard)) → machine_of self.new heard ≡ machine_of self.old heard) }
    {
        watch_asked(
            self.alloc,
            &mut self.watch,
            &self.table,
            line,
            instance.text(),
            expr.text().as_bytes(),
        )
    }

    /// Disarms a watch.
    fn unwatch(&mut self, wp: u64) -> Body
        ensures table { self.new.table ≡ self.old.table }
        ensures samples { T.samples self.new.trace ≡ T.samples self.old.trace }
        ensures ordinal { self.new.ordinal ≡ self.old.ordinal }
        ensures answer { (ordinal : ℕ) (heard : List (Option Heard)) (id : Option ℕ)
            → answered (counted_as self.new ordinal heard) id result
            ≡ answer_by (counted_as self.old ordinal heard) id (unwatch (counted_as self.old ordinal heard) wp) }
    {
        if self.watch.disarm(wp) {
            Body::Unwatch
        } else {
            Body::NoWatch { wp }
        }
    }

    /// Runs to a breakpoint or a watch.
    fn run_on(&mut self, way: Way) -> Body
        ensures table { self.new.table ≡ self.old.table }
        ensures samples { T.samples self.new.trace ≡ T.samples self.old.trace }
        ensures ordinal { self.new.ordinal ≡ self.old.ordinal }
        ensures answer { (ordinal : ℕ) (heard : List (Option Heard)) (id : Option ℕ)
            → answered (counted_as self.new ordinal heard) id result
            ≡ answer_by (counted_as self.old ordinal heard) id
            (if_idle self.old.motion (Accepted (record (counted_as self.old ordinal heard) { motion = Running way Breakpoints }) (run_granted way))) }
    {
        if let Some(refusal) = busy(self.motion) {
            return refusal;
        }
        self.motion = Motion::Running(way, Want::Breakpoints);
        run_granted(way)
    }

    /// Makes a step, to any thread or to one of a named instance.
    fn step_on(&mut self, way: Way, path: &Option<Utf8>) -> Result<Body, NoMemory>
        ensures table { self.new.table ≡ self.old.table }
        ensures samples { T.samples self.new.trace ≡ T.samples self.old.trace }
        ensures ordinal { self.new.ordinal ≡ self.old.ordinal }
        ensures answer { IfOk result (λ body. (ordinal : ℕ) (heard : List (Option Heard)) (id : Option ℕ)
            → answered (counted_as self.new ordinal heard) id body
            ≡ answer_by (counted_as self.old ordinal heard) id
            (if_idle self.old.motion (step (world_of self.old.table (T.samples self.old.trace)) (counted_as self.old ordinal heard) way
            (step_granted way) path.now))) }
        ensures kept { OnErr result ((heard : List (Option Heard)) → machine_of self.new heard ≡ machine_of self.old heard) }
    {
        if let Some(refusal) = busy(self.motion) {
            return Ok(refusal);
        }
        let Some(path) = path else {
            self.motion = Motion::Running(way, Want::Step(None));
            return Ok(step_granted(way));
        };
        match self.table.instance_named(path.text()) {
            Some(instance) => {
                self.motion = Motion::Running(way, Want::Step(Some(instance)));
                Ok(step_granted(way))
            }
            None => {
                let instance = Text::new(self.alloc, path.text().as_bytes())?;
                Ok(Body::NoInstance { instance })
            }
        }
    }

    /// Stops running.
    fn pause(&mut self) -> Body
        ensures table { self.new.table ≡ self.old.table }
        ensures samples { T.samples self.new.trace ≡ T.samples self.old.trace }
        ensures ordinal { self.new.ordinal ≡ self.old.ordinal }
        ensures answer { (read : Reader) (ordinal : ℕ) (heard : List (Option Heard)) (id : Option ℕ)
            → answered (counted_as self.new ordinal heard) id result
            ≡ answer_by (counted_as self.old ordinal heard) id
            (obey read (world_of self.old.table (T.samples self.old.trace)) (counted_as self.old ordinal heard) Cmd.Pause) }
    {
        if self.motion == Motion::Idle {
            return Body::NotRunning;
        }
        self.motion = Motion::Idle;
        Body::Pause {
            at: at_place(&self.table, &self.trace, self.place),
        }
    }

    /// Tells the threads.
    fn tell_threads(&mut self) -> Result<Body, NoMemory>
        ensures table { self.new.table ≡ self.old.table }
        ensures samples { T.samples self.new.trace ≡ T.samples self.old.trace }
        ensures ordinal { self.new.ordinal ≡ self.old.ordinal }
        ensures answer { IfOk result (λ body. (read : Reader) (ordinal : ℕ) (heard : List (Option Heard)) (id : Option ℕ)
            → answered (counted_as self.new ordinal heard) id body
            ≡ answer_by (counted_as self.old ordinal heard) id
            (obey read (world_of self.old.table (T.samples self.old.trace)) (counted_as self.old ordinal heard) Cmd.Threads)) }
        ensures kept { OnErr result ((heard : List (Option Heard)) → machine_of self.new heard ≡ machine_of self.old heard) }
    {
        threads_asked(
            self.alloc,
            &self.table,
            &mut self.trace,
            self.motion,
            self.place,
        )
    }

    /// Tells what names show in a thread.
    fn tell_values(&mut self, path: &Utf8) -> Result<Body, NoMemory>
        ensures table { self.new.table ≡ self.old.table }
        ensures samples { T.samples self.new.trace ≡ T.samples self.old.trace }
        ensures ordinal { self.new.ordinal ≡ self.old.ordinal }
        ensures answer { IfOk result (λ body. (read : Reader) (ordinal : ℕ) (heard : List (Option Heard)) (id : Option ℕ)
            → answered (counted_as self.new ordinal heard) id body
            ≡ answer_by (counted_as self.old ordinal heard) id
            (obey read (world_of self.old.table (T.samples self.old.trace)) (counted_as self.old ordinal heard) (Cmd.Values path.now))) }
        ensures kept { OnErr result ((heard : List (Option Heard)) → machine_of self.new heard ≡ machine_of self.old heard) }
    {
        values_asked(
            self.alloc,
            &self.table,
            &mut self.trace,
            self.motion,
            self.place,
            path.text(),
        )
    }

    /// Tells what an expression comes to in a thread.
    fn tell_value(&mut self, path: &Utf8, expr: &Utf8) -> Result<Body, NoMemory>
        ensures table { self.new.table ≡ self.old.table }
        ensures samples { T.samples self.new.trace ≡ T.samples self.old.trace }
        ensures ordinal { self.new.ordinal ≡ self.old.ordinal }
        ensures answer { IfOk result (λ body. (read : Reader) (ordinal : ℕ) (heard : List (Option Heard)) (id : Option ℕ) → IsReader read
            → answered (counted_as self.new ordinal heard) id body
            ≡ answer_by (counted_as self.old ordinal heard) id
            (obey read (world_of self.old.table (T.samples self.old.trace)) (counted_as self.old ordinal heard) (Cmd.Eval path.now expr.now))) }
        ensures kept { OnErr result ((heard : List (Option Heard)) → machine_of self.new heard ≡ machine_of self.old heard) }
    {
        eval_asked(
            self.alloc,
            &self.table,
            &mut self.trace,
            self.motion,
            self.place,
            path.text(),
            expr.text(),
        )
    }

    /// Tells where the session stands, its breakpoints and its listeners, and whether it runs.
    fn status(&self, listeners: &Listeners) -> Result<Body, NoMemory>
        ensures { IfOk result (λ body. (read : Reader) (ordinal : ℕ) (id : Option ℕ)
            → answered (counted_as self.now ordinal (map (option_map (λ b. heard b)) listeners.now.boxes.items)) id body
            ≡ answer_by (counted_as self.now ordinal (map (option_map (λ b. heard b)) listeners.now.boxes.items)) id
            (obey read (world_of self.now.table (T.samples self.now.trace))
            (counted_as self.now ordinal (map (option_map (λ b. heard b)) listeners.now.boxes.items)) Cmd.Status)) }
    {
        let bps = numbers_of(self.alloc, &self.schedule)?;
        let listeners = listeners.remaining()?;
        Ok(Body::Status {
            at: at_place(&self.table, &self.trace, self.place),
            bps: Listed::new(bps),
            listeners: Listed::new(listeners),
            mode: going_of(self.motion),
        })
    }

    /// Does what is asked, and gives what is answered, a refusal too. A listener that is to be dropped is still to be left out.
    fn obey(&mut self, cmd: &Cmd, listeners: &Listeners) -> Result<Body, NoMemory>
        ensures table { self.new.table ≡ self.old.table }
        ensures samples { T.samples self.new.trace ≡ T.samples self.old.trace }
        ensures ordinal { self.new.ordinal ≡ self.old.ordinal }
        ensures answer { IfOk result (λ body. (read : Reader) (ordinal : ℕ) (id : Option ℕ) → IsReader read
            → answered (counted_as self.new ordinal (without (dropped_by cmd.now)
            (map (option_map (λ b. heard b)) listeners.now.boxes.items))) id body
            ≡ answer_by (counted_as self.old ordinal (map (option_map (λ b. heard b)) listeners.now.boxes.items)) id
            (obey read (world_of self.old.table (T.samples self.old.trace))
            (counted_as self.old ordinal (map (option_map (λ b. heard b)) listeners.now.boxes.items)) cmd.now)) }
        ensures kept { OnErr result ((heard : List (Option Heard)) → machine_of self.new heard ≡ machine_of self.old heard) }
    {
        match cmd {
            Cmd::Break {
                line,
                instance,
                cond,
            } => self.break_on(*line, instance, cond),
            Cmd::Delete { bp } => Ok(self.delete(*bp)),
            Cmd::Watch {
                line,
                instance,
                expr,
            } => self.watch_on(*line, instance, expr),
            Cmd::Unwatch { wp } => Ok(self.unwatch(*wp)),
            Cmd::Continue => Ok(self.run_on(Way::Forward)),
            Cmd::Reverse => Ok(self.run_on(Way::Backward)),
            Cmd::Step { instance } => self.step_on(Way::Forward, instance),
            Cmd::Back { instance } => self.step_on(Way::Backward, instance),
            Cmd::Pause => Ok(self.pause()),
            Cmd::Threads => self.tell_threads(),
            Cmd::Values { instance } => self.tell_values(instance),
            Cmd::Eval { instance, expr } => self.tell_value(instance, expr),
            Cmd::Drop { k } => listeners.drop_answer(*k),
            Cmd::Status => self.status(listeners),
            Cmd::Bye => Ok(Body::Bye),
        }
    }

    /// Does what was read from a text, and gives what is answered, a refusal too. A listener that is to be dropped is still to be left out.
    fn answer_to(&mut self, asked: &Asked, listeners: &Listeners) -> Result<Body, NoMemory>
        ensures table { self.new.table ≡ self.old.table }
        ensures samples { T.samples self.new.trace ≡ T.samples self.old.trace }
        ensures ordinal { self.new.ordinal ≡ self.old.ordinal }
        ensures answer { IfOk result (λ body. (read : Reader) (ordinal : ℕ) (id : Option ℕ) → IsReader read
            → answered (counted_as self.new ordinal (without (to_drop asked.now) (map (option_map (λ b. heard b)) listeners.now.boxes.items))) id body
            ≡ answer_by (counted_as self.old ordinal (map (option_map (λ b. heard b)) listeners.now.boxes.items)) id
            (asked_outcome read (world_of self.old.table (T.samples self.old.trace))
            (counted_as self.old ordinal (map (option_map (λ b. heard b)) listeners.now.boxes.items)) asked.now)) }
        ensures kept { OnErr result ((heard : List (Option Heard)) → machine_of self.new heard ≡ machine_of self.old heard) }
    {
        match asked {
            Asked::Good(request) => self.obey(&request.cmd, listeners),
            Asked::Bad(text) => bad_text(self.alloc, text),
        }
    }

    /// Answers a request, and drops no listener: the one that it asks to drop (`to_drop`), if that remains, is still to be left out. Its reply
    /// is that of `request`. For want of memory all is as before.
    #[tactic(auto, unfolding(machine_core::specs::Machine::answer_of))]
    pub fn request_alone(&mut self, asked: &Asked, listeners: &Listeners) -> Result<Reply, NoMemory>
        ensures table { self.new.table ≡ self.old.table }
        ensures samples { T.samples self.new.trace ≡ T.samples self.old.trace }
        ensures answer { IfOk result (λ reply. (read : Reader) → IsReader read
            → (let answer : Answer = record {
              after = machine_of self.new
                  (without (to_drop asked.now) (map (option_map (λ b. heard b)) listeners.now.boxes.items));
              reply = reply;
            } in answer)
            ≡ answer_of read (world_of self.old.table (T.samples self.old.trace))
            (machine_of self.old (map (option_map (λ b. heard b)) listeners.now.boxes.items)) asked.now) }
        ensures memory { OnErr result ((heard : List (Option Heard)) → machine_of self.new heard ≡ machine_of self.old heard) }
    {
        let body = self.answer_to(asked, listeners)?;
        let seq = self.ordinal.saturating_add(1);
        self.ordinal = seq;
        Ok(Reply {
            seq,
            id: id_of(asked),
            body,
        })
    }

    /// Answers a request. Its reply has the next ordinal, which stays at 2^64 - 1 once it is that high, and the request's own number. What
    /// is refused leaves all as it was but the ordinal. For want of memory the ordinal is as before too.
    pub fn request(&mut self, asked: &Asked, listeners: &mut Listeners) -> Result<Reply, NoMemory>
        ensures table { self.new.table ≡ self.old.table }
        ensures samples { T.samples self.new.trace ≡ T.samples self.old.trace }
        ensures answer { IfOk result (λ reply. (read : Reader) → IsReader read
            → (let answer : Answer = record { after = machine_of self.new (map (option_map (λ b. heard b)) listeners.new.boxes.items); reply = reply }
            in answer) ≡ answer_of read (world_of self.old.table (T.samples self.old.trace))
            (machine_of self.old (map (option_map (λ b. heard b)) listeners.old.boxes.items)) asked.now) }
        ensures memory { OnErr result (machine_of self.new (map (option_map (λ b. heard b)) listeners.new.boxes.items)
            ≡ machine_of self.old (map (option_map (λ b. heard b)) listeners.old.boxes.items)) }
    {
        let reply = self.request_alone(asked, listeners)?;
        listeners.leave_out(to_drop(asked));
        Ok(reply)
    }
}
