//! What is told to listeners behind a `&mut`, and which of them is left out: by functions of this crate alone, since a call of another crate
//! that is handed them so could make functions that nobody sees.

ghost use Rattle.std.specs.Prelude.{◌≡◌, map, option_map, set, None, length};
ghost use Rattle.listen.specs.Pairs.{after};
ghost use Rattle.dbg_core.specs.Alone.{heard_after, without};

use dbg_core::Turned;
use listen::{Listener, StopNote};

/// Tells a listener of a stop, if it was not dropped.
fn tell_one(to: &mut Option<Box<dyn Listener>>, note: &StopNote)
    ensures { option_map (λ b. heard b) to.new ≡ option_map (after note.now) (option_map (λ b. heard b) to.old) }
{
    if let Some(listener) = to {
        listener.stopped(note);
    }
}

/// Tells each listener of a stop, in order.
fn tell_each(all: &mut [Option<Box<dyn Listener>>], note: &StopNote)
    ensures { map (option_map (λ b. heard b)) all.new ≡ map (option_map (after note.now)) (map (option_map (λ b. heard b)) all.old) }
{
    for to in all.iter_mut() {
        tell_one(to, note);
    }
}

/// Tells each of these listeners of a turn, in order, where it is a stop.
fn tell_those(all: &mut [Option<Box<dyn Listener>>], turned: &Turned)
    ensures { map (option_map (λ b. heard b)) all.new ≡ heard_after turned.now (map (option_map (λ b. heard b)) all.old) }
{
    match turned {
        Turned::Stopped(note) => tell_each(all, note),
        Turned::Idle | Turned::Moved | Turned::AtEnd | Turned::AtStart => {}
    }
}

/// Drops the listener of a number, if it remains.
fn leave_out_one(all: &mut [Option<Box<dyn Listener>>], k: u64)
    ensures { map (option_map (λ b. heard b)) all.new ≡ set (map (option_map (λ b. heard b)) all.old) k None }
{
    if k < all.len() as u64 {
        all[k as usize] = None;
    }
}

/// Tells each listener of a turn, in order, where it is a stop.
pub(crate) fn tell_turn(all: &mut Vec<Option<Box<dyn Listener>>>, turned: &Turned)
    ensures heard { map (option_map (λ b. heard b)) all.new.items ≡ heard_after turned.now (map (option_map (λ b. heard b)) all.old.items) }
    ensures len { length all.new.items ≡ length all.old.items }
{
    tell_those(all, turned);
}

/// Drops the listener of this number among these, if there is a number and that one remains.
fn leave_out_of(all: &mut [Option<Box<dyn Listener>>], k: Option<u64>)
    ensures { map (option_map (λ b. heard b)) all.new ≡ without k (map (option_map (λ b. heard b)) all.old) }
{
    match k {
        Some(k) => leave_out_one(all, k),
        None => {}
    }
}

/// Drops the listener of this number, if there is a number and that one remains.
pub(crate) fn leave_out(all: &mut Vec<Option<Box<dyn Listener>>>, k: Option<u64>)
    ensures heard { map (option_map (λ b. heard b)) all.new.items ≡ without k (map (option_map (λ b. heard b)) all.old.items) }
    ensures len { length all.new.items ≡ length all.old.items }
{
    leave_out_of(all, k);
}
