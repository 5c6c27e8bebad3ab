//! The program as a service: it judges what the words say, and serves the clients that a door lets in.

ghost use Rattle.std.specs.Prelude.{◌≡◌, ◌≢◌, ◌≤◌, ◌<◌, ◌⊎◌, [], None, IsTrue, All, length, map, reverse};
ghost use Rattle.std.specs.Option.{option_map};
ghost use Rattle.io_edge.specs.Faults.{Rose};
ghost use Rattle.io_edge.specs.Taken.{Appends, AppendsFront, Grows};
ghost use Rattle.serve_net.specs.Members.{next_of};
ghost use Rattle.serve_net.specs.Service.{is_end_status};
ghost use Rattle.show_net.specs.Over.{Over, Shows};
ghost use Rattle.dbg_app.specs.Names.{AsksFrontOf, StopsInsideOf};
ghost use Rattle.dbg_app.specs.Answers.{usage_fault};
ghost use Rattle.dbg_app.specs.Judged.{HasText, TakesText, TakesTextFront, judged_status};
ghost use Rattle.dbg_app.specs.Outcome.{is_status, is_usage_status, TakesDesignLine, TakesStimulusLine, EndsAsAsked};
ghost use Rattle.dbg_app.specs.Offer.{offer_of, offer_files, most_of, IfOffered};
ghost use Rattle.dbg_app.specs.Serving.{is_serve_status, AsksByStatus, AsksNone, CompletesOffer, ServesFront, ServesFrontOf, ServesOffer, ServesWhole};

use crate::command::Task;
use crate::judge::Judged;
use crate::offer::{Manner, Offer, read_offer};
use crate::program::end;
use crate::shown::{Shown, judge_shown};
use duo_run::Served;
use hub_core::HubServed;
use hub_net::{AtOnce, serve_clients};
use io_edge::{Files, Sink, Words};
use link_edge::Door;
use listen::Listener;
use serve_net::{InTurn, serve_links};
use show_net::Service;
use std::alloc::Global;
use std::sync::Wait;
use std::thread::Threads;

/// What a service leaves: its status; what each connection left, in order, where each client had a session of its own; and what the hub left, where
/// there was one session for all.
#[derive(Drop)]
pub struct Many<L> {
    pub status: u8,
    pub served: Vec<Served<L>>,
    pub hub: Option<HubServed<L>>,
}

/// The last set of listeners, or none where no set is left.
fn last_set(alloc: Global, sets: Vec<Vec<Box<dyn Listener>>>) -> Vec<Box<dyn Listener>>
    requires { All (λ s. length s.items ≤ 65536) sets.items }
    ensures few { length result.items ≤ 65536 }
    ensures last { map (λ b. heard b) result.items ≡ next_of (reverse (map (λ s. map (λ b. heard b) s.items) sets.items)) }
{
    let mut sets = sets;
    match sets.pop() {
        Some(set) => set,
        None => Vec::new(alloc),
    }
}

/// Serves clients of what is shown in the manner that is offered: one after the other, or all at once.
///
/// Where the door waits for a client, or a link is silent, it waits, and may never return.
fn serve_shown<R: Threads + Wait + Sync, S: Sink, D: Door>(
    rt: &R,
    alloc: Global,
    service: &Service,
    offer: Offer<'_>,
    door: &mut D,
    out: &mut S,
    sets: Vec<Vec<Box<dyn Listener>>>,
) -> Many<D::Out>
    requires shows { (over : Over) × Shows service.now over }
    requires few { All (λ s. length s.items ≤ 65536) sets.items }
    requires seats { offer.count ≤ most_of offer.manner }
    ensures statuses { IsTrue (is_end_status result.status) }
    ensures all { result.status ≡ 0 → (over : Over) → Shows service.now over
        → ServesWhole (λ l. D.Out.meaning l) over (reverse (map (λ s. map (λ b. heard b) s.items) sets.items)) offer.entry.manner offer.entry.count
        (D.left door.old) (D.left door.new) (D.fault_count door.old) (D.fault_count door.new) result.served.items result.hub (S.taken out.old)
        (S.taken out.new) }
    ensures some { 7 < result.status → (over : Over) → Shows service.now over
        → ServesFrontOf (λ l. D.Out.meaning l) over (reverse (map (λ s. map (λ b. heard b) s.items) sets.items)) offer.entry.manner offer.entry.count
        (D.left door.old) (D.left door.new) (D.fault_count door.old) (D.fault_count door.new) result.served.items result.hub (S.taken out.old)
        (S.taken out.new) result.status }
    ensures write { result.status ≡ 8 → Rose (S.fault_count out.old) (S.fault_count out.new) }
    ensures later { S.fault_count out.old ≤ S.fault_count out.new }
{
    match offer.manner {
        Manner::InTurn => {
            let InTurn { status, served } = serve_links(
                rt,
                alloc,
                service,
                offer.count,
                door,
                out,
                sets,
            );
            Many {
                status,
                served,
                hub: None,
            }
        }
        Manner::AtOnce => {
            let listeners = last_set(alloc, sets);
            let AtOnce { status, hub } = serve_clients(
                rt,
                alloc,
                service,
                offer.count,
                door,
                out,
                listeners,
            );
            Many {
                status,
                served: Vec::new(alloc),
                hub,
            }
        }
    }
}

/// Does what the words `serve MODE SRC STIM ADDR COUNT TOP [NAME=N]..` say, where MODE is `opt` or `keep` and COUNT is from 1 to 16: reads
/// and judges the files once, asks the door COUNT times, and serves each link that comes with a session of its own over the design's run and
/// with the last set of listeners that is left. With `serveall`, where COUNT is from 1 to 8, it serves all links that come at once, on one session
/// over the design's run with the last set of listeners, until each client has left. Each set has at most 65,536 listeners.
///
/// | Status | Where | Output |
/// |---|---|---|
/// | 0 | none of the rest | of each time that the door was asked a line: `connection I end E requests R`, with `serveall` `client I end E requests R`; or `connection I door failed`, `client I door failed` |
/// | 2 | the words are no service | `usage fault` |
/// | 3 | SRC or a file that it imports is no source, these are more than 64, or the design from the module TOP is refused | `design fault`, with the number and name of the refusal, and its fields |
/// | 4 | STIM is refused for the design's ports | `stimulus fault`, with the number and name of the refusal, and its row and column |
/// | 7 | a file was not read | nothing |
/// | 8 | the output failed | a front of it |
/// | 9 | memory ran out | a front of it |
///
/// Where the door waits for a client, or a link is silent, it waits, and may never return.
pub fn serve<R: Threads + Wait + Sync, F: Files, S: Sink, D: Door>(
    rt: &R,
    alloc: Global,
    words: &Words,
    files: &mut F,
    out: &mut S,
    door: &mut D,
    sets: Vec<Vec<Box<dyn Listener>>>,
) -> Many<D::Out>
    requires few { All (λ s. length s.items ≤ 65536) sets.items }
    ensures statuses { IsTrue (is_serve_status result.status) }

    // The words are no service exactly where the status is 2, unless the output fails or memory runs out.
    ensures usage { result.status ≡ 2 → offer_of words.now ≡ None }
    ensures no_service { offer_of words.now ≡ None → IsTrue (is_usage_status result.status) }

    // Each refusal has its line. There the door is asked for no link, and nobody is served; nor where the words are no service.
    ensures usage_line { result.status ≡ 2 → Appends (S.taken out.old) (S.taken out.new) usage_fault }
    ensures design_line { result.status ≡ 3 → TakesDesignLine (S.taken out.old) (S.taken out.new) }
    ensures stimulus_line { result.status ≡ 4 → TakesStimulusLine (S.taken out.old) (S.taken out.new) }
    ensures unserved { result.status ≢ 0 → result.status < 8 → AsksNone (D.left door.old) (D.left door.new) (D.fault_count door.old)
        (D.fault_count door.new) result.served.items result.hub }
    ensures no_link { offer_of words.now ≡ None → AsksNone (D.left door.old) (D.left door.new) (D.fault_count door.old)
        (D.fault_count door.new) result.served.items result.hub }

    // Where the files are told: the status and the whole text that they ask for.
    ensures refused { result.status ≢ 0 → result.status < 7
        → IfOffered (F.told files.old) (offer_of words.now) (λ told offer. EndsAsAsked [] told offer.files result.status (S.taken out.old) (S.taken out.new)) }
    ensures served { result.status ≡ 0
        → IfOffered (F.told files.old) (offer_of words.now) (λ told offer.
        ServesOffer (λ l. D.Out.meaning l) told offer (reverse (map (λ s. map (λ b. heard b) s.items) sets.items))
        (D.left door.old) (D.left door.new) (D.fault_count door.old) (D.fault_count door.new) result.served.items result.hub (S.taken out.old)
        (S.taken out.new)) }

    // Where the files ask for an answer and nothing fails: its status, with the whole line of a refusal, or want of memory.
    ensures complete { IfOffered (F.told files.old) (offer_of words.now) (λ told offer.
        CompletesOffer told offer result.status (S.taken out.old) (S.taken out.new)
        (Rose (F.fault_count files.old) (F.fault_count files.new)) (Rose (S.fault_count out.old) (S.fault_count out.new))) }

    // The files that are asked for are those of the words, in their order, and behind the source those that it imports, by their
    // numbers: up to the one that is refused, or that was not read.
    ensures asked { AsksFrontOf (F.told files.old) (option_map offer_files (offer_of words.now)) (F.asked files.old) (F.asked files.new) }
    ensures files { AsksByStatus (F.told files.old) (offer_of words.now) result.status (F.asked files.old) (F.asked files.new) }
    ensures unread { result.status ≡ 7 → StopsInsideOf (F.told files.old)
        (option_map offer_files (offer_of words.now)) F.asked F.fault_count files.old files.new }

    // A fault of the files, before anything was written.
    ensures read { result.status ≡ 7 → Rose (F.fault_count files.old) (F.fault_count files.new) }
    ensures nothing { result.status ≡ 7 → S.taken out.new ≡ S.taken out.old }

    // A fault of the output, or want of memory: a front of the text.
    ensures write { result.status ≡ 8 → Rose (S.fault_count out.old) (S.fault_count out.new) }
    ensures front { 7 < result.status
        → IfOffered (F.told files.old) (offer_of words.now) (λ told offer.
        ServesFront (λ l. D.Out.meaning l) told offer (reverse (map (λ s. map (λ b. heard b) s.items) sets.items))
        (D.left door.old) (D.left door.new) (D.fault_count door.old) (D.fault_count door.new) result.served.items result.hub (S.taken out.old)
        (S.taken out.new) result.status) }
    ensures usage_front { offer_of words.now ≡ None → AppendsFront (S.taken out.old) (S.taken out.new) usage_fault }

    // What stays: what the files tell, the bytes that the sink took before, and no count falls.
    ensures same { F.told files.new ≡ F.told files.old }
    ensures kept { Grows (S.taken out.old) (S.taken out.new) }
    ensures read_later { F.fault_count files.old ≤ F.fault_count files.new }
    ensures write_later { S.fault_count out.old ≤ S.fault_count out.new }
{
    let Some(offer) = read_offer(words) else {
        return refuse(alloc, Judged::NoCommand, out);
    };
    match judge_shown(alloc, &offer.command, offer.stimulus, files) {
        Ok(Shown::Accepted(service)) => { serve_shown(rt, alloc, &service, offer, door, out, sets) }
        Ok(Shown::Refused(judged)) => refuse(alloc, judged, out),
        Err(halt) => Many {
            status: halt.status(),
            served: Vec::new(alloc),
            hub: None,
        },
    }
}

/// Writes the line of a refusal, and serves nothing.
fn refuse<L, S: Sink>(alloc: Global, judged: Judged, out: &mut S) -> Many<L>
    requires text { HasText judged }
    ensures none { (result.served.items ≡ []) × (result.hub ≡ None) }
    ensures statuses { IsTrue (is_status result.status) }
    ensures status { result.status < 7 → result.status ≡ judged_status judged }
    ensures done { result.status < 7 → TakesText [] judged (S.taken out.old) (S.taken out.new) }
    ensures no_read { result.status ≡ 7 → ⊥ }
    ensures write { result.status ≡ 8 → Rose (S.fault_count out.old) (S.fault_count out.new) }
    ensures front { 7 < result.status → TakesTextFront [] judged (S.taken out.old) (S.taken out.new) }
    ensures later { S.fault_count out.old ≤ S.fault_count out.new }
{
    let ended = end(alloc, judged, Vec::new(alloc), out);
    Many {
        status: ended.status,
        served: Vec::new(alloc),
        hub: None,
    }
}
