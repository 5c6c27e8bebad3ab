//! The words of a service.

ghost use Rattle.std.specs.Prelude.{◌≡◌, ◌≤◌, Some, None, IfSome, length, drop};
ghost use Rattle.std.specs.Option.{option_map};
ghost use Rattle.dbg_app.specs.Asked.{stimulus_as, requests_as};
ghost use Rattle.dbg_app.specs.Offer.{offer_of, offer_with as the_offer_with, address_in, manner_of as the_manner_of, most_of as the_most_of};
ghost use Rattle.dbg_app.specs.Serving.{offer_as};

use crate::command::{Command, OverRows, Task, command_with, mode_of};
use crate::number::number_to;
use io_edge::Words;
use world_core::Mode;

/// How the clients of a service are served.
#[derive(Clone, Copy)]
pub(crate) enum Manner {
    /// One after the other, each on a session of its own.
    InTurn,
    /// All at once, on one session.
    AtOnce,
}

/// What words offer: the files of a design and its stimulus, how clients are served, where they attach, and how many of them: from 1 to 16 one
/// after the other, or to 8 at once.
#[derive(Clone, Copy)]
pub(crate) struct Offer<'a> {
    pub(crate) command: Command<'a>,
    pub(crate) stimulus: &'a str,
    pub(crate) manner: Manner,
    pub(crate) address: &'a str,
    pub(crate) count: u16,
}

/// The manner that the first word of a service says.
fn manner_of(word: &str) -> Option<Manner>
    ensures { result ≡ the_manner_of word.now }
{
    match word {
        "serve" => Some(Manner::InTurn),
        "serveall" => Some(Manner::AtOnce),
        _ => None,
    }
}

/// How many clients a service has at most.
fn most_of(manner: Manner) -> u16
    ensures { result ≡ the_most_of manner }
{
    match manner {
        Manner::InTurn => 16,
        Manner::AtOnce => 8,
    }
}

/// The service of this manner that the words behind the mode are, if they may stand in one. The arguments of the top are the words from the
/// eighth on.
fn offer_with<'a>(manner: Manner, mode: Mode, words: &'a Words) -> Option<Offer<'a>>
    requires { 7 ≤ length words.now }
    ensures offer { option_map offer_as result ≡ the_offer_with manner mode words.now }
    ensures stimulus { IfSome result (λ offer. stimulus_as offer.command.task ≡ Some offer.stimulus.now) }
    ensures requests { IfSome result (λ offer. requests_as offer.command.task ≡ None) }
    ensures seats { IfSome result (λ offer. offer.count ≤ the_most_of offer.manner) }
{
    let count = number_to(most_of(manner), words.word(5).as_bytes())?;
    let stimulus = words.word(3);
    let task = Task::Over(OverRows::Trail, stimulus);
    let command = command_with(task, mode, words.word(2), words.word(6), words, 7)?;
    Some(Offer {
        command,
        stimulus,
        manner,
        address: words.word(4),
        count,
    })
}

/// The service `serve MODE SRC STIM ADDR COUNT TOP [NAME=N]..` or `serveall ..` that the words are, if they are one.
pub(crate) fn read_offer<'a>(words: &'a Words) -> Option<Offer<'a>>
    ensures offer { option_map offer_as result ≡ offer_of words.now }
    ensures stimulus { IfSome result (λ offer. stimulus_as offer.command.task ≡ Some offer.stimulus.now) }
    ensures requests { IfSome result (λ offer. requests_as offer.command.task ≡ None) }
    ensures seats { IfSome result (λ offer. offer.count ≤ the_most_of offer.manner) }
{
    if words.count() < 7 || words.word(4).is_empty() {
        return None;
    }
    let manner = manner_of(words.word(0))?;
    let mode = mode_of(words.word(1))?;
    offer_with(manner, mode, words)
}

/// The address ADDR of a service `serve MODE SRC STIM ADDR COUNT TOP [NAME=N]..` or `serveall ..`, if the words are one. Takes no memory.
pub fn address_of<'a>(words: &'a Words) -> Option<&'a str>
    ensures { option_map (λ address. address.now) result ≡ address_in words.now }
{
    match read_offer(words) {
        Some(offer) => Some(offer.address),
        None => None,
    }
}
