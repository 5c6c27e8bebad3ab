//! All clients of a hub: what one step leaves of every one of them.

ghost use Rattle.std.specs.Prelude.{◌≡◌, ◌<◌, ◌++◌, ◌∷◌, [], List, ℕ, OnSome, length, true};
ghost use Rattle.link_edge.specs.Links.{Meaning, message_in};
ghost use Rattle.hub_core.specs.HubJournals.{at_client};
ghost use Rattle.hub_core.specs.Clients.{AllFit, AllUsable, lines_to, open_at};

use crate::client::Client;
use crate::line::Line;
use crate::parter::Parter;
use crate::seats::at;
use link_edge::Link;
use text_core::Listed;

/// Takes the room for a line that will be sent to one.
pub(crate) fn ready_at<L: Link>(clients: &mut [Client<L>], k: usize)
    requires within { k < length clients.old }
    requires usable { AllUsable L.meaning clients.old }
    ensures keeps { (starts : List Meaning) (asked made : ℕ → List (List ℕ))
        → AllFit L.meaning 0 asked made starts clients.old → AllFit L.meaning 0 asked made starts clients.new }
    ensures usable { AllUsable L.meaning clients.new }
    ensures len { length clients.new ≡ length clients.old }
{
    clients[k].ready();
}

/// Takes the room for a line that will be sent to each.
pub(crate) fn ready_all<L: Link>(clients: &mut [Client<L>])
    requires usable { AllUsable L.meaning clients.old }
    ensures keeps { (starts : List Meaning) (asked made : ℕ → List (List ℕ))
        → AllFit L.meaning 0 asked made starts clients.old → AllFit L.meaning 0 asked made starts clients.new }
    ensures usable { AllUsable L.meaning clients.new }
    ensures len { length clients.new ≡ length clients.old }
{
    for client in clients.iter_mut() {
        client.ready();
    }
}

/// Parts one from its link, where its client has left.
fn part_at<L: Link, P: Parter<L>>(clients: &mut [Client<L>], k: usize, here: bool, parter: &P)
    requires within { k < length clients.old }
    requires usable { AllUsable L.meaning clients.old }
    ensures keeps { (starts : List Meaning) (asked made : ℕ → List (List ℕ))
        → AllFit L.meaning 0 asked made starts clients.old → AllFit L.meaning 0 asked made starts clients.new }
    ensures usable { AllUsable L.meaning clients.new }
    ensures len { length clients.new ≡ length clients.old }
{
    if !here {
        clients[k].part(parter);
    }
}

/// Parts those from their links whose clients have left: all that these answers do not tell to be here.
fn part_all<L: Link, P: Parter<L>>(clients: &mut [Client<L>], here: &[bool], parter: &P)
    requires usable { AllUsable L.meaning clients.old }
    ensures keeps { (starts : List Meaning) (asked made : ℕ → List (List ℕ))
        → AllFit L.meaning 0 asked made starts clients.old → AllFit L.meaning 0 asked made starts clients.new }
    ensures usable { AllUsable L.meaning clients.new }
    ensures len { length clients.new ≡ length clients.old }
{
    for k in 0..clients.len() {
        part_at(clients, k, at(here, k), parter);
    }
}

/// The same, of all clients of a hub.
pub(crate) fn part_gone<L: Link, P: Parter<L>>(
    clients: &mut Vec<Client<L>>,
    here: &[bool],
    parter: &P,
)
    requires usable { AllUsable L.meaning clients.old.items }
    ensures keeps { (starts : List Meaning) (asked made : ℕ → List (List ℕ))
        → AllFit L.meaning 0 asked made starts clients.old.items → AllFit L.meaning 0 asked made starts clients.new.items }
    ensures usable { AllUsable L.meaning clients.new.items }
    ensures len { length clients.new.items ≡ length clients.old.items }
{
    part_all(clients, here, parter);
}

/// The next message of one, if one has come.
pub(crate) fn poll_at<L: Link>(clients: &mut [Client<L>], k: usize) -> Option<Listed<u8>>
    requires within { k < length clients.old }
    requires usable { AllUsable L.meaning clients.old }
    ensures keeps { (starts : List Meaning) (asked made : ℕ → List (List ℕ))
        → AllFit L.meaning 0 asked made starts clients.old
        → AllFit L.meaning 0 (λ j. asked j ++ at_client k j (message_in result)) made starts clients.new }
    ensures open { OnSome result (open_at k clients.new ≡ true) }
    ensures usable { AllUsable L.meaning clients.new }
    ensures len { length clients.new ≡ length clients.old }
{
    let heard = clients[k].poll();
    heard
}

/// A message of one is not applied.
pub(crate) fn starve_at<L: Link>(clients: &mut [Client<L>], k: usize, text: Listed<u8>)
    requires within { k < length clients.old }
    requires usable { AllUsable L.meaning clients.old }
    requires open { open_at k clients.old ≡ true }
    ensures keeps { (starts : List Meaning) (asked made : ℕ → List (List ℕ))
        → AllFit L.meaning 0 (λ j. asked j ++ at_client k j (text ∷ [])) made starts clients.old
        → AllFit L.meaning 0 asked made starts clients.new }
    ensures usable { AllUsable L.meaning clients.new }
    ensures len { length clients.new ≡ length clients.old }
{
    clients[k].starve(text);
}

/// A line for one.
pub(crate) fn deliver_at<L: Link>(clients: &mut [Client<L>], k: usize, text: Listed<u8>)
    requires usable { AllUsable L.meaning clients.old }
    ensures keeps { (starts : List Meaning) (asked made : ℕ → List (List ℕ))
        → AllFit L.meaning 0 asked made starts clients.old
        → AllFit L.meaning 0 asked (λ j. made j ++ at_client k j (text ∷ [])) starts clients.new }
    ensures usable { AllUsable L.meaning clients.new }
    ensures len { length clients.new ≡ length clients.old }
{
    if k < clients.len() {
        clients[k].deliver(text);
    }
}

/// A line for its client.
fn deliver_line<L: Link>(clients: &mut [Client<L>], line: Line)
    requires usable { AllUsable L.meaning clients.old }
    ensures keeps { (starts : List Meaning) (asked made : ℕ → List (List ℕ))
        → AllFit L.meaning 0 asked made starts clients.old
        → AllFit L.meaning 0 asked (λ j. made j ++ at_client line.client j (line.text ∷ [])) starts clients.new }
    ensures usable { AllUsable L.meaning clients.new }
    ensures len { length clients.new ≡ length clients.old }
{
    deliver_at(clients, line.client as usize, line.text);
}

/// Lines, each for its client.
pub(crate) fn deliver_all<L: Link>(clients: &mut [Client<L>], lines: Vec<Line>)
    requires usable { AllUsable L.meaning clients.old }
    ensures keeps { (starts : List Meaning) (asked made : ℕ → List (List ℕ))
        → AllFit L.meaning 0 asked made starts clients.old
        → AllFit L.meaning 0 asked (λ j. made j ++ lines_to j lines.items) starts clients.new }
    ensures usable { AllUsable L.meaning clients.new }
    ensures len { length clients.new ≡ length clients.old }
{
    for line in lines {
        deliver_line(clients, line);
    }
}

/// Memory ran out: these lines are lost, however many they are for each.
pub(crate) fn lose_all<L: Link>(clients: &mut [Client<L>])
    requires usable { AllUsable L.meaning clients.old }
    ensures keeps { (starts : List Meaning) (asked made more : ℕ → List (List ℕ))
        → AllFit L.meaning 0 asked made starts clients.old
        → AllFit L.meaning 0 asked (λ j. made j ++ more j) starts clients.new }
    ensures usable { AllUsable L.meaning clients.new }
    ensures len { length clients.new ≡ length clients.old }
{
    for client in clients.iter_mut() {
        client.lose();
    }
}
