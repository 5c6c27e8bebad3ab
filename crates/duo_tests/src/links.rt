//! The rules of a link and a door in memory.

ghost use Rattle.std.specs.Prelude.{◌≡◌, true, false, IfOk};
ghost use Rattle.link_edge.specs.MemoryLinks.{is_fresh_link};

use link_edge::{Door, DoorEnd, Link, LinkEnd, MemDoor, MemLink, Polled, Step};
use std::alloc::{AllocError, Global};
use std::test::Fail;
use text_core::{Listed, NoMemory};

/// A step that gives a message.
pub fn message(alloc: Global, text: &str) -> Result<Step, AllocError> {
    Ok(Step::Message(Listed::new(text.as_bytes().to_vec(alloc)?)))
}

/// What a poll answered, a message by its bytes.
fn told(polled: &Polled) -> &[u8] {
    match polled {
        Polled::Message(text) => text.items(),
        Polled::Nothing => b"(nothing)",
        Polled::Closed => b"(closed)",
        Polled::Failed => b"(failed)",
        Polled::NoMemory => b"(no memory)",
    }
}

/// A link with one step of each kind and a message behind these, whose second send fails.
fn link(alloc: Global) -> Result<MemLink, NoMemory>
    ensures shut { IfOk result (λ link. link.shut ≡ false) }
    ensures fresh { IfOk result (λ link. is_fresh_link link ≡ true) }
{
    let mut script = Vec::new(alloc);
    script.push(message(alloc, "first")?)?;
    script.push(Step::Nothing)?;
    script.push(Step::Fault)?;
    script.push(Step::Close)?;
    script.push(message(alloc, "last")?)?;
    let failing = [1].to_vec(alloc)?;
    MemLink::new(alloc, script, failing)
}

/// A poll.
fn poll(link: &mut MemLink, alloc: Global) -> Polled
    requires { link.old.shut ≡ false }
    ensures { link.new.shut ≡ false }
{
    link.poll(alloc)
}

/// Whether a message was sent.
fn sends(link: &mut MemLink, alloc: Global, text: &[u8]) -> bool
    requires { link.old.shut ≡ false }
    ensures { link.new.shut ≡ false }
{
    match link.send(alloc, text) {
        Ok(()) => true,
        Err(LinkEnd::Failed) | Err(LinkEnd::NoMemory) => false,
    }
}

#[test]
fn a_link_goes_by_its_script_and_counts(rt: HostRuntime) -> Result<(), Fail> {
    let alloc = rt.alloc();
    let Ok(mut link) = link(alloc) else {
        return Err("memory lasts".into());
    };
    assert!(rt; !link.shut());
    assert_eq!(rt; told(&poll(&mut link, alloc)), b"first".as_slice());
    assert_eq!(rt; told(&poll(&mut link, alloc)), b"(nothing)".as_slice());
    assert_eq!(rt; told(&poll(&mut link, alloc)), b"(failed)".as_slice());
    assert_eq!(rt; told(&poll(&mut link, alloc)), b"(closed)".as_slice());
    assert_eq!(rt; told(&poll(&mut link, alloc)), b"last".as_slice());
    assert_eq!(rt; told(&poll(&mut link, alloc)), b"(closed)".as_slice());
    assert_eq!(rt; told(&poll(&mut link, alloc)), b"(closed)".as_slice());
    assert!(rt; link.faults() == 1 && link.idles() == 1 && link.ends() == 3);
    Ok(())
}

#[test]
fn a_link_keeps_what_was_sent(rt: HostRuntime) -> Result<(), Fail> {
    let alloc = rt.alloc();
    let Ok(mut link) = link(alloc) else {
        return Err("memory lasts".into());
    };
    assert!(rt; sends(&mut link, alloc, b"one"));
    assert!(rt; !sends(&mut link, alloc, b"two"));
    assert!(rt; sends(&mut link, alloc, b"three"));
    assert_eq!(rt; link.sent().len(), 2);
    assert_eq!(rt; link.sent()[0].items(), b"one".as_slice());
    assert_eq!(rt; link.sent()[1].items(), b"three".as_slice());
    assert!(rt; link.faults() == 1 && link.idles() == 0 && link.ends() == 0);
    link.close();
    assert!(rt; link.shut());
    Ok(())
}

/// A door with one link.
fn door(alloc: Global) -> Result<MemDoor, NoMemory> {
    let link = link(alloc)?;
    let mut links = Vec::new(alloc);
    links.push(link)?;
    MemDoor::new(links)
}

#[test]
fn a_door_hands_out_its_links_and_then_fails(rt: HostRuntime) -> Result<(), Fail> {
    let alloc = rt.alloc();
    let Ok(mut door) = door(alloc) else {
        return Err("memory lasts".into());
    };
    let Ok(mut link) = door.next(alloc) else {
        return Err("it has a link".into());
    };
    assert_eq!(rt; told(&poll(&mut link, alloc)), b"first".as_slice());
    assert!(rt; door.faults() == 0);
    assert!(rt; matches!(&door.next(alloc), Err(DoorEnd::Failed)));
    assert!(rt; matches!(&door.next(alloc), Err(DoorEnd::Failed)));
    assert!(rt; door.faults() == 2);
    Ok(())
}
