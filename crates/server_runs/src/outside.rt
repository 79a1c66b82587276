//! A run over one rig and one post in memory.
ghost use Rattle.std.specs.Prelude.{◌≡◌, ◌≤◌, IfSome, length};
ghost use Rattle.std.specs.List.{AllByRecursion};
ghost use Rattle.nfs_worker.specs.Volumes.{AreOpen};
ghost use Rattle.volume.specs.Rests.{Rests};

use crate::worked::CLIENT;
use nfs_server::serve;
use nfs_worker::{Cells, open_cells};
use presto_recover::open;
use presto_unit::Presto;
use rig::{Packet, Post};
use rig_mem::{MemClock, MemEvent, MemHost, MemLink, MemRig, SentDatagram, StillPauser};
use stable::Stable;
use std::alloc::Global;
use std::test::Fail;
use volume::Volume;

pub type Host = MemHost<MemRig, StillPauser>;

// The volume of a rig, if it can be opened, at second 1500.
fn volume_on(alloc: Global, rig: MemRig) -> Option<Volume<Presto<MemRig>>>
    ensures { IfSome result (λ volume. Rests ⟦<Presto<MemRig> as Stable>⟧ volume) }
{
    let Ok(opened) = open(alloc, rig, false) else {
        return None;
    };
    match Volume::open(alloc, opened.presto, 1500) {
        Ok((volume, _repaired)) => Some(volume),
        Err(_) => None,
    }
}

// The cells of these volumes.
fn cells_on(alloc: Global, volumes: Vec<Volume<Presto<MemRig>>>) -> Option<Cells<Presto<MemRig>>>
    requires some { 1 ≤ length volumes.items }
    requires few { length volumes.items ≤ 4 }
    requires rest { AllByRecursion (Rests ⟦<Presto<MemRig> as Stable>⟧) volumes.items }
    ensures rest { IfSome result (λ cells. AllByRecursion (Rests ⟦<Presto<MemRig> as Stable>⟧) cells.volumes.items) }
    ensures desk { IfSome result (λ cells. AreOpen (length cells.volumes.items) cells.desk) }
{
    let Ok(cells) = open_cells(alloc, volumes) else {
        return None;
    };
    Some(cells)
}

/// The cells of the volume of a rig, if it can be opened.
pub fn cells(alloc: Global, rig: MemRig) -> Option<Cells<Presto<MemRig>>>
    ensures rest { IfSome result (λ cells. AllByRecursion (Rests ⟦<Presto<MemRig> as Stable>⟧) cells.volumes.items) }
    ensures desk { IfSome result (λ cells. AreOpen (length cells.volumes.items) cells.desk) }
{
    let volume = volume_on(alloc, rig)?;
    let Ok(volumes) = Vec::from_array(alloc, [volume]) else {
        return None;
    };
    cells_on(alloc, volumes)
}

/// The cells of the volumes of two rigs, if they can be opened.
pub fn cells_of_two(alloc: Global, first: MemRig, second: MemRig) -> Option<Cells<Presto<MemRig>>>
    ensures rest { IfSome result (λ cells. AllByRecursion (Rests ⟦<Presto<MemRig> as Stable>⟧) cells.volumes.items) }
    ensures desk { IfSome result (λ cells. AreOpen (length cells.volumes.items) cells.desk) }
{
    let first = volume_on(alloc, first)?;
    let second = volume_on(alloc, second)?;
    let Ok(volumes) = Vec::from_array(alloc, [first, second]) else {
        return None;
    };
    cells_on(alloc, volumes)
}

/// The rig of the last volume.
pub fn last_rig(cells: &mut Cells<Presto<MemRig>>) -> Option<MemRig> {
    let volume = cells.volumes.pop()?;
    Some(volume.into_store().into_rig())
}

/// How many device calls the opening of a rig's volume makes.
pub fn opening_calls(alloc: Global, rig: MemRig) -> Result<u64, Fail> {
    let Some(mut cells) = cells(alloc, rig) else {
        return Err("the volume isn't opened".into());
    };
    match last_rig(&mut cells) {
        Some(rig) => Ok(rig.calls()),
        None => Err("there is no volume".into()),
    }
}

/// A datagram of the client.
pub fn datagram(bytes: &[u8]) -> MemEvent {
    let mut packet = Packet::new();
    packet.set(bytes);
    MemEvent::Datagram {
        from: CLIENT,
        packet,
    }
}

/// What a worker takes: these events, at these seconds, of which the last one stays.
pub fn post_at(
    alloc: Global,
    events: Vec<MemEvent>,
    seconds: &[u32],
) -> Result<Post<MemLink, MemClock, StillPauser>, Fail> {
    Ok(Post {
        link: MemLink::new(alloc, events),
        clock: MemClock::new(Vec::from_slice(alloc, seconds)?),
        pauser: StillPauser::new(),
    })
}

/// What a worker takes: these events, and second 2000 at each turn.
pub fn post(
    alloc: Global,
    events: Vec<MemEvent>,
) -> Result<Post<MemLink, MemClock, StillPauser>, Fail> {
    post_at(alloc, events, &[2000])
}

/// A host that gives these rigs, and a post with these events if there are any.
pub fn host(alloc: Global, rigs: Vec<MemRig>, events: Option<Vec<MemEvent>>) -> Result<Host, Fail> {
    let mut posts = Vec::new(alloc);
    if let Some(events) = events {
        posts.push(post(alloc, events)?)?;
    }
    let clock = MemClock::new(Vec::from_slice(alloc, &[1500])?);
    Ok(MemHost::new(alloc, rigs, posts, clock)?)
}

/// A host that gives this rig at its first second, and a post with these events at these seconds.
pub fn host_at(
    alloc: Global,
    rig: MemRig,
    own: &[u32],
    events: Vec<MemEvent>,
    seconds: &[u32],
) -> Result<Host, Fail> {
    let mut rigs = Vec::new(alloc);
    rigs.push(rig)?;
    let mut posts = Vec::new(alloc);
    posts.push(post_at(alloc, events, seconds)?)?;
    let clock = MemClock::new(Vec::from_slice(alloc, own)?);
    Ok(MemHost::new(alloc, rigs, posts, clock)?)
}

/// Serves by these words. The status.
pub fn run(alloc: Global, words: &[&str], host: &mut Host) -> Result<u8, Fail> {
    let mut owned = Vec::new(alloc);
    for word in words {
        owned.push(String::from_str(alloc, word)?)?;
    }
    Ok(serve(alloc, &owned, host))
}

/// A host with one rig, after it was served this one datagram, and the status.
pub fn served(alloc: Global, rig: MemRig, bytes: &[u8]) -> Result<(u8, Host), Fail> {
    let mut events = Vec::new(alloc);
    events.push(datagram(bytes))?;
    served_all(alloc, rig, events)
}

/// A host with one rig, after it was served these events, and the status.
pub fn served_all(alloc: Global, rig: MemRig, events: Vec<MemEvent>) -> Result<(u8, Host), Fail> {
    served_by(alloc, rig, &["d"], events)
}

/// A host with one rig, after it was served these events by these words, and the status.
pub fn served_by(
    alloc: Global,
    rig: MemRig,
    words: &[&str],
    events: Vec<MemEvent>,
) -> Result<(u8, Host), Fail> {
    let mut rigs = Vec::new(alloc);
    rigs.push(rig)?;
    let mut host = host(alloc, rigs, Some(events))?;
    let status = run(alloc, words, &mut host)?;
    Ok((status, host))
}

/// Whether these lines were said, and no more.
pub fn has_said(host: &Host, wanted: &[&str]) -> bool {
    if host.lines().len() != wanted.len() {
        return false;
    }
    for (line, text) in host.lines().iter().zip(wanted.iter()) {
        if line.text() != *text {
            return false;
        }
    }
    true
}

// Whether these are one datagram to the client.
fn is_sent(sent: &[SentDatagram], wanted: &[u8]) -> bool {
    match sent {
        [one] => one.to == CLIENT && one.bytes.bytes() == wanted,
        _ => false,
    }
}

/// Whether one post came back, and exactly this was sent over it, to the client.
pub fn has_sent(host: &Host, wanted: &[u8]) -> bool {
    match host.posts() {
        [back] => is_sent(back.1.link.sent(), wanted),
        _ => false,
    }
}

/// Whether these are datagrams to the client, with these bytes in order.
pub fn are_sent(sent: &[SentDatagram], wanted: &[Vec<u8>]) -> bool {
    if sent.len() != wanted.len() {
        return false;
    }
    for (one, bytes) in sent.iter().zip(wanted.iter()) {
        if one.to != CLIENT || one.bytes.bytes() != bytes.as_slice() {
            return false;
        }
    }
    true
}

/// Whether one post came back, and exactly these were sent over it in order, to the client.
pub fn has_sent_all(host: &Host, wanted: &[Vec<u8>]) -> bool {
    match host.posts() {
        [back] => are_sent(back.1.link.sent(), wanted),
        _ => false,
    }
}

/// The rig that came back, if one did.
pub fn rig_of(host: Host) -> Option<MemRig> {
    let mut rigs = host.into_rigs();
    match rigs.pop() {
        Some((0, rig)) => Some(rig),
        _ => None,
    }
}
