//! What a datagram came to, before anything is sent.
ghost use Rattle.std.specs.Prelude.{◌≡◌, ◌≤◌, ◌<◌, length};
ghost use Rattle.std.specs.List.{AllByRecursion};
ghost use Rattle.datagrams.specs.Meaning.{meaning};
ghost use Rattle.nfs_worker.specs.Answers.{Answers, is_halting};
ghost use Rattle.nfs_worker.specs.Turns.{place_of};
ghost use Rattle.nfs_worker.specs.Volumes.{AreOpen, OneAlone};
ghost use Rattle.volume.specs.Rests.{Rests};

use crate::cells::Cells;
use crate::desk::{Desk, answer_mount, obey, status};
use crate::releasing::Ready;
use crate::serving::{Served, serve_call};
use crate::turning::DropCause;
use datagrams::{Datagram, read_datagram};
use presto_rpc::write_answer;
use rig::Address;
use stable::Tended;
use std::alloc::Global;
use volume::Volume;
use xdr_rpc::{ReplyBytes, ShortReply};

/// What a datagram came to.
#[derive(Drop)]
pub enum Reaction {
    /// Its call is an event, whose reply is to be sent.
    Ready(Ready),
    /// This is to be sent to who asked; no event belongs to it.
    Outside(ShortReply),
    /// So is this answer of MOUNT.
    Mounted(ReplyBytes),
    /// So is this, and then the server ends.
    Halt(ShortReply),
    /// Nothing is to be sent.
    Dropped(DropCause),
}

impl Reaction {
    /// Whether the server ends.
    pub fn is_halting(&self) -> bool
        ensures { result ≡ is_halting self.now }
    {
        matches!(self, Reaction::Halt(_))
    }
}

/// Who answers a datagram, when, and to whom.
#[derive(Clone, Copy)]
pub struct Asked {
    /// The worker's number.
    pub number: u32,
    /// The second of its turn.
    pub now: u32,
    /// Where the datagram came from.
    pub from: Address,
}

// The volume that a datagram is for, and the first where it is for none.
fn place_of(datagram: &Datagram) -> u32
    ensures { result ≡ place_of datagram.now }
{
    match datagram {
        Datagram::Asks { volume, .. }
        | Datagram::Command { volume, .. }
        | Datagram::Status { volume, .. } => *volume,
        Datagram::NoMeaning | Datagram::Outside(_) | Datagram::Mount(_) | Datagram::Halt { .. } =>
            0,
    }
}

// Answers a datagram that means this, on the volume that it is for.
fn react<S: Tended>(
    alloc: Global,
    volume: &mut Volume<S>,
    at: u32,
    desk: &mut Desk,
    asked: Asked,
    datagram: Datagram,
) -> Reaction
    requires rest { Rests S.Stable volume.old }
    requires mounts { length desk.old.roots ≡ desk.old.mounts.volumes }
    requires puts { at < length desk.old.first_puts }
    requires place { at ≡ place_of datagram }
    ensures { Answers S.Stable at volume.old volume.new desk.old desk.new asked.number asked.now asked.from datagram result }
{
    match datagram {
        Datagram::NoMeaning => Reaction::Dropped(DropCause::NoMeaning),
        Datagram::Outside(reply) => Reaction::Outside(reply),
        Datagram::Mount(rpc) => match answer_mount(desk, alloc, &rpc) {
            Ok(reply) => Reaction::Mounted(reply),
            Err(_) => Reaction::Dropped(DropCause::NoMemory),
        },
        Datagram::Command {
            xid,
            volume: _volume,
            command,
        } => Reaction::Outside(obey(volume, xid, command)),
        Datagram::Status {
            xid,
            volume: _volume,
        } => Reaction::Outside(status(volume, xid, desk.first_puts.list()[at as usize])),
        Datagram::Halt { xid } => Reaction::Halt(write_answer(xid, 0, 0)),
        Datagram::Asks {
            xid,
            volume: _volume,
            cred,
            call,
        } => match serve_call(
            alloc,
            volume,
            at,
            asked.number,
            xid,
            asked.from,
            &call,
            &cred,
            asked.now,
        ) {
            Served::NoMemory => Reaction::Dropped(DropCause::NoMemory),
            Served::Ready(ready) => Reaction::Ready(ready),
        },
    }
}

/// Answers a datagram on the volume that it is for.
pub fn answer<S: Tended>(cells: &mut Cells<S>, asked: Asked, bytes: &[u8]) -> Reaction
    requires short { length bytes.now ≤ 9216 }
    requires rest { AllByRecursion (Rests S.Stable) cells.old.volumes.items }
    requires desk { AreOpen (length cells.old.volumes.items) cells.old.desk }
    ensures { let means = meaning bytes.now (length cells.old.volumes.items) in OneAlone (λ old new. Answers S.Stable (place_of means) old new cells.old.desk cells.new.desk asked.number asked.now asked.from means result) (place_of means) cells.old.volumes.items cells.new.volumes.items }
{
    match read_datagram(cells.alloc, bytes, cells.volumes.len() as u32) {
        Ok(datagram) => {
            let at = place_of(&datagram);
            react(
                cells.alloc,
                &mut cells.volumes[at as usize],
                at,
                &mut cells.desk,
                asked,
                datagram,
            )
        }
        Err(_) => Reaction::Dropped(DropCause::NoMemory),
    }
}
