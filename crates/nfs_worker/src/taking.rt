//! One turn of a worker.
ghost use Rattle.std.specs.Prelude.{◌≡◌, ◌+◌, ◌<◌, ◌^◌, length};
ghost use Rattle.std.specs.List.{AllByRecursion};
ghost use Rattle.nfs_worker.specs.Tending.{is_new};
ghost use Rattle.nfs_worker.specs.Answers.{Replied, halted_by};
ghost use Rattle.nfs_worker.specs.Turns.{TookEvent, TookTurn, IsAsked, answers_in, turn_of, EventTurn};
ghost use Rattle.nfs_worker.specs.Volumes.{AreOpen};
ghost use Rattle.volume.specs.Rests.{Rests};

use crate::answering::{Asked, Reaction, answer};
use crate::cells::Cells;
use crate::pass::{Numbers, ServerPass};
use crate::releasing::{Released, release, send};
use crate::tending::tend_all;
use crate::turning::{DropCause, Turn};
use rig::{Address, Clock, Event, Link, Pauser, Post};
use stable::Tended;

// What the release of the turn's one reply makes of the turn.
fn turn_of(released: Released) -> Turn
    ensures { result ≡ turn_of released }
{
    match released {
        Released::Sent => Turn::Answered(1),
        Released::SendFailed => Turn::Dropped(DropCause::SendFailed),
    }
}

// Sends what a datagram from that address came to, if anything.
fn reply<L: Link>(link: &mut L, from: Address, reaction: Reaction) -> Turn
    ensures { Replied L.Link from reaction link.old link.new result }
{
    match reaction {
        Reaction::Ready(ready) => turn_of(release(link, ready)),
        Reaction::Outside(reply) => turn_of(send(link, &from, reply.bytes())),
        Reaction::Mounted(reply) => turn_of(send(link, &from, reply.bytes())),
        Reaction::Halt(reply) => turn_of(send(link, &from, reply.bytes())),
        Reaction::Dropped(cause) => Turn::Dropped(cause),
    }
}

// The numbers after a datagram of which the turn made this.
fn counted(numbers: Numbers, turn: Turn) -> Numbers
    requires { numbers.received < 2 ^ 48 }
    ensures received { result.received ≡ numbers.received + 1 }
    ensures answered { result.answered ≡ numbers.answered + answers_in turn }
{
    match turn {
        Turn::Answered(_) => numbers.with_answered(),
        _ => numbers.with_dropped(),
    }
}

// The turn of an event without a datagram.
fn quiet(event: Event) -> Turn
    ensures { EventTurn event result }
{
    match event {
        Event::Datagram(_) | Event::Idle => Turn::Idle,
        Event::Closed => Turn::Closed,
        Event::Failed => Turn::Dropped(DropCause::ReceiveFailed),
    }
}

// The turn, where it ends the server or not.
fn halted_by(halts: bool, turn: Turn) -> Turn
    ensures { result ≡ halted_by halts turn }
{
    if halts { Turn::Halted } else { turn }
}

// Takes one event, and answers it where it is a datagram that means something, at the pass's second.
fn take<S: Tended, L: Link>(cells: &mut Cells<S>, link: &mut L, pass: &mut ServerPass) -> Turn
    requires few { pass.old.numbers.received < 2 ^ 48 }
    requires rest { AllByRecursion (Rests S.Stable) cells.old.volumes.items }
    requires desk { AreOpen (length cells.old.volumes.items) cells.old.desk }
    ensures took { TookEvent S.Stable L.Link cells.old.volumes.items cells.new.volumes.items cells.old.desk cells.new.desk link.old link.new pass.old pass.new result }
    ensures second { pass.new.second ≡ pass.old.second }
{
    let event = link.recv(&mut pass.packet);
    let Event::Datagram(from) = event else {
        return quiet(event);
    };
    let asked = Asked {
        number: pass.number,
        now: pass.second,
        from,
    };
    let reaction = answer(cells, asked, pass.packet.bytes());
    let halts = reaction.is_halting();
    let turn = reply(link, from, reaction);
    pass.numbers = counted(pass.numbers, turn);
    halted_by(halts, turn)
}

/// Takes one turn: asks the clock, polls each battery where the second is a new one, tries a dirty sector of each store in error, and then takes one
/// event, which it answers where it is a datagram that means something, on the volume that it names.
pub fn turn<S: Tended, L: Link, C: Clock, P: Pauser>(
    cells: &mut Cells<S>,
    post: &mut Post<L, C, P>,
    pass: &mut ServerPass,
) -> Turn
    requires few { pass.old.numbers.received < 2 ^ 48 }
    requires rest { AllByRecursion (Rests S.Stable) cells.old.volumes.items }
    requires desk { AreOpen (length cells.old.volumes.items) cells.old.desk }
    ensures rest { AllByRecursion (Rests S.Stable) cells.new.volumes.items }
    ensures desk { AreOpen (length cells.new.volumes.items) cells.new.desk }
    ensures took { TookTurn S.Stable L.Link (is_new pass.old.second pass.new.second) cells.old.volumes.items cells.new.volumes.items cells.old.desk cells.new.desk post.old.link post.new.link pass.old pass.new result }
    ensures asked { IsAsked C.Clock post.old.clock post.new.clock pass.new.second }
{
    let second = post.clock.now();
    tend_all(&mut cells.volumes, second != pass.second);
    pass.second = second;
    take(cells, &mut post.link, pass)
}
