//! Single turns, and what each says.

use nfs_worker::{DropCause, ServerPass, Turn};
use rig::{Address, Event, Failed, Link, Packet, Post};
use rig_mem::{MemClock, MemEvent, StillPauser};
use server_runs::outside::{cells, datagram, last_rig, post};
use server_runs::turns::is_next;
use server_runs::volumes::{is_volume, rig};
use server_runs::worked::{CLIENT, worked_write, write_with};
use std::test::Fail;
use volume_mem::{FRESH, WRITTEN};

#[test]
fn each_event_has_its_turn(rt: HostRuntime) -> Result<(), Fail> {
    let alloc = rt.alloc();
    let mut events = Vec::new(alloc);
    events.push(datagram(b"hello"))?;
    events.push(MemEvent::Idle)?;
    events.push(datagram(&write_with(17, 1)))?;
    events.push(MemEvent::Failed)?;
    events.push(datagram(&worked_write()))?;
    let mut post = post(alloc, events)?;
    let mut pass = ServerPass::new(0, 0);
    let Some(mut cells) = cells(alloc, rig(alloc, FRESH)?) else {
        panic!(rt; "the volume wasn't opened");
    };
    let unmeant = Turn::Dropped(DropCause::NoMeaning);
    let failed = Turn::Dropped(DropCause::ReceiveFailed);
    assert!(rt; is_next(&mut cells, &mut post, &mut pass, unmeant));
    assert!(rt; is_next(&mut cells, &mut post, &mut pass, Turn::Idle));
    assert!(rt; is_next(&mut cells, &mut post, &mut pass, Turn::Answered(1)));
    assert!(rt; is_next(&mut cells, &mut post, &mut pass, failed));
    assert!(rt; is_next(&mut cells, &mut post, &mut pass, Turn::Answered(1)));
    assert!(rt; is_next(&mut cells, &mut post, &mut pass, Turn::Closed));
    assert_eq!(rt; pass.second, 2000);
    assert_eq!(rt;
        (
            pass.numbers.received,
            pass.numbers.answered,
            pass.numbers.dropped
        ),
        (3, 2, 1)
    );
    Ok(())
}

// A link that hands over the worked WRITE and can't send.
#[derive(Drop)]
struct Mute {
    faults: u64,
}

impl Link for Mute {
    ghost use Rattle.std.specs.Prelude.{None};

    ghost left = { λ _. None };

    ghost sent = { λ _. None };

    ghost faults = { λ l. l.faults };

    fn recv(&mut self, into: &mut Packet) -> Event {
        into.set(&worked_write());
        Event::Datagram(CLIENT)
    }

    fn send(&mut self, _to: &Address, _bytes: &[u8]) -> Result<(), Failed> {
        self.faults = self.faults.saturating_add(1);
        Err(Failed)
    }
}

#[test]
fn what_is_not_sent_is_done(rt: HostRuntime) -> Result<(), Fail> {
    let alloc = rt.alloc();
    let mut post = Post {
        link: Mute { faults: 0 },
        clock: MemClock::new(Vec::from_slice(alloc, &[2000])?),
        pauser: StillPauser::new(),
    };
    let mut pass = ServerPass::new(0, 0);
    let Some(mut cells) = cells(alloc, rig(alloc, FRESH)?) else {
        panic!(rt; "the volume wasn't opened");
    };
    let unsent = Turn::Dropped(DropCause::SendFailed);
    assert!(rt; is_next(&mut cells, &mut post, &mut pass, unsent));
    assert_eq!(rt;
        (
            pass.numbers.received,
            pass.numbers.answered,
            pass.numbers.dropped
        ),
        (1, 0, 1)
    );
    let Some(rig) = last_rig(&mut cells) else {
        panic!(rt; "there is no volume");
    };
    assert!(rt; is_volume(alloc, &rig, WRITTEN)?);
    Ok(())
}
