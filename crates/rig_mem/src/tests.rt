mod gates;

use crate::{MemClock, MemEvent, MemHost, MemLink, MemRig, MemSay, StillPauser};
use rig::{
    Address, Battery, Clock, Event, Failed, Host, HostFault, Link, NoMemory, Packet, Pauser, Point,
    Post, Rig, Say, SteeredRig,
};
use std::test::Fail;

// Steps on a rig of two sectors; a write fills its sector with one byte.
#[derive(Clone, Copy)]
enum Step {
    Write { sector: u32, byte: u8 },
    Read { sector: u32 },
    Fail { number: u64, newer: bool },
    Break { sector: u32 },
    Heal,
    StopAt { number: u64, newer: bool },
    Crash,
}

// A step, whether its call answers Ok, and the first byte of each sector afterwards.
type Row = (Step, bool, [u8; 2]);

const ROWS: [Row; 24] = [
    // calls 1 to 5: the calls planned to fail do, once each
    (
        Step::Fail {
            number: 2,
            newer: false,
        },
        true,
        [0, 0],
    ),
    (
        Step::Fail {
            number: 3,
            newer: true,
        },
        true,
        [0, 0],
    ),
    (Step::Read { sector: 0 }, true, [0, 0]),
    (Step::Write { sector: 0, byte: 1 }, false, [0, 0]),
    (Step::Write { sector: 0, byte: 1 }, false, [1, 0]),
    (
        Step::Fail {
            number: 3,
            newer: false,
        },
        true,
        [1, 0],
    ),
    (Step::Write { sector: 0, byte: 2 }, true, [2, 0]),
    (Step::Write { sector: 1, byte: 3 }, true, [2, 3]),
    // calls 6 to 9: a broken sector stays old, whatever else is planned, until it is healed
    (Step::Break { sector: 1 }, true, [2, 3]),
    (
        Step::Fail {
            number: 6,
            newer: true,
        },
        true,
        [2, 3],
    ),
    (Step::Write { sector: 1, byte: 4 }, false, [2, 3]),
    (Step::Write { sector: 0, byte: 4 }, true, [4, 3]),
    (Step::Heal, true, [4, 3]),
    (Step::Write { sector: 1, byte: 5 }, true, [4, 5]),
    // calls 9 to 11: the later cut counts, one that has passed doesn't, and none comes after it
    (
        Step::StopAt {
            number: 9,
            newer: false,
        },
        true,
        [4, 5],
    ),
    (
        Step::StopAt {
            number: 10,
            newer: true,
        },
        true,
        [4, 5],
    ),
    (
        Step::StopAt {
            number: 8,
            newer: true,
        },
        true,
        [4, 5],
    ),
    (Step::Write { sector: 0, byte: 6 }, true, [6, 5]),
    (Step::Write { sector: 1, byte: 7 }, false, [6, 7]),
    (
        Step::StopAt {
            number: 99,
            newer: true,
        },
        true,
        [6, 7],
    ),
    (Step::Write { sector: 0, byte: 8 }, false, [6, 7]),
    (Step::Read { sector: 0 }, false, [6, 7]),
    // after the crash all works
    (Step::Crash, true, [6, 7]),
    (Step::Write { sector: 0, byte: 9 }, true, [9, 7]),
];

fn take_step(mut rig: MemRig, step: Step) -> Result<(MemRig, bool), NoMemory> {
    let mut ok = true;
    match step {
        Step::Write { sector, byte } => ok = put(&mut rig, Place::Sector(sector), byte).is_ok(),
        Step::Read { sector } => ok = get(&mut rig, Place::Sector(sector)).is_ok(),
        Step::Fail { number, newer } => rig.fail(number, newer)?,
        Step::Break { sector } => rig.break_sector(sector)?,
        Step::Heal => rig.heal(),
        Step::StopAt { number, newer } => rig.stop_at(number, newer),
        Step::Crash => return Ok((rig.crash(true, 0), ok)),
    }
    Ok((rig, ok))
}

// Where a rig keeps something.
#[derive(Clone, Copy)]
enum Place {
    Sector(u32),
    Word(u32),
    Buffer(u32),
}

// Puts a number there, if there is such a place: as a word, or as each byte of a sector or buffer.
fn put(rig: &mut MemRig, place: Place, number: u8) -> Result<(), Failed> {
    match place {
        Place::Sector(index) if index < rig.sectors() => rig.write(index, &[number; 512]),
        Place::Word(index) if index < rig.words() => rig.store_word(index, number as u64),
        Place::Buffer(index) if index < rig.buffers() => rig.store_buffer(index, &[number; 512]),
        _ => Err(Failed),
    }
}

// What is there, of a sector or buffer its last byte.
fn get(rig: &mut MemRig, place: Place) -> Result<u64, Failed> {
    let mut into = [0; 512];
    match place {
        Place::Sector(index) if index < rig.sectors() => rig.read(index, &mut into)?,
        Place::Word(index) if index < rig.words() => return rig.load_word(index),
        Place::Buffer(index) if index < rig.buffers() => rig.load_buffer(index, &mut into)?,
        _ => return Err(Failed),
    }
    Ok(into[511] as u64)
}

fn byte_of(rig: &MemRig, sector: usize) -> Option<u8> {
    rig.disk().get(sector).map(|bytes| bytes[0])
}

#[test]
fn device_calls_do_what_was_planned(rt: HostRuntime) -> Result<(), Fail> {
    let mut rig = MemRig::new(rt.alloc(), 2, 0)?;
    for (step, ok, bytes) in ROWS {
        let (next, was_ok) = take_step(rig, step)?;
        assert_eq!(rt; was_ok, ok);
        assert_eq!(rt; byte_of(&next, 0), Some(bytes[0]));
        assert_eq!(rt; byte_of(&next, 1), Some(bytes[1]));
        rig = next;
    }
    assert_eq!(rt; get(&mut rig, Place::Sector(1)), Ok(7));
    Ok(())
}

#[test]
fn a_board_keeps_its_memory_or_loses_it(rt: HostRuntime) -> Result<(), Fail> {
    let mut rig = MemRig::new(rt.alloc(), 1, 2)?;
    assert_eq!(rt; (rig.sectors(), rig.words(), rig.buffers()), (1, 3, 2));
    assert_eq!(rt; put(&mut rig, Place::Word(2), 5), Ok(()));
    assert_eq!(rt; put(&mut rig, Place::Buffer(1), 6), Ok(()));
    let mut rig = rig.crash(true, 259);
    assert_eq!(rt; rig.kept(), true);
    assert_eq!(rt; get(&mut rig, Place::Word(2)), Ok(5));
    assert_eq!(rt; get(&mut rig, Place::Buffer(1)), Ok(6));
    let mut rig = rig.crash(false, 259);
    assert_eq!(rt; rig.kept(), false);
    assert_eq!(rt; get(&mut rig, Place::Word(2)), Ok(259));
    assert_eq!(rt; get(&mut rig, Place::Buffer(1)), Ok(3));
    assert_eq!(rt; rig.mark_kept(), Ok(()));
    assert_eq!(rt; rig.kept(), true);
    Ok(())
}

#[test]
fn a_rig_without_a_board_has_none_to_lose(rt: HostRuntime) -> Result<(), Fail> {
    let alloc = rt.alloc();
    let mut disk = Vec::new(alloc);
    disk.push([2; 512])?;
    let mut rig = MemRig::with_disk(alloc, disk).crash(false, 3);
    assert_eq!(rt; (rig.sectors(), rig.words(), rig.buffers()), (1, 0, 0));
    assert_eq!(rt; rig.kept(), true);
    assert_eq!(rt; rig.battery(), Battery::Low);
    assert_eq!(rt; byte_of(&rig, 0), Some(2));
    Ok(())
}

#[test]
fn the_battery_says_what_it_was_set_to(rt: HostRuntime) -> Result<(), Fail> {
    let mut rig = MemRig::new(rt.alloc(), 1, 2)?;
    assert_eq!(rt; rig.battery(), Battery::Good);
    rig.set_battery(Battery::Low);
    assert_eq!(rt; rig.battery(), Battery::Low);
    rig.set_battery(Battery::Good);
    rig.low_from(4);
    assert_eq!(rt; rig.battery(), Battery::Good);
    assert_eq!(rt; rig.battery(), Battery::Low);
    assert_eq!(rt; rig.crash(true, 0).battery(), Battery::Good);
    Ok(())
}

#[test]
fn device_calls_are_counted_from_one_crash_to_the_next(rt: HostRuntime) -> Result<(), Fail> {
    let mut rig = MemRig::new(rt.alloc(), 1, 2)?;
    assert_eq!(rt; rig.calls(), 0);
    rig.fail(2, false)?;
    assert_eq!(rt; put(&mut rig, Place::Sector(0), 1), Ok(()));
    assert_eq!(rt; put(&mut rig, Place::Sector(0), 2), Err(Failed));
    assert_eq!(rt; rig.battery(), Battery::Good);
    assert_eq!(rt; rig.mark_kept(), Ok(()));
    assert_eq!(rt; rig.calls(), 3);
    assert_eq!(rt; rig.crash(true, 0).calls(), 0);
    Ok(())
}

// Calls a rig through its bounds alone.
fn cut_write<R: SteeredRig>(rig: &mut R) -> Result<(), Failed> {
    rig.set_battery(Battery::Low);
    rig.stop_after(0, true);
    if rig.sectors() == 0 {
        return Ok(());
    }
    rig.write(0, &[1; 512])
}

#[test]
fn a_rig_is_steered_through_its_trait(rt: HostRuntime) -> Result<(), Fail> {
    let mut rig = MemRig::new(rt.alloc(), 1, 2)?;
    assert_eq!(rt; cut_write(&mut rig), Err(Failed));
    assert_eq!(rt; byte_of(&rig, 0), Some(1));
    assert_eq!(rt; rig.battery(), Battery::Low);
    Ok(())
}

#[test]
fn a_clock_gives_its_seconds_and_then_the_last(rt: HostRuntime) -> Result<(), Fail> {
    let alloc = rt.alloc();
    let mut clock = MemClock::new(Vec::from_slice(alloc, &[7, 7, 3])?);
    for second in [7, 7, 3, 3] {
        assert_eq!(rt; clock.now(), second);
    }
    assert_eq!(rt; MemClock::new(Vec::new(alloc)).now(), 0);
    Ok(())
}

const HOME: Address = Address {
    ip: [1; 16],
    port: 2049,
};

#[test]
fn a_link_hands_over_its_events_and_keeps_what_is_sent(rt: HostRuntime) -> Result<(), Fail> {
    let alloc = rt.alloc();
    let mut packet = Packet::new();
    packet.set(b"hello");
    let mut events = Vec::new(alloc);
    events.push(MemEvent::Datagram { from: HOME, packet })?;
    events.push(MemEvent::Idle)?;
    events.push(MemEvent::Failed)?;
    let mut link = MemLink::new(alloc, events);
    let mut into = Packet::new();
    assert_eq!(rt; link.recv(&mut into), Event::Datagram(HOME));
    assert_eq!(rt; into.bytes(), b"hello".as_slice());
    assert_eq!(rt; link.recv(&mut into), Event::Idle);
    assert_eq!(rt; link.recv(&mut into), Event::Failed);
    assert_eq!(rt; link.recv(&mut into), Event::Closed);
    assert_eq!(rt; link.send(&HOME, b"ok"), Ok(()));
    assert_eq!(rt; link.sent().len(), 1);
    if let Some(sent) = link.sent().first() {
        assert_eq!(rt; sent.to, HOME);
        assert_eq!(rt; sent.bytes.bytes(), b"ok".as_slice());
    }
    Ok(())
}

#[test]
fn a_packet_keeps_the_first_bytes(rt: HostRuntime) -> Result<(), Fail> {
    let mut packet = Packet::new();
    packet.set(&[5; 9217]);
    assert_eq!(rt; packet.bytes().len(), 9216);
    Ok(())
}

// What a program does with its host: a rig, a post, a line, and all back.
fn use_host<H: Host>(host: &mut H) -> Result<u32, HostFault> {
    let rig = host.rig("disk", None)?;
    match host.post(2049, 1) {
        Ok(mut post) => {
            post.pauser.pause();
            post.pauser.gate(Point::Holding(0));
            let second = post.clock.now();
            host.give_back_post(1, post);
            host.give_back_rig(3, rig);
            let _ = host.say("up");
            Ok(second)
        }
        Err(fault) => {
            host.give_back_rig(3, rig);
            Err(fault)
        }
    }
}

#[test]
fn a_host_gives_and_takes_back(rt: HostRuntime) -> Result<(), Fail> {
    let alloc = rt.alloc();
    let mut rigs = Vec::new(alloc);
    rigs.push(MemRig::new(alloc, 4, 0)?)?;
    rigs.push(MemRig::new(alloc, 8, 2)?)?;
    let mut posts = Vec::new(alloc);
    posts.push(Post {
        link: MemLink::new(alloc, Vec::new(alloc)),
        clock: MemClock::new(Vec::from_slice(alloc, &[11])?),
        pauser: StillPauser::new(),
    })?;
    let clock = MemClock::new(Vec::from_slice(alloc, &[5])?);
    let mut host = MemHost::new(alloc, rigs, posts, clock)?;
    assert_eq!(rt; host.now(), 5);
    assert_eq!(rt; use_host(&mut host), Ok(11));
    assert_eq!(rt; host.make_rig("disk", 8, None, 0).is_err(), true);
    match host.make_rig("disk", 8, Some("board"), 2) {
        Ok(rig) => host.give_back_rig(5, rig),
        Err(_) => assert!(rt; false),
    }
    assert_eq!(rt; host.rig("disk", None).is_err(), true);
    assert_eq!(rt; host.post(2049, 2).is_err(), true);
    assert_eq!(rt; host.lines().first().map(|line| line.text()), Some("up"));
    assert_eq!(rt; host.rigs().first().map(|back| back.0), Some(3));
    assert_eq!(rt; host.rigs().last().map(|back| back.0), Some(5));
    assert_eq!(rt; host.posts().first().map(|back| back.0), Some(1));
    assert_eq!(rt; (host.lines().len(), host.posts().len()), (1, 1));
    assert_eq!(rt; host.into_rigs().len(), 2);
    Ok(())
}

#[test]
fn the_call_of_a_number_finds_no_memory(rt: HostRuntime) -> Result<(), Fail> {
    let alloc = rt.alloc();
    let mut rigs = Vec::new(alloc);
    rigs.push(MemRig::new(alloc, 4, 0)?)?;
    let clock = MemClock::new(Vec::new(alloc));
    let mut host = MemHost::<MemRig, StillPauser>::new(alloc, rigs, Vec::new(alloc), clock)?;
    host.starve(2);
    assert_eq!(rt; host.post(2049, 0).err(), Some(HostFault::Failed));
    assert_eq!(rt; host.rig("disk", None).err(), Some(HostFault::NoMemory));
    assert_eq!(rt; host.rig("disk", None).err(), None);
    Ok(())
}

#[test]
fn lines_are_kept_in_order(rt: HostRuntime) -> Result<(), Fail> {
    let mut say = MemSay::new(rt.alloc());
    assert_eq!(rt; say.say("one"), Ok(()));
    assert_eq!(rt; say.say("two"), Ok(()));
    assert_eq!(rt; say.lines().len(), 2);
    if let Some(line) = say.lines().last() {
        assert_eq!(rt; line.text(), "two");
    }
    Ok(())
}
