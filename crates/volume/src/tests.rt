//! The test volume over a store in memory: opened, called, hurt, mended and stopped.

ghost use Rattle.std.specs.Prelude.{true, IfOk};
ghost use Rattle.volume.specs.Rests.{Rests};

mod growth;
mod names;

use crate::{Outcome, Volume};
use files_model::{Attr, Call, Cred, Data, FileId, Gids, Kind, Reply, Stat};
use stable::{Answer, Battery, Command, FlushAnswer, Stable, State};
use std::alloc::Global;
use std::test::Fail;
use store_mem::Memory;
use v7_damage::{Damage, RepairFault};
use v7_layout::{Chain, Record, Super};
use v7_repair::Repaired;
use volume_mem::{FRESH, WRITTEN, test_volume};

const FILE: FileId = FileId {
    ino: 3,
    generation: 1,
};

// A store with the test volume, one of whose puts may fail.
fn store(alloc: Global, failing: u64) -> Result<Memory, Fail> {
    let mut sectors = test_volume(alloc, FRESH)?;
    // a store asks that its sectors can be numbered
    sectors.truncate(64);
    let mut store = Memory::new(alloc, &sectors)?;
    store.failing = failing;
    Ok(store)
}

// The volume on a store, opened at second 1500.
fn opened(alloc: Global, store: Memory) -> Result<(Volume<Memory>, Repaired), Fail>
    ensures { IfOk result (λ opened. Rests ⟦<Memory as Stable>⟧ opened.0) }
{
    match Volume::open(alloc, store, 1500) {
        Ok(opened) => Ok(opened),
        Err(_) => Err(Fail::new("no volume")),
    }
}

// A WRITE of "XY" at byte 511 of the file.
fn write(alloc: Global) -> Result<Call, Fail> {
    Ok(Call::Write {
        file: FILE,
        offset: 511,
        bytes: Data::copy(alloc, b"XY")?,
    })
}

fn owner() -> Cred {
    Cred {
        uid: 100,
        gid: 100,
        gids: Gids::copy(&[]),
    }
}

// The file's attributes, with these times of its last change.
fn attributes(changed: u32) -> Attr {
    Attr {
        kind: Kind::Regular,
        mode: 0o644,
        nlink: 1,
        uid: 100,
        gid: 100,
        size: 1024,
        fileid: FILE.ino,
        atime: 1000,
        mtime: changed,
        ctime: changed,
    }
}

// Whether a READ of the written file gives these bytes.
fn gives(volume: &mut Volume<Memory>, offset: u32, count: u32, want: &[u8]) -> bool
    requires { Rests ⟦<Memory as Stable>⟧ volume.old }
    ensures { Rests ⟦<Memory as Stable>⟧ volume.new }
{
    let read = Call::Read {
        file: FILE,
        offset,
        count,
    };
    match volume.apply(&read, &owner(), 2001) {
        Outcome::Reply(Reply::Data { attr, bytes }) => {
            attr == attributes(2000) && bytes.bytes() == want
        }
        _ => false,
    }
}

#[test]
fn a_write_across_two_sectors_is_stored_before_its_reply(rt: HostRuntime) -> Result<(), Fail> {
    let alloc = rt.alloc();
    let (mut volume, _) = opened(alloc, store(alloc, 0)?)?;
    let written = volume.apply(&write(alloc)?, &owner(), 2000);
    assert!(rt; matches!(&written, Outcome::Reply(Reply::Attr(attr)) if *attr == attributes(2000)));
    let store = volume.into_store();
    assert!(rt; store.puts == 4 && store.order.starts_with(&[1, 5, 6, 2]));
    let want = test_volume(alloc, WRITTEN)?;
    assert!(rt; store.sectors.get(2..) == want.get(2..));
    Ok(())
}

#[test]
fn what_was_written_is_read(rt: HostRuntime) -> Result<(), Fail> {
    let alloc = rt.alloc();
    let (mut volume, _) = opened(alloc, store(alloc, 0)?)?;
    let _ = volume.apply(&write(alloc)?, &owner(), 2000);
    assert!(rt; gives(&mut volume, 510, 4, b"aXYa"));
    assert!(rt; gives(&mut volume, 1024, 4, b""));
    assert!(rt; gives(&mut volume, 1020, 8, b"aaaa"));
    let old = Call::Getattr {
        file: FileId {
            generation: 2,
            ..FILE
        },
    };
    let answer = volume.apply(&old, &owner(), 2001);
    assert!(rt; matches!(answer, Outcome::Reply(Reply::Refused(Stat::Stale))));
    Ok(())
}

#[test]
fn a_volume_says_that_it_is_open_until_it_is_stopped(rt: HostRuntime) -> Result<(), Fail> {
    let alloc = rt.alloc();
    let (mut volume, repaired) = opened(alloc, store(alloc, 0)?)?;
    let root = FileId {
        ino: 2,
        generation: 1,
    };
    assert!(rt; volume.name() == *b"VOLA00" && volume.root() == root);
    let found = repaired.seen;
    assert!(rt; repaired.changed == 0 && found.strong && found.clean);
    assert!(rt; found.files == 1 && found.directories == 1 && found.used == 3 && found.free == 57);
    let Ok(seen) = volume.inspect() else {
        panic!(rt; "nothing is seen");
    };
    assert!(rt; seen.strong && !seen.clean && seen.free == 57);
    let store = volume.into_store();
    let running = Super::read(&store.sector(1));
    assert!(rt; store.puts == 1 && running.s_fmod == 1 && running.s_time == 1500);

    let (volume, again) = opened(alloc, store)?;
    assert!(rt; again.changed == 0 && !again.seen.clean);
    let (store, stopped) = volume.stop(3000);
    assert!(rt; stopped.is_ok() && store.puts == 4 && store.order.starts_with(&[1, 1, 14, 1]));
    let clean = Super::read(&store.sector(1));
    assert!(rt; clean.s_fmod == 0 && clean.s_time == 3000);
    assert!(rt; clean.s_nfree == 8 && clean.s_tfree == 57);
    assert!(rt; clean.s_free.starts_with(&[14, 13, 12, 11, 10, 9, 8, 7, 0]));
    assert!(rt; clean.s_ninode == 13 && clean.s_tinode == 13);
    assert!(rt;
        clean
            .s_inode
            .starts_with(&[16, 15, 14, 13, 12, 11, 10, 9, 8, 7, 6, 5, 4, 0])
    );
    let chain = Chain::read(&store.sector(14));
    assert!(rt; chain.s_nfree == 50 && chain.s_free[0] == 0);
    for place in 1..50 {
        assert!(rt; chain.s_free[place] as usize == 64 - place);
    }
    Ok(())
}

#[test]
fn a_failed_change_is_mended_by_the_next_call(rt: HostRuntime) -> Result<(), Fail> {
    let alloc = rt.alloc();
    // the put of the inode, after those of the super-block and of the data
    let (mut volume, _) = opened(alloc, store(alloc, 4)?)?;
    let written = volume.apply(&write(alloc)?, &owner(), 2000);
    assert!(rt; matches!(written, Outcome::Io));
    let asked = Call::Getattr { file: FILE };
    let Outcome::Reply(Reply::Attr(attr)) = volume.apply(&asked, &owner(), 2001) else {
        panic!(rt; "no attributes");
    };
    assert!(rt; attr == attributes(1000) || attr == attributes(2000));
    let (store, stopped) = volume.stop(3000);
    assert!(rt; stopped.is_ok() && Super::read(&store.sector(1)).s_fmod == 0);
    Ok(())
}

#[test]
fn a_hurt_volume_is_stopped_as_it_is(rt: HostRuntime) -> Result<(), Fail> {
    let alloc = rt.alloc();
    let (mut volume, _) = opened(alloc, store(alloc, 4)?)?;
    let written = volume.apply(&write(alloc)?, &owner(), 2000);
    assert!(rt; matches!(written, Outcome::Io));
    let (store, stopped) = volume.stop(3000);
    let running = Super::read(&store.sector(1));
    assert!(rt; stopped.is_ok() && store.puts == 4);
    assert!(rt; running.s_fmod == 1 && running.s_time == 1500);
    Ok(())
}

#[test]
fn a_refusal_gives_the_store_back(rt: HostRuntime) -> Result<(), Fail> {
    let alloc = rt.alloc();
    let mut damaged = store(alloc, 0)?;
    if let Some(super_block) = damaged.sectors.get_mut(1) {
        *super_block = [0; 512];
    }
    let sizes = RepairFault::Damaged {
        sector: 1,
        kind: Damage::Sizes,
    };
    for (store, why, puts) in [
        (damaged, sizes, 0),
        (store(alloc, 1)?, RepairFault::Failed, 1),
    ] {
        let Err((fault, store)) = Volume::open(alloc, store, 1500) else {
            panic!(rt; "it was opened");
        };
        assert!(rt; fault == why && store.puts == puts && store.sectors() == 64);
    }
    Ok(())
}

#[test]
fn the_store_is_tended_and_steered(rt: HostRuntime) -> Result<(), Fail> {
    let (mut volume, _) = opened(rt.alloc(), store(rt.alloc(), 0)?)?;
    assert!(rt; volume.poll() == Battery::Low);
    assert!(rt; volume.flush_one() == FlushAnswer::Nothing);
    assert!(rt; volume.command(Command::Up) == Answer::BatteryLow);
    assert!(rt; volume.command(Command::Down) == Answer::Done);
    let snapshot = volume.snapshot();
    assert!(rt; snapshot.state == State::Down && snapshot.dirty == 0);
    assert!(rt; snapshot.puts == 1 && snapshot.polls == 1 && snapshot.ups == 1);
    volume.set_battery(Battery::Good);
    volume.stop_after(3, true);
    let store = volume.into_store();
    assert!(rt; store.battery == Battery::Good && store.stop == Some((3, true)));
    Ok(())
}
