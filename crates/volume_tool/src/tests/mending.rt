//! Volumes that are mended.
ghost use Rattle.v7_layout.specs.Written.{AddressesFit};

use crate::tests::outside::{ends, rig_with, with_board};
use nvram_map::entry_word;
use rig::Rig;
use rig_mem::MemRig;
use std::alloc::Global;
use std::test::Fail;
use v7_layout::{Inode, Record, Super};
use volume_mem::{FRESH, file, sectors_of, test_volume};

const CLEAN: &str = "clean files 1 directories 1 links 0 used 3 free 57";

const MENDABLE: &str = "mendable files 1 directories 1 links 0 used 3 free 57";

// The file of the test volume, with a stored link count of 5.
fn counted_five() -> Inode
    ensures { AddressesFit result }
{
    Inode {
        nlink: 5,
        ..file(FRESH)
    }
}

// The test volume whose file has a stored link count of 5.
fn miscounted(alloc: Global) -> Result<Vec<[u8; 512]>, Fail> {
    Ok(sectors_of(alloc, 0, &counted_five(), &[[b'a'; 512], [b'a'; 512]])?)
}

// The test volume as one that was not stopped.
fn running(alloc: Global) -> Result<Vec<[u8; 512]>, Fail> {
    let mut disk = test_volume(alloc, FRESH)?;
    let Some(first) = disk.get_mut(1) else {
        return Err("there is no super-block".into());
    };
    let super_block = Super {
        s_fmod: 1,
        ..Super::read(first)
    };
    super_block.write(first);
    Ok(disk)
}

#[test]
fn a_count_of_links_is_mended(rt: HostRuntime) -> Result<(), Fail> {
    let alloc = rt.alloc();
    let rig = rig_with(alloc, miscounted(alloc)?);
    let rig = ends(alloc, rig, "check d", 0, MENDABLE)?;
    let rig = ends(alloc, rig, "recover d", 0, "recovered 0 repaired 1")?;
    let rig = ends(alloc, rig, "check d", 0, CLEAN)?;
    let rig = ends(alloc, rig, "recover d", 0, "recovered 0 repaired 0")?;
    let _rig = ends(alloc, rig, "check d", 0, CLEAN)?;
    Ok(())
}

#[test]
fn a_volume_that_was_not_stopped_is_mendable(rt: HostRuntime) -> Result<(), Fail> {
    let alloc = rt.alloc();
    let rig = rig_with(alloc, running(alloc)?);
    let rig = ends(alloc, rig, "check d", 0, MENDABLE)?;
    let rig = ends(alloc, rig, "recover d", 0, "recovered 0 repaired 0")?;
    let _rig = ends(alloc, rig, "check d", 0, CLEAN)?;
    Ok(())
}

#[test]
fn an_entry_of_the_board_is_recovered(rt: HostRuntime) -> Result<(), Fail> {
    let alloc = rt.alloc();
    let mut rig = with_board(alloc, &test_volume(alloc, FRESH)?)?;
    if rig.buffers() == 0 || rig.words() < 3 {
        return Err("there is no board".into());
    }
    assert!(rt; rig.store_buffer(0, &[b'Z'; 512]).is_ok());
    assert!(rt; rig.store_word(2, entry_word(5, 0)).is_ok());
    let rig = ends(alloc, rig, "recover d:b", 0, "recovered 1 repaired 0")?;
    assert!(rt; rig.disk().get(5) == Some(&[b'Z'; 512]));
    let _rig = ends(alloc, rig, "check d:b", 0, CLEAN)?;
    Ok(())
}

#[test]
fn a_lost_board_is_accepted_only_if_asked(rt: HostRuntime) -> Result<(), Fail> {
    let alloc = rt.alloc();
    let lost = "board of volume 0 lost its memory";
    let rig = with_board(alloc, &test_volume(alloc, FRESH)?)?.crash(false, 77);
    let rig = ends(alloc, rig, "check d:b", 69, lost)?;
    let rig = ends(alloc, rig, "recover d:b", 69, lost)?;
    let line = "recover d:b accept-loss";
    let rig = ends(alloc, rig, line, 0, "recovered 0 repaired 0")?;
    let _rig = ends(alloc, rig, "check d:b", 0, CLEAN)?;
    Ok(())
}

// A rig whose volume is to be recovered, at which this device call fails or is cut.
fn troubled(alloc: Global, number: u64, newer: bool, cut: bool) -> Result<MemRig, Fail> {
    let mut rig = rig_with(alloc, miscounted(alloc)?);
    if cut {
        rig.stop_at(number, newer);
    } else {
        rig.fail(number, newer)?;
    }
    Ok(rig)
}

// Runs over a rig with such a trouble, and recovers it once more.
fn recovers_again(alloc: Global, number: u64, newer: bool, cut: bool) -> Result<(), Fail> {
    let rig = troubled(alloc, number, newer, cut)?;
    let rig = ends(alloc, rig, "recover d", 74, "device failed on volume 0")?;
    let rig = rig.crash(true, 0);
    let (status, host) = crate::tests::outside::run(alloc, rig, "recover d")?;
    let Some(rig) = crate::tests::outside::rig_of(host) else {
        return Err("the rig didn't come back".into());
    };
    if status != 0 {
        return Err("it isn't recovered".into());
    }
    let _rig = ends(alloc, rig, "check d", 0, CLEAN)?;
    Ok(())
}

#[test]
fn each_device_call_of_a_recovery_may_fail(rt: HostRuntime) -> Result<(), Fail> {
    let alloc = rt.alloc();
    let rig = rig_with(alloc, miscounted(alloc)?);
    let rig = ends(alloc, rig, "recover d", 0, "recovered 0 repaired 1")?;
    let calls = rig.calls().min(200);
    for number in 0..calls {
        for (newer, cut) in [(false, false), (true, false), (false, true), (true, true)] {
            recovers_again(alloc, number.saturating_add(1), newer, cut)?;
        }
    }
    Ok(())
}
