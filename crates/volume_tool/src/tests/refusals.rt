//! Words, boards and volumes that are refused.
use crate::tests::outside::{ends, has_said, host, rig_with, with_board, words};
use crate::tool;
use nvram_map::format;
use rig::Rig;
use rig_mem::MemRig;
use std::test::Fail;
use volume_mem::{FRESH, test_volume};

#[test]
fn other_words_are_not_of_the_grammar(rt: HostRuntime) -> Result<(), Fail> {
    let alloc = rt.alloc();
    for line in [
        "",
        "mkfs",
        "check",
        "check d d",
        "check :b",
        "check d:d",
        "recover d loss",
        "recover d accept-loss more",
        "drill 1 0",
        "fsck d",
        "mkfs d 64 16 0 VOLA00",
        "mkfs d 64 16 0 VOLA00 1000 1",
        "mkfs d 64 0 0 VOLA00 1000",
        "mkfs d 64 16 4 VOLA00 1000",
        "mkfs d:b 64 16 0 VOLA00 1000",
        "mkfs d:b 64 16 1 VOLA00 1000",
        "mkfs d:b 64 16 2049 VOLA00 1000",
        "mkfs d 64 16 0 VOLA0 1000",
        "mkfs d 64 16 0 VOL-00 1000",
        "mkfs d 64 16 0 VOLA00 4294967296",
        "mkfs d 64 16 0 VOLA00 00000001000",
        "mkfs d +64 16 0 VOLA00 1000",
    ] {
        let mut host = host(alloc, Vec::new(alloc))?;
        assert_eq!(rt; tool(alloc, &words(alloc, line)?, &mut host), 64);
        assert!(rt;
            has_said(&host, "usage: v7tool mkfs|check|recover|drill .."),
            "{line}"
        );
    }
    Ok(())
}

#[test]
fn a_damaged_volume_is_told_by_its_sector_and_kind(rt: HostRuntime) -> Result<(), Fail> {
    let alloc = rt.alloc();
    let mut disk = test_volume(alloc, FRESH)?;
    let Some(root) = disk.get_mut(4) else {
        return Err("there is no root".into());
    };
    root[32] = 9;
    let rig = rig_with(alloc, disk);
    let said = "volume 0 damaged: sector 4 slot";
    let rig = ends(alloc, rig, "check d", 68, said)?;
    let _rig = ends(alloc, rig, "recover d", 68, said)?;
    let rig = MemRig::new(alloc, 1, 0)?;
    let _rig = ends(
        alloc,
        rig,
        "check d",
        68,
        "volume 0 damaged: sector 1 sizes",
    )?;
    Ok(())
}

#[test]
fn a_board_that_is_not_the_volumes_is_told(rt: HostRuntime) -> Result<(), Fail> {
    let alloc = rt.alloc();
    let mut rig = with_board(alloc, &test_volume(alloc, FRESH)?)?;
    if rig.buffers() == 0 || rig.words() < 3 || format(&mut rig, *b"VOLB00").is_err() {
        return Err("there is no board".into());
    }
    let said = "board VOLB00 is not of volume VOLA00";
    let mut rig = ends(alloc, rig, "check d:b", 67, said)?;
    if rig.words() < 3 || rig.buffers() == 0 || format(&mut rig, *b"VOLA00").is_err() {
        return Err("there is no board".into());
    }
    assert!(rt; rig.store_word(2, 5).is_ok());
    let mut rig = ends(
        alloc,
        rig,
        "recover d:b",
        68,
        "board of volume 0: entry 0 bad",
    )?;
    if rig.words() < 3 {
        return Err("there is no board".into());
    }
    assert!(rt; rig.store_word(0, 0).is_ok());
    let _rig = ends(
        alloc,
        rig,
        "check d:b",
        70,
        "board of volume 0 not formatted",
    )?;
    Ok(())
}

#[test]
fn want_of_memory_is_told(rt: HostRuntime) -> Result<(), Fail> {
    let alloc = rt.alloc();
    for line in ["check d", "recover d", "mkfs d 64 16 0 VOLA00 1000"] {
        let mut host = host(alloc, Vec::new(alloc))?;
        host.starve(1);
        assert_eq!(rt; tool(alloc, &words(alloc, line)?, &mut host), 75);
        assert!(rt; has_said(&host, "no memory"), "{line}");
    }
    Ok(())
}

#[test]
fn a_device_that_fails_is_told(rt: HostRuntime) -> Result<(), Fail> {
    let alloc = rt.alloc();
    for line in ["check d", "recover d"] {
        for number in 1..6 {
            let mut rig = rig_with(alloc, test_volume(alloc, FRESH)?);
            rig.fail(number, false)?;
            let _rig = ends(alloc, rig, line, 74, "device failed on volume 0")?;
        }
    }
    Ok(())
}
