//! Volumes that are made.
use crate::tests::outside::{ends, has_said, host, rig_of, run, words};
use crate::tool;
use rig_mem::MemRig;
use std::test::Fail;
use v7_layout::{Record, Super};

#[test]
fn a_volume_with_a_board_is_made_and_clean(rt: HostRuntime) -> Result<(), Fail> {
    let alloc = rt.alloc();
    let rig = MemRig::new(alloc, 64, 4)?.crash(false, 77);
    let rig = ends(
        alloc,
        rig,
        "mkfs d:b 64 16 4 VOLA00 1000",
        0,
        "made 64 sectors 16 inodes 59 free",
    )?;
    let Some(first) = rig.disk().get(1) else {
        return Err("there is no super-block".into());
    };
    let super_block = Super::read(first);
    assert!(rt; super_block.s_isize == 4 && super_block.s_fsize == 64);
    assert!(rt; super_block.s_nfree == 10);
    assert!(rt;
        super_block
            .s_free
            .starts_with(&[14, 13, 12, 11, 10, 9, 8, 7, 6, 5, 0])
    );
    assert!(rt; super_block.s_time == 1000 && super_block.s_fpack == *b"VOLA00");
    let clean = "clean files 0 directories 1 links 0 used 1 free 59";
    let rig = ends(alloc, rig, "check d:b", 0, clean)?;
    let rig = ends(alloc, rig, "recover d:b", 0, "recovered 0 repaired 0")?;
    let _rig = ends(alloc, rig, "check d:b", 0, clean)?;
    Ok(())
}

#[test]
fn a_volume_without_a_board_is_made_and_clean(rt: HostRuntime) -> Result<(), Fail> {
    let alloc = rt.alloc();
    let rig = MemRig::new(alloc, 64, 0)?;
    let made = "made 64 sectors 16 inodes 59 free";
    let rig = ends(alloc, rig, "mkfs d 64 9 0 VOLA00 1000", 0, made)?;
    let clean = "clean files 0 directories 1 links 0 used 1 free 59";
    let _rig = ends(alloc, rig, "check d", 0, clean)?;
    Ok(())
}

#[test]
fn sizes_are_refused_before_a_rig_is_made(rt: HostRuntime) -> Result<(), Fail> {
    let alloc = rt.alloc();
    for (line, said) in [
        ("mkfs d:b 4 16 4 VOLA00 1000", "too small: need 5 have 4"),
        ("mkfs d:b 2000000 16 4 VOLA00 1000", "too large"),
        ("mkfs d 1048577 16 0 VOLA00 1000", "too large"),
        ("mkfs d 64 65529 0 VOLA00 1000", "too large"),
        ("mkfs d 64 4294967295 0 VOLA00 1000", "too large"),
    ] {
        let (status, host) = run(alloc, MemRig::new(alloc, 4, 4)?, line)?;
        assert_eq!(rt; status, 65);
        assert!(rt; has_said(&host, said), "{line}");
        assert!(rt; rig_of(host).is_none());
    }
    Ok(())
}

#[test]
fn a_rig_of_other_sizes_is_not_made(rt: HostRuntime) -> Result<(), Fail> {
    let alloc = rt.alloc();
    let line = "mkfs d:b 64 16 4 VOLA00 1000";
    let (status, host) = run(alloc, MemRig::new(alloc, 65, 4)?, line)?;
    assert_eq!(rt; status, 66);
    assert!(rt; has_said(&host, "cannot open d:b"));
    for line in ["check d:b", "recover d:b"] {
        let mut host = host_without(alloc)?;
        assert_eq!(rt; tool(alloc, &words(alloc, line)?, &mut host), 66);
        assert!(rt; has_said(&host, "cannot open d:b"));
    }
    Ok(())
}

// A host that has no rig.
fn host_without(alloc: std::alloc::Global) -> Result<crate::tests::outside::Host, Fail> {
    host(alloc, Vec::new(alloc))
}

#[test]
fn a_device_that_fails_while_a_volume_is_made_is_told(rt: HostRuntime) -> Result<(), Fail> {
    let alloc = rt.alloc();
    // the write of the name, a store of the board, the mark of its being kept, and a write of the volume
    for number in [1, 3, 7, 9] {
        let mut rig = MemRig::new(alloc, 64, 4)?;
        rig.fail(number, false)?;
        let line = "mkfs d:b 64 16 4 VOLA00 1000";
        let _rig = ends(alloc, rig, line, 74, "device failed on volume 0")?;
    }
    Ok(())
}
