//! Runs over two volumes (docs/CALLS.md, "A run").
use crate::tests::wire::{Row, bytes_of};
use rig_mem::MemRig;
use server_runs::outside::{Host, datagram, has_said, has_sent, has_sent_all, host, run};
use server_runs::volumes::{has_disk, is_stopped, is_volume, patched, rig, rig_with};
use server_runs::worked::{worked_reply, write_with};
use std::alloc::Global;
use std::test::Fail;
use volume_mem::{FRESH, WRITTEN, test_volume};

// A host that gives the test volume and then this rig, and the worked WRITE with word 17 of it, the number of the volume, changed.
fn host_of(alloc: Global, second: MemRig, number: u32) -> Result<Host, Fail> {
    let mut rigs = Vec::new(alloc);
    rigs.push(rig(alloc, FRESH)?)?;
    rigs.push(second)?;
    let mut events = Vec::new(alloc);
    events.push(datagram(&write_with(17, number)))?;
    host(alloc, rigs, Some(events))
}

// The rigs that the host was given back, if these are those of volumes 0 and 1.
fn both_rigs(host: &Host) -> Option<(&MemRig, &MemRig)> {
    let [(first_number, first), (second_number, second)] = host.rigs() else {
        return None;
    };
    if *first_number == 0 && *second_number == 1 {
        return Some((first, second));
    }
    None
}

// The reply to the worked WRITE on the volume of this number, which is the fsid (RFC 1094 2.3.5).
fn reply_on(number: u32) -> [u8; 96] {
    let mut bytes = worked_reply();
    bytes[64..68].copy_from_slice(&number.to_be_bytes());
    bytes
}

#[test]
fn a_write_to_one_of_two_volumes_is_served(rt: HostRuntime) -> Result<(), Fail> {
    let alloc = rt.alloc();
    let mut host = host_of(alloc, rig(alloc, FRESH)?, 1)?;
    assert_eq!(rt; run(alloc, &["d", "e"], &mut host)?, 0);
    assert!(rt; has_sent(&host, &reply_on(1)));
    assert!(rt;
        has_said(
            &host,
            &[
                "volume 0 VOLA00 down recovered 0",
                "volume 1 VOLA00 down recovered 0",
                "volume 0 down dirty 0",
                "volume 1 down dirty 0",
                "received 1 answered 1 dropped 0",
            ]
        )
    );
    let Some((first, second)) = both_rigs(&host) else {
        panic!(rt; "the rigs didn't come back");
    };
    assert!(rt; is_volume(alloc, first, FRESH)?);
    assert!(rt; is_volume(alloc, second, WRITTEN)?);
    Ok(())
}

// A last slot of the second volume names a free inode.
#[test]
fn where_the_second_is_damaged_the_first_is_stopped(rt: HostRuntime) -> Result<(), Fail> {
    let alloc = rt.alloc();
    let wanted = patched(test_volume(alloc, FRESH)?, &[(4, 32, 9)]);
    let damaged = patched(test_volume(alloc, FRESH)?, &[(4, 32, 9)]);
    let mut host = host_of(alloc, rig_with(alloc, damaged), 0)?;
    assert_eq!(rt; run(alloc, &["d", "e"], &mut host)?, 68);
    assert!(rt;
        has_said(
            &host,
            &[
                "volume 0 VOLA00 down recovered 0",
                "volume 1 damaged: sector 4 slot",
            ]
        )
    );
    assert_eq!(rt; host.posts().len(), 0);
    let Some((first, second)) = both_rigs(&host) else {
        panic!(rt; "the rigs didn't come back");
    };
    assert!(rt; is_volume(alloc, first, FRESH)?);
    assert!(rt; is_stopped(first, 1500));
    assert!(rt; has_disk(second, &wanted));
    Ok(())
}

// STATUS of both volumes by user 0. The worked WRITE puts two sectors of the file and that of its inode.
const STATUS: [Row; 2] = [
    (
        &[9, 0, 2, 0x20001094, 1, 5, 1, 20, 0, 0, 0, 0, 0, 0, 0, 0],
        &[9, 1, 0, 0, 0, 0, 0, 0, 0, 0, 0, 3],
    ),
    (
        &[9, 0, 2, 0x20001094, 1, 5, 1, 20, 0, 0, 0, 0, 0, 0, 0, 1],
        &[9, 1, 0, 0, 0, 0, 0, 0, 0, 0, 0, 6],
    ),
];

// The first is written once, the second twice.
#[test]
fn each_volume_has_its_own_puts(rt: HostRuntime) -> Result<(), Fail> {
    let alloc = rt.alloc();
    let mut events = Vec::new(alloc);
    let mut replies = Vec::new(alloc);
    for number in [0, 1, 1] {
        events.push(datagram(&write_with(17, number)))?;
        replies.push(Vec::from_slice(alloc, &reply_on(number))?)?;
    }
    for (asked, reply) in STATUS {
        events.push(datagram(&bytes_of(alloc, asked)?))?;
        replies.push(bytes_of(alloc, reply)?)?;
    }
    let mut rigs = Vec::new(alloc);
    rigs.push(rig(alloc, FRESH)?)?;
    rigs.push(rig(alloc, FRESH)?)?;
    let mut host = host(alloc, rigs, Some(events))?;
    assert_eq!(rt; run(alloc, &["d", "e"], &mut host)?, 0);
    assert!(rt; has_sent_all(&host, &replies));
    let Some((first, second)) = both_rigs(&host) else {
        panic!(rt; "the rigs didn't come back");
    };
    assert!(rt; is_volume(alloc, first, WRITTEN)?);
    assert!(rt; is_volume(alloc, second, WRITTEN)?);
    Ok(())
}
