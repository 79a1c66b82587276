//! Turns over two volumes.

use crate::tests::wire::{Row, bytes_of};
use nfs_worker::{ServerPass, Turn};
use server_runs::outside::{are_sent, cells_of_two, datagram, last_rig, post};
use server_runs::turns::is_next;
use server_runs::volumes::{is_volume, rig};
use server_runs::worked::write_with;
use std::test::Fail;
use volume_mem::{FRESH, WRITTEN};

#[test]
fn a_call_on_one_volume_leaves_the_other(rt: HostRuntime) -> Result<(), Fail> {
    let alloc = rt.alloc();
    let mut events = Vec::new(alloc);
    events.push(datagram(&write_with(17, 1)))?;
    let mut post = post(alloc, events)?;
    let mut pass = ServerPass::new(0, 2000);
    let Some(mut cells) = cells_of_two(alloc, rig(alloc, FRESH)?, rig(alloc, FRESH)?) else {
        panic!(rt; "the volumes weren't opened");
    };
    assert!(rt; is_next(&mut cells, &mut post, &mut pass, Turn::Answered(1)));
    let (Some(second), Some(first)) = (last_rig(&mut cells), last_rig(&mut cells)) else {
        panic!(rt; "there are no volumes");
    };
    assert!(rt; is_volume(alloc, &second, WRITTEN)?);
    assert!(rt; is_volume(alloc, &first, FRESH)?);
    Ok(())
}

// By user 100 of the machine "c": MNT of `/vol1` and of `/vol2`, EXPORT; by user 0 STATUS of volume 1, and UP of volume 2.
const ROWS: [Row; 5] = [
    (
        &[
            7, 0, 2, 0x186a5, 1, 1, 1, 0x18, 0, 1, 0x63000000, 0x64, 0x64, 0, 0, 0, 5, 0x2f766f6c,
            0x31000000,
        ],
        &[7, 1, 0, 0, 0, 0, 0, 0x56374e32, 1, 2, 1, 0, 0, 0, 0],
    ),
    (
        &[
            7, 0, 2, 0x186a5, 1, 1, 1, 0x18, 0, 1, 0x63000000, 0x64, 0x64, 0, 0, 0, 5, 0x2f766f6c,
            0x32000000,
        ],
        &[7, 1, 0, 0, 0, 0, 2],
    ),
    (
        &[7, 0, 2, 0x186a5, 1, 5, 0, 0, 0, 0],
        &[
            7, 1, 0, 0, 0, 0, 1, 5, 0x2f766f6c, 0x30000000, 0, 1, 5, 0x2f766f6c, 0x31000000, 0, 0,
        ],
    ),
    (
        &[9, 0, 2, 0x20001094, 1, 5, 1, 20, 0, 0, 0, 0, 0, 0, 0, 1],
        &[9, 1, 0, 0, 0, 0, 0, 0, 0, 0, 0, 0],
    ),
    (
        &[9, 0, 2, 0x20001094, 1, 1, 1, 20, 0, 0, 0, 0, 0, 0, 0, 2],
        &[9, 1, 0, 0, 0, 0, 4, 0],
    ),
];

#[test]
fn each_open_volume_is_mounted_and_shown(rt: HostRuntime) -> Result<(), Fail> {
    let alloc = rt.alloc();
    let mut events = Vec::new(alloc);
    let mut replies = Vec::new(alloc);
    for (asked, reply) in ROWS {
        events.push(datagram(&bytes_of(alloc, asked)?))?;
        replies.push(bytes_of(alloc, reply)?)?;
    }
    let mut post = post(alloc, events)?;
    let mut pass = ServerPass::new(0, 2000);
    let Some(mut cells) = cells_of_two(alloc, rig(alloc, FRESH)?, rig(alloc, FRESH)?) else {
        panic!(rt; "the volumes weren't opened");
    };
    let answered = Turn::Answered(1);
    assert!(rt; is_next(&mut cells, &mut post, &mut pass, answered));
    assert!(rt; is_next(&mut cells, &mut post, &mut pass, answered));
    assert!(rt; is_next(&mut cells, &mut post, &mut pass, answered));
    assert!(rt; is_next(&mut cells, &mut post, &mut pass, answered));
    assert!(rt; is_next(&mut cells, &mut post, &mut pass, answered));
    assert!(rt; are_sent(post.link.sent(), &replies));
    Ok(())
}
