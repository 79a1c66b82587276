//! LOOKUP and STATFS, through datagrams.

use server_runs::asking::{F, FILE, FILE_MADE, G, LOOKUP, OLD_ROOT, ROOT, Row, STATFS, answered};
use server_runs::volumes::{is_stopped, is_volume, rig};
use server_runs::worked::CREDENTIAL;
use std::test::Fail;
use volume_mem::FRESH;

// Names: `f`, `.`, `g`, one with a slash, an empty one, and one of 15 bytes. The file of the volume is `f`.
const ROWS: [Row; 9] = [
    (LOOKUP, ROOT, &[&F], &[&[0], &FILE, &FILE_MADE]),
    (LOOKUP, ROOT, &[&G], &[&[2]]),
    (LOOKUP, ROOT, &[&[2, 0x2f660000]], &[&[13]]),
    (LOOKUP, ROOT, &[&[0]], &[&[13]]),
    (
        LOOKUP,
        ROOT,
        &[&[15, 0x66666666, 0x66666666, 0x66666666, 0x66666600]],
        &[&[63]],
    ),
    (LOOKUP, OLD_ROOT, &[&F], &[&[70]]),
    (STATFS, ROOT, &[], &[&[0, 8192, 512, 60, 57, 57]]),
    (STATFS, OLD_ROOT, &[], &[&[70]]),
    (LOOKUP, FILE, &[&F], &[&[20]]),
];

#[test]
fn names_are_looked_up_and_free_blocks_are_told(rt: HostRuntime) -> Result<(), Fail> {
    let alloc = rt.alloc();
    let Some(rig) = answered(alloc, rig(alloc, FRESH)?, &CREDENTIAL, &ROWS)? else {
        panic!(rt; "another reply");
    };
    assert!(rt; is_volume(alloc, &rig, FRESH)? && is_stopped(&rig, 1500));
    Ok(())
}
