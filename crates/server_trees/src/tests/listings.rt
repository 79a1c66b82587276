//! READDIR (RFC 1094 2.2.17) of a directory that takes several calls.

use crate::tests::disks::{listed_disk, listed_name};
use crate::tests::moves::P;
use server_runs::asking::{READDIR, Row, SUPERUSER, reply, request};
use server_runs::outside::{has_sent, served};
use server_runs::volumes::rig_with;
use server_runs::worked::add_words;
use std::alloc::Global;
use std::test::Fail;

// The entry in a slot: a number, a name, and the number of the slot past it.
fn add_entry(bytes: &mut Vec<u8>, slot: u32) -> Result<(), Fail> {
    if slot == 0 {
        return add_words(bytes, &[1, 3, 1, 0x2e000000, 1]);
    }
    if slot == 1 {
        return add_words(bytes, &[1, 2, 2, 0x2e2e0000, 2]);
    }
    add_words(bytes, &[1, 4, 8])?;
    bytes.extend_from_slice(&listed_name(slot as usize))?;
    add_words(bytes, &[slot.saturating_add(1)])
}

// The reply with the entries in these slots and this end mark.
fn listing(alloc: Global, from: u32, to: u32, end: u32) -> Result<Vec<u8>, Fail> {
    let mut bytes = reply(alloc, (READDIR, P, &[], &[&[0]]))?;
    for slot in from..to {
        add_entry(&mut bytes, slot)?;
    }
    add_words(&mut bytes, &[0, end])?;
    Ok(bytes)
}

// A call with a cookie, the slots of the entries that it gives, its end mark, and how many bytes its result has.
type Listing = (Row, (u32, u32), u32, usize);

const LISTINGS: [Listing; 3] = [
    ((READDIR, P, &[&[0, 512]], &[]), (0, 21), 0, 508),
    ((READDIR, P, &[&[21, 512]], &[]), (21, 41), 0, 492),
    ((READDIR, P, &[&[41, 512]], &[]), (41, 42), 1, 36),
];

#[test]
fn a_directory_is_listed_by_three_calls(rt: HostRuntime) -> Result<(), Fail> {
    let alloc = rt.alloc();
    for (row, (from, to), end, size) in LISTINGS {
        let told = listing(alloc, from, to, end)?;
        // past the six words of an accepted reply
        assert_eq!(rt; told.len().saturating_sub(24), size);
        let rig = rig_with(alloc, listed_disk(alloc)?);
        let (status, host) = served(alloc, rig, &request(alloc, &SUPERUSER, row)?)?;
        assert_eq!(rt; status, 0);
        assert!(rt; has_sent(&host, &told));
    }
    Ok(())
}
