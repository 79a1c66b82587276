// The records of worked volumes, against bytes that were written out by hand.

use crate::{Chain, Inode, Record, Slot, Super};
use std::test::Fail;

#[test]
fn an_inode_is_read_and_written(rt: HostRuntime) -> Result<(), Fail> {
    let bytes = [
        0xa4, 0x81, 0x01, 0x00, 0x64, 0x00, 0x64, 0x00, 0x00, 0x04, 0x00, 0x00, 0x05, 0x00, 0x00,
        0x06, 0x00, 0x00, 0, 0, 0, 0, 0, 0, 0, 0, 0, 0, 0, 0, 0, 0, 0, 0, 0, 0, 0, 0, 0, 0, 0, 0,
        0, 0, 0, 0, 0, 0, 0x01, 0x00, 0x00, 0x00, 0xe8, 0x03, 0x00, 0x00, 0xd0, 0x07, 0x00, 0x00,
        0xd0, 0x07, 0x00, 0x00,
    ];
    let inode = Inode::read(&bytes);
    let wanted = Inode {
        mode: 0o100644,
        nlink: 1,
        uid: 100,
        gid: 100,
        size: 1024,
        direct: [5, 6, 0, 0, 0, 0, 0, 0, 0, 0],
        single: 0,
        double: 0,
        generation: 1,
        atime: 1000,
        mtime: 2000,
        ctime: 2000,
    };
    assert_eq!(rt; inode, wanted);
    let mut written = [0xff; 64];
    inode.write(&mut written);
    assert_eq!(rt; written, bytes);
    Ok(())
}

fn super_bytes(super_block: &Super) -> [u8; 512] {
    let mut written = [0xff; 512];
    super_block.write(&mut written);
    written
}

#[test]
fn a_super_block_is_read_and_written(rt: HostRuntime) -> Result<(), Fail> {
    let mut bytes = [0; 512];
    bytes[..8].copy_from_slice(&[4, 0, 64, 0, 0, 0, 10, 0]);
    for k in 0..10 {
        bytes[8 + 4 * k] = 14 - k as u8;
    }
    bytes[208] = 14;
    for k in 0..14 {
        bytes[210 + 2 * k] = 16 - k as u8;
    }
    bytes[414..424].copy_from_slice(&[0xe8, 0x03, 0, 0, 59, 0, 0, 0, 14, 0]);
    bytes[434..444].copy_from_slice(b"VOLA00\x01\x00\x00\x00");
    let super_block = Super::read(&bytes);
    assert_eq!(rt; super_block.s_isize, 4);
    assert_eq!(rt; super_block.s_fsize, 64);
    assert_eq!(rt; super_block.s_nfree, 10);
    assert_eq!(rt;
        &super_block.s_free[..11],
        [14, 13, 12, 11, 10, 9, 8, 7, 6, 5, 0].as_slice()
    );
    assert_eq!(rt; super_block.s_ninode, 14);
    assert_eq!(rt; &super_block.s_inode[..4], [16, 15, 14, 13].as_slice());
    assert_eq!(rt; &super_block.s_inode[12..16], [4, 3, 0, 0].as_slice());
    assert_eq!(rt; super_block.s_time, 1000);
    assert_eq!(rt; super_block.s_tfree, 59);
    assert_eq!(rt; super_block.s_tinode, 14);
    assert_eq!(rt; super_block.s_fpack, *b"VOLA00");
    assert_eq!(rt; super_block.mark, 1);
    assert_eq!(rt; super_bytes(&super_block), bytes);
    Ok(())
}

#[test]
fn a_chain_record_and_a_slot_are_read_and_written(rt: HostRuntime) -> Result<(), Fail> {
    let mut bytes = [0; 512];
    bytes[0] = 50;
    for k in 0..49 {
        bytes[6 + 4 * k] = 63 - k as u8;
    }
    let chain = Chain::read(&bytes);
    assert_eq!(rt; chain.s_nfree, 50);
    assert_eq!(rt; &chain.s_free[..4], [0, 63, 62, 61].as_slice());
    assert_eq!(rt; &chain.s_free[48..], [16, 15].as_slice());
    let mut written = [0xff; 512];
    chain.write(&mut written);
    assert_eq!(rt; written, bytes);

    let bytes = *b"\x03\x00f\x00\x00\x00\x00\x00\x00\x00\x00\x00\x00\x00\x00\x00";
    let slot = Slot::read(&bytes);
    let wanted = Slot {
        ino: 3,
        name: *b"f\x00\x00\x00\x00\x00\x00\x00\x00\x00\x00\x00\x00\x00",
    };
    assert_eq!(rt; slot, wanted);
    let mut written = [0xff; 16];
    slot.write(&mut written);
    assert_eq!(rt; written, bytes);
    Ok(())
}
