//! MKDIRs planned whole on a small volume: a root, inode 2, whose slots stand in sector 4, and file 3 with its name in slot 2.

mod refused;

ghost use Rattle.v7_layout.specs.Written.{AddressesFit};

use super::plan_mkdir;
use files_model::{Cred, FileId, Gids, Kind, Name, Reply, Sattr};
use plan_name::Planned;
use stable::Stable;
use std::alloc::Global;
use std::test::Fail;
use store_mem::Memory;
use v7_layout::Inode;
use v7_read::{inode_in, inode_sector_of};
use v7_sets::Sets;
use v7_strokes::{slot_of, with_inode, with_slot};
use volume_mem::{FRESH, Shape, test_volume};

const ROOT: FileId = FileId {
    ino: 2,
    generation: 1,
};

const NOTHING: Sattr = Sattr {
    mode: None,
    uid: None,
    gid: None,
    size: None,
    atime: None,
    mtime: None,
};

// A free inode of generation 7.
const FREE: Inode = Inode {
    mode: 0,
    nlink: 0,
    uid: 0,
    gid: 0,
    size: 0,
    direct: [0; 10],
    single: 0,
    double: 0,
    generation: 7,
    atime: 0,
    mtime: 0,
    ctime: 0,
};

// A volume with what is free on it: block 40 and i-number 9, in sector 3.
#[derive(Drop)]
struct Small {
    alloc: Global,
    store: Memory,
    sets: Sets,
}

impl Small {
    // The test volume of this shape: the root has three slots, and none is empty.
    fn new(alloc: Global, shape: Shape) -> Result<Small, Fail> {
        let mut sectors = test_volume(alloc, shape)?;
        sectors.truncate(64);
        let store = Memory::new(alloc, sectors.as_slice())?;
        let mut sets = Sets::new(alloc, 64, 17)?;
        sets.blocks.give(40);
        sets.inodes.give(9);
        let mut small = Small { alloc, store, sets };
        small.set_inode(9, &FREE)?;
        Ok(small)
    }

    // The root has 32 slots, all used but the one of this number.
    fn full(alloc: Global, empty: u32) -> Result<Small, Fail> {
        let mut small = Small::new(alloc, FRESH)?;
        let mut bytes = small.store.sector(4);
        for index in 3..32 {
            if index != empty {
                bytes = with_slot(&bytes, index, &slot_of(3, b"used"));
            }
        }
        small.set(4, &bytes)?;
        let root = Inode {
            size: 512,
            ..small.inode(2)
        };
        small.set_inode(2, &root)?;
        Ok(small)
    }

    fn inode(&self, ino: u32) -> Inode
        ensures { AddressesFit result }
    {
        inode_in(&self.store.sector(inode_sector_of(ino)), ino)
    }

    fn set_inode(&mut self, ino: u32, inode: &Inode) -> Result<(), Fail>
        requires { AddressesFit inode.now }
    {
        let sector = inode_sector_of(ino);
        let bytes = with_inode(&self.store.sector(sector), ino, inode);
        self.set(sector, &bytes)
    }

    fn set(&mut self, sector: u32, bytes: &[u8; 512]) -> Result<(), Fail> {
        if sector >= self.store.sectors() {
            return Err("past the store".into());
        }
        self.store.put(sector, bytes)?;
        Ok(())
    }

    // Puts the plan.
    fn run(&mut self, planned: &Planned) -> Result<(), Fail> {
        for put in planned.plan.puts() {
            self.set(put.0, &put.1)?;
        }
        Ok(())
    }

    // An MKDIR by the user of this number, at second 2000.
    fn mkdir(
        &mut self,
        dir: FileId,
        name: &[u8],
        wanted: &Sattr,
        uid: u16,
    ) -> Result<Planned, Fail> {
        if name.len() > 255 {
            return Err("too long".into());
        }
        let name = Name::copy(name);
        let cred = Cred {
            uid,
            gid: uid,
            gids: Gids::copy(&[]),
        };
        let planned = plan_mkdir(
            self.alloc,
            &mut self.store,
            &mut self.sets,
            dir,
            &name,
            wanted,
            &cred,
            2000,
        );
        Ok(planned.map_err(|_| "not planned")?)
    }
}

// The call made directory 9, of the generation after that of the free inode, and frees nothing.
fn is_made(planned: &Planned) -> bool {
    let nothing = planned.freed.blocks.len() == 0 && planned.freed.inode.is_none();
    nothing
        && matches!(&planned.reply, Reply::Handle { file, attr } if file.ino == 9 && file.generation == 8 && attr.fileid == 9 && attr.kind == Kind::Directory && attr.nlink == 2 && attr.size == 32)
}

// The sectors of up to five puts, in their order.
fn sectors_put(planned: &Planned) -> [u32; 5] {
    let mut sectors = [0; 5];
    let mut count = 0;
    for put in planned.plan.puts() {
        if count < 5 {
            sectors[count] = put.0;
            count += 1;
        }
    }
    sectors
}

// When an inode was read, written and changed.
fn times(inode: &Inode) -> [u32; 3] {
    [inode.atime, inode.mtime, inode.ctime]
}

// The slots of directory 9 in the root: `.` and `..`.
fn dots() -> [u8; 512] {
    let mut bytes = [0; 512];
    bytes[0] = 9;
    bytes[2] = b'.';
    bytes[16] = 2;
    bytes[18] = b'.';
    bytes[19] = b'.';
    bytes
}

// The inode of directory 9, made at second 2000 with its slots in this block.
fn is_new(inode: &Inode, block: u32) -> bool {
    let times = times(inode) == [2000, 2000, 2000];
    times
        && inode.nlink == 2
        && inode.size == 32
        && inode.direct == [block, 0, 0, 0, 0, 0, 0, 0, 0, 0]
        && inode.single == 0
        && inode.generation == 8
}

// The root has so many bytes, one link more, and its times.
fn has_one_more(root: &Inode, size: u32) -> bool {
    root.nlink == 3 && root.size == size && times(root) == [1000, 2000, 2000]
}

#[test]
fn a_directory_takes_the_empty_slot(rt: HostRuntime) -> Result<(), Fail> {
    let mut small = Small::full(rt.alloc(), 17)?;
    let made = small.mkdir(ROOT, b"new", &NOTHING, 0)?;
    assert!(rt; is_made(&made) && sectors_put(&made) == [40, 3, 4, 2, 0]);
    small.run(&made)?;
    assert!(rt; small.store.sector(40) == dots());
    let new = small.inode(9);
    assert!(rt; is_new(&new, 40) && new.mode == 0o040_777 && new.uid == 0 && new.gid == 0);
    let slots = small.store.sector(4);
    assert!(rt; slots[272] == 9 && slots[273] == 0 && slots[274] == b'n' && slots[277] == 0);
    assert!(rt; slots[256] == 3 && slots[288] == 3);
    assert!(rt; has_one_more(&small.inode(2), 512));
    assert!(rt; small.sets.blocks.count() == 0 && small.sets.inodes.count() == 0);
    Ok(())
}

#[test]
fn a_directory_past_the_last_slot_is_its_makers(rt: HostRuntime) -> Result<(), Fail> {
    let mut small = Small::new(rt.alloc(), FRESH)?;
    let open = Inode {
        mode: 0o040_777,
        ..small.inode(2)
    };
    small.set_inode(2, &open)?;
    let wanted = Sattr {
        mode: Some(0o750),
        uid: Some(7),
        gid: Some(7),
        mtime: Some(5),
        ..NOTHING
    };
    let made = small.mkdir(ROOT, b"new", &wanted, 100)?;
    assert!(rt; is_made(&made) && sectors_put(&made) == [40, 3, 4, 2, 0]);
    small.run(&made)?;
    let new = small.inode(9);
    assert!(rt; is_new(&new, 40) && new.mode == 0o040_750 && new.uid == 100 && new.gid == 100);
    let slots = small.store.sector(4);
    assert!(rt; slots[48] == 9 && slots[50] == b'n' && slots[53] == 0);
    assert!(rt; small.store.sector(40) == dots() && has_one_more(&small.inode(2), 64));
    Ok(())
}

#[test]
fn a_directory_in_a_full_root_takes_two_blocks(rt: HostRuntime) -> Result<(), Fail> {
    let mut small = Small::full(rt.alloc(), 32)?;
    small.sets.blocks.give(41);
    let wanted = Sattr {
        uid: Some(7),
        gid: Some(8),
        ..NOTHING
    };
    let made = small.mkdir(ROOT, b"new", &wanted, 0)?;
    assert!(rt; is_made(&made) && small.sets.blocks.count() == 0);
    small.run(&made)?;
    let new = small.inode(9);
    let root = small.inode(2);
    let (own, longer) = (new.direct[0], root.direct[1]);
    assert!(rt; own.min(longer) == 40 && own.max(longer) == 41);
    assert!(rt; sectors_put(&made) == [own, 3, longer, 2, 0]);
    assert!(rt; is_new(&new, own) && new.uid == 7 && new.gid == 8);
    assert!(rt; small.store.sector(own) == dots());
    let slots = small.store.sector(longer);
    assert!(rt; slots[0] == 9 && slots[2] == b'n' && slots[5] == 0 && slots[16] == 0);
    assert!(rt; has_one_more(&root, 528) && root.direct[0] == 4 && root.direct[2] == 0);
    Ok(())
}

#[test]
fn an_eleventh_sector_of_the_root_takes_a_block_of_addresses(rt: HostRuntime) -> Result<(), Fail> {
    let mut small = Small::full(rt.alloc(), 32)?;
    let used = small.store.sector(4);
    for sector in 20..29 {
        small.set(sector, &used)?;
    }
    let long = Inode {
        size: 5120,
        direct: [4, 20, 21, 22, 23, 24, 25, 26, 27, 28],
        ..small.inode(2)
    };
    small.set_inode(2, &long)?;
    small.sets.blocks.give(41);
    small.sets.blocks.give(42);
    let made = small.mkdir(ROOT, b"new", &NOTHING, 0)?;
    assert!(rt; is_made(&made) && small.sets.blocks.count() == 0);
    small.run(&made)?;
    let own = small.inode(9).direct[0];
    let root = small.inode(2);
    let addresses = small.store.sector(root.single);
    let longer = addresses[0] as u32;
    assert!(rt; sectors_put(&made) == [own, 3, longer, root.single, 2]);
    assert!(rt; small.store.sector(own) == dots() && small.store.sector(longer)[0] == 9);
    assert!(rt; addresses[1] == 0 && addresses[4] == 0 && has_one_more(&root, 5136));
    Ok(())
}
