//! RENAMEs planned whole on a small volume: the root has directory 3 `x` in sector 5 and directory 4 `y` in sector 6; file 5 is `a` in the one, and file 6
//! is `b` in the other.

mod growing;
mod refused;
mod standing;

ghost use Rattle.v7_layout.specs.Written.{AddressesFit};

use super::plan_rename;
use files_model::{Cred, FileId, Gids, Name, Reply};
use plan_name::Planned;
use stable::Stable;
use std::alloc::Global;
use std::test::Fail;
use store_mem::Memory;
use v7_layout::Inode;
use v7_read::inode_in;
use v7_sets::Sets;
use v7_strokes::{empty_slot, slot_of, with_inode, with_slot};
use volume_mem::{FRESH, ROOT, Shape, file, test_volume};

// The directory whose slots stand in sector 5.
const FIRST: Inode = Inode {
    direct: [5, 0, 0, 0, 0, 0, 0, 0, 0, 0],
    ..ROOT
};

// The one whose slots stand in sector 6.
const SECOND: Inode = Inode {
    direct: [6, 0, 0, 0, 0, 0, 0, 0, 0, 0],
    ..ROOT
};

// A volume with what is free on it: block 40.
#[derive(Drop)]
struct Tree {
    alloc: Global,
    store: Memory,
    sets: Sets,
}

impl Tree {
    fn new(alloc: Global, shape: Shape) -> Result<Tree, Fail> {
        let mut sectors = test_volume(alloc, shape)?;
        sectors.truncate(64);
        let store = Memory::new(alloc, sectors.as_slice())?;
        let mut sets = Sets::new(alloc, 64, 17)?;
        sets.blocks.give(40);
        let mut tree = Tree { alloc, store, sets };
        tree.add_directories()?;
        tree.add_files()?;
        Ok(tree)
    }

    fn add_directories(&mut self) -> Result<(), Fail> {
        let root = Inode {
            nlink: 4,
            size: 64,
            ..ROOT
        };
        self.set_inode(2, &root)?;
        let names = with_slot(&self.store.sector(4), 2, &slot_of(3, b"x"));
        let names = with_slot(&names, 3, &slot_of(4, b"y"));
        self.set(4, &names)?;
        self.set_inode(3, &FIRST)?;
        self.set_inode(4, &SECOND)?;
        let dots = with_slot(&[0; 512], 1, &slot_of(2, b".."));
        let first = with_slot(&dots, 0, &slot_of(3, b"."));
        self.set(5, &with_slot(&first, 2, &slot_of(5, b"a")))?;
        let second = with_slot(&dots, 0, &slot_of(4, b"."));
        self.set(6, &with_slot(&second, 2, &slot_of(6, b"b")))
    }

    // File 5 has no block, and file 6 has blocks 9 and 10.
    fn add_files(&mut self) -> Result<(), Fail> {
        let empty = Inode {
            size: 0,
            direct: [0, 0, 0, 0, 0, 0, 0, 0, 0, 0],
            ..file(FRESH)
        };
        self.set_inode(5, &empty)?;
        let long = Inode {
            direct: [9, 10, 0, 0, 0, 0, 0, 0, 0, 0],
            ..file(FRESH)
        };
        self.set_inode(6, &long)
    }

    // The inode of a number below 9.
    fn inode(&self, ino: u32) -> Inode
        ensures { AddressesFit result }
    {
        inode_in(&self.store.sector(2), ino)
    }

    // Puts another inode of a number below 9.
    fn set_inode(&mut self, ino: u32, inode: &Inode) -> Result<(), Fail>
        requires { AddressesFit inode.now }
    {
        let bytes = with_inode(&self.store.sector(2), ino, inode);
        self.set(2, &bytes)
    }

    // Gives an inode so many links.
    fn set_links(&mut self, ino: u32, nlink: u16) -> Result<(), Fail> {
        let inode = Inode {
            nlink,
            ..self.inode(ino)
        };
        self.set_inode(ino, &inode)
    }

    // Gives an inode this mode.
    fn set_mode(&mut self, ino: u32, mode: u16) -> Result<(), Fail> {
        let inode = Inode {
            mode,
            ..self.inode(ino)
        };
        self.set_inode(ino, &inode)
    }

    // The directory of this number, whose first slots stand in this sector, has so many of them, and the new ones name file 6.
    fn fill(&mut self, ino: u32, sector: u32, slots: u32) -> Result<(), Fail> {
        let mut bytes = self.store.sector(sector);
        for index in 3..32 {
            if index < slots {
                bytes = with_slot(&bytes, index, &slot_of(6, b"used"));
            }
        }
        self.set(sector, &bytes)?;
        let longer = Inode {
            size: slots.saturating_mul(16),
            ..self.inode(ino)
        };
        self.set_inode(ino, &longer)
    }

    fn set(&mut self, sector: u32, bytes: &[u8; 512]) -> Result<(), Fail> {
        if sector >= self.store.sectors() {
            return Err("past the store".into());
        }
        self.store.put(sector, bytes)?;
        Ok(())
    }

    // Puts the plan.
    fn run(&mut self, planned: &Planned) -> Result<(), Fail> {
        for put in planned.plan.puts() {
            self.set(put.0, &put.1)?;
        }
        Ok(())
    }

    // A RENAME by the user of this number, at second 2000; the directories are of generation 1.
    fn rename(
        &mut self,
        from: u32,
        name: &[u8],
        to: u32,
        new_name: &[u8],
        uid: u16,
    ) -> Result<Planned, Fail> {
        let cred = Cred {
            uid,
            gid: uid,
            gids: Gids::copy(&[]),
        };
        let planned = plan_rename(
            self.alloc,
            &mut self.store,
            &mut self.sets,
            handle(from),
            &named(name),
            handle(to),
            &named(new_name),
            &cred,
            2000,
        );
        Ok(planned.map_err(|_| "not planned")?)
    }
}

fn handle(ino: u32) -> FileId {
    FileId { ino, generation: 1 }
}

fn named(bytes: &[u8]) -> Name {
    if bytes.len() > 255 {
        return Name::copy(b"too long");
    }
    Name::copy(bytes)
}

// The call is done, and frees no block and no i-number.
fn is_done(planned: &Planned) -> bool {
    let nothing = planned.freed.blocks.len() == 0 && planned.freed.inode.is_none();
    nothing && matches!(planned.reply, Reply::Done)
}

// The sectors of up to five puts, in their order.
fn sectors_put(planned: &Planned) -> [u32; 5] {
    let mut sectors = [0; 5];
    let mut count = 0;
    for put in planned.plan.puts() {
        if count < 5 {
            sectors[count] = put.0;
            count += 1;
        }
    }
    sectors
}

// The i-number and the first byte of the name in a slot of a directory's sector.
fn slot(bytes: &[u8; 512], index: usize) -> [u8; 2] {
    if index >= 32 {
        return [0; 2];
    }
    [bytes[16 * index], bytes[16 * index + 2]]
}

// When an inode was read, written and changed.
fn times(inode: &Inode) -> [u32; 3] {
    [inode.atime, inode.mtime, inode.ctime]
}

// A directory of so many bytes has its times, and the links of one with no directory in it.
fn is_timed(directory: &Inode, size: u32) -> bool {
    directory.nlink == 2 && directory.size == size && times(directory) == [1000, 2000, 2000]
}

// File 5 has one name and its old times.
fn is_left(moved: &Inode) -> bool {
    moved.mode == 0o100_644
        && moved.nlink == 1
        && moved.generation == 1
        && times(moved) == [1000, 1000, 1000]
}

#[test]
fn a_name_moves_to_an_empty_slot(rt: HostRuntime) -> Result<(), Fail> {
    let mut tree = Tree::new(rt.alloc(), FRESH)?;
    tree.fill(4, 6, 5)?;
    let emptied = with_slot(&tree.store.sector(6), 3, &empty_slot());
    tree.set(6, &emptied)?;
    let moved = tree.rename(3, b"a", 4, b"c", 0)?;
    assert!(rt; is_done(&moved) && sectors_put(&moved) == [6, 5, 2, 0, 0]);
    tree.run(&moved)?;
    let new = tree.store.sector(6);
    assert!(rt; slot(&new, 2) == [6, b'b'] && slot(&new, 3) == [5, b'c']);
    assert!(rt; slot(&new, 4) == [6, b'u'] && slot(&tree.store.sector(5), 2) == [0, 0]);
    assert!(rt; is_timed(&tree.inode(3), 48) && is_timed(&tree.inode(4), 80));
    assert!(rt; is_left(&tree.inode(5)) && tree.sets.blocks.count() == 1);
    Ok(())
}

#[test]
fn a_name_changes_in_its_slot(rt: HostRuntime) -> Result<(), Fail> {
    let mut tree = Tree::new(rt.alloc(), FRESH)?;
    let named = tree.rename(3, b"a", 3, b"c", 0)?;
    assert!(rt; is_done(&named) && sectors_put(&named) == [5, 2, 0, 0, 0]);
    tree.run(&named)?;
    assert!(rt; slot(&tree.store.sector(5), 2) == [5, b'c']);
    assert!(rt; is_timed(&tree.inode(3), 48) && is_left(&tree.inode(5)));
    assert!(rt; times(&tree.inode(4)) == [1000, 1000, 1000]);
    Ok(())
}

#[test]
fn a_directory_gets_another_name_in_its_parent(rt: HostRuntime) -> Result<(), Fail> {
    let mut tree = Tree::new(rt.alloc(), FRESH)?;
    let named = tree.rename(2, b"x", 2, b"z", 0)?;
    assert!(rt; is_done(&named) && sectors_put(&named) == [4, 2, 0, 0, 0]);
    tree.run(&named)?;
    let names = tree.store.sector(4);
    assert!(rt; slot(&names, 2) == [3, b'z'] && slot(&names, 3) == [4, b'y']);
    let root = tree.inode(2);
    assert!(rt; root.nlink == 4 && root.size == 64 && times(&root) == [1000, 2000, 2000]);
    assert!(rt; times(&tree.inode(3)) == [1000, 1000, 1000]);
    Ok(())
}
