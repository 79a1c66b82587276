// A small volume, and who calls on it.

ghost use Rattle.v7_layout.specs.Written.{AddressesFit};

use files_model::{Cred, FileId, Gids, Sattr};
use stable::{Plan, Stable};
use std::alloc::Global;
use std::test::Fail;
use store_mem::Memory;
use v7_layout::Inode;
use v7_read::inode_in;
use v7_sets::Sets;
use v7_strokes::{slot_of, with_inode, with_slot};
use volume_mem::{Shape, test_volume};

/// The handle of the root.
pub const ROOT_ID: FileId = FileId {
    ino: 2,
    generation: 1,
};

/// Attributes of which none is set.
pub const NOTHING: Sattr = Sattr {
    mode: None,
    uid: None,
    gid: None,
    size: None,
    atime: None,
    mtime: None,
};

/// The user and group of this number.
pub fn user(number: u16) -> Cred {
    Cred {
        uid: number,
        gid: number,
        gids: Gids::copy(&[]),
    }
}

/// The test volume in a store of 64 sectors, with what is free on it.
#[derive(Drop)]
pub struct Small {
    pub alloc: Global,
    pub store: Memory,
    pub sets: Sets,
}

impl Small {
    /// The test volume of this shape, with nothing free.
    pub fn new(alloc: Global, shape: Shape) -> Result<Small, Fail> {
        let mut sectors = test_volume(alloc, shape)?;
        // a store asks that its sectors can be numbered
        sectors.truncate(64);
        let store = Memory::new(alloc, sectors.as_slice())?;
        let sets = Sets::new(alloc, 64, 17)?;
        Ok(Small { alloc, store, sets })
    }

    /// The inode of a number below 9.
    pub fn inode(&self, ino: u32) -> Inode
        ensures { AddressesFit result }
    {
        inode_in(&self.store.sector(2), ino)
    }

    /// Puts another inode of a number below 9.
    pub fn set_inode(&mut self, ino: u32, inode: &Inode) -> Result<(), Fail>
        requires { AddressesFit inode.now }
    {
        let bytes = with_inode(&self.store.sector(2), ino, inode);
        self.set(2, &bytes)
    }

    /// Puts another sector.
    pub fn set(&mut self, sector: u32, bytes: &[u8; 512]) -> Result<(), Fail> {
        if sector >= self.store.sectors() {
            return Err("past the store".into());
        }
        self.store.put(sector, bytes)?;
        Ok(())
    }

    /// Gives the root so many slots, up to 32: `.`, `..`, `f`, the one of this number empty, and else names of the file.
    pub fn fill(&mut self, slots: u32, empty: u32) -> Result<(), Fail> {
        let mut bytes = self.store.sector(4);
        for index in 3..32 {
            if index < slots && index != empty {
                bytes = with_slot(&bytes, index, &slot_of(3, b"used"));
            }
        }
        self.set(4, &bytes)?;
        let root = Inode {
            size: slots.saturating_mul(16),
            ..self.inode(2)
        };
        self.set_inode(2, &root)
    }

    /// Puts a plan.
    pub fn put(&mut self, plan: &Plan) -> Result<(), Fail> {
        for put in plan.puts() {
            self.set(put.0, &put.1)?;
        }
        Ok(())
    }
}
