// The inodes of a volume, one after the other.

ghost use Rattle.std.specs.Prelude.{◌≡◌, ◌<◌, true, IfOk, OnOk};
ghost use Rattle.stable.specs.Counts.{HasCause};
ghost use Rattle.stable.specs.Looked.{Looked};
ghost use Rattle.v7_layout.specs.Numbers.{part};
ghost use Rattle.v7_layout.specs.Records.{inode_of};
ghost use Rattle.v7_map.specs.Image.{inode_sector, inode_offset, is_inode, inode_at};
ghost use Rattle.v7_damage.specs.Stored.{Keeps};

use stable::{Failed, Stable};
use v7_layout::Inode;
use v7_read::{empty_sector, get_sector, inode_in, inode_offset_of, inode_sector_of};

// The mode of the inode of this number, in the sector where it stands: its first two bytes, low byte first (filsys(5)).
fn mode_in(sector: &[u8; 512], ino: u32) -> u16
    ensures { result ≡ (inode_of (part sector.now (inode_offset ino) 64)).mode }
{
    let at = inode_offset_of(ino);
    let low = sector[at] as u16;
    let high = sector[at + 1] as u16;
    low + 256 * high
}

/// Reads inodes, and keeps the sector that it read last: inodes in rising number take one read for eight of them. Nothing may be put
/// between two of its reads.
#[derive(Clone, Copy)]
pub struct InodeReader {
    /// The sector, 0 before the first.
    sector: u32,
    bytes: [u8; 512],
}

impl InodeReader {
    /// A reader that has read nothing.
    pub fn new() -> Self
        ensures { result.sector ≡ 0 }
    {
        InodeReader {
            sector: 0,
            bytes: empty_sector(),
        }
    }

    // Reads the sector of the inode of this number, if it isn't kept.
    fn go_to<S: Stable>(&mut self, store: &mut S, ino: u32) -> Result<(), Failed>
        requires { inode_sector ino < S.sector_count store.old }
        ensures there { OnOk result (self.new.sector ≡ inode_sector ino) }
        ensures keeps { S.tells → Keeps (S.image store.old) self.old → Keeps (S.image store.old) self.new }
        ensures cause { HasCause (S.faults store.old) (S.faults store.new) result }
        ensures looked { Looked S.Stable store.old store.new }
    {
        let sector = inode_sector_of(ino);
        if self.sector == sector {
            return Ok(());
        }
        let bytes = get_sector(store, sector)?;
        *self = InodeReader { sector, bytes };
        Ok(())
    }

    /// Reads the inode of this number. Failed leaves the reader as it was.
    pub fn read<S: Stable>(&mut self, store: &mut S, ino: u32) -> Result<Inode, Failed>
        requires { inode_sector ino < S.sector_count store.old }
        ensures inode { S.tells → Keeps (S.image store.old) self.old → is_inode (S.image store.old) ino ≡ true → IfOk result (λ inode. inode ≡ inode_at (S.image store.old) ino) }
        ensures keeps { S.tells → Keeps (S.image store.old) self.old → Keeps (S.image store.old) self.new }
        ensures cause { HasCause (S.faults store.old) (S.faults store.new) result }
        ensures looked { Looked S.Stable store.old store.new }
    {
        self.go_to(store, ino)?;
        Ok(inode_in(&self.bytes, ino))
    }

    /// Reads the mode of the inode of this number alone, 0 of a free one. Failed leaves the reader as it was.
    pub fn mode<S: Stable>(&mut self, store: &mut S, ino: u32) -> Result<u16, Failed>
        requires { inode_sector ino < S.sector_count store.old }
        ensures mode { S.tells → Keeps (S.image store.old) self.old → is_inode (S.image store.old) ino ≡ true → IfOk result (λ mode. mode ≡ (inode_at (S.image store.old) ino).mode) }
        ensures keeps { S.tells → Keeps (S.image store.old) self.old → Keeps (S.image store.old) self.new }
        ensures cause { HasCause (S.faults store.old) (S.faults store.new) result }
        ensures looked { Looked S.Stable store.old store.new }
    {
        self.go_to(store, ino)?;
        Ok(mode_in(&self.bytes, ino))
    }
}
