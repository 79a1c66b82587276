// What a repair makes of an inode and of a block of addresses.

ghost use Rattle.std.specs.Prelude.{◌≡◌, ◌<◌, ◌≤◌, ◌-◌, ◌*◌, ◌+◌, ◌^◌, All, length, if◌then◌else◌};
ghost use Rattle.v7_layout.specs.Numbers.{field};
ghost use Rattle.v7_layout.specs.Written.{AddressesFit};
ghost use Rattle.v7_mend.specs.Settled.{direct_below, free_inode, settled_inode, entry, holds_below, trimmed};

use byteorder::{ByteOrder, LittleEndian};
use v7_layout::Inode;
use v7_map::{clip, sectors_of};

/// How many sectors of a body have their address in the inode (filsys(5)).
pub const DIRECT: u32 = 10;

/// How many have a place at all, ten in the inode and 128 in its block of addresses.
pub const PLACES: u32 = 138;

// Ten addresses without those from sector `sectors` on.
#[tactic(auto, unfolding(crate::specs::Settled::direct_below))]
fn direct_within(direct: &[u32; 10], sectors: u32) -> [u32; 10]
    requires { All (λ address. address < 2 ^ 24) direct.now }
    ensures direct { result ≡ direct_below sectors direct.now }
    ensures fit { All (λ address. address < 2 ^ 24) result }
{
    let kept = sectors.min(DIRECT) as usize;
    let none = [0; 10];
    let mut direct = *direct;
    direct[kept..].copy_from_slice(&none[kept..]);
    direct
}

// The address of a block of addresses, if that stays.
fn single_within(single: u32, stays: bool) -> u32
    requires { single < 2 ^ 24 }
    ensures single { result ≡ if stays then single else 0 }
    ensures fits { result < 2 ^ 24 }
{
    if stays { single } else { 0 }
}

// The free inode of this generation.
#[tactic(auto, unfolding(crate::specs::Settled::free_inode))]
fn freed(generation: u32) -> Inode
    ensures inode { result ≡ free_inode generation }
    ensures fits { AddressesFit result }
{
    Inode {
        mode: 0,
        nlink: 0,
        uid: 0,
        gid: 0,
        size: 0,
        direct: [0; 10],
        single: 0,
        double: 0,
        generation,
        atime: 0,
        mtime: 0,
        ctime: 0,
    }
}

/// The inode after a repair, where so many slots name it and its block of addresses stays or doesn't.
#[tactic(auto, unfolding(crate::specs::Settled::settled_inode))]
pub fn settled(inode: &Inode, links: u16, stays: bool) -> Inode
    requires { AddressesFit inode.now }
    ensures inode { result ≡ settled_inode inode.now links stays }
    ensures fits { AddressesFit result }
{
    if inode.mode == 0 {
        return *inode;
    }
    if links == 0 {
        return freed(inode.generation);
    }
    Inode {
        nlink: links,
        direct: direct_within(&inode.direct, sectors_of(inode.size)),
        single: single_within(inode.single, stays),
        ..*inode
    }
}

// The address of four bytes at a place of a block.
fn address_at(block: &[u8], at: usize) -> u32
    requires { at + 4 ≤ length block.now }
    ensures { result ≡ field block.now at 4 }
{
    LittleEndian::read_u32(&block[at..])
}

// The address of sector `index` of a body in its block of addresses.
#[tactic(auto, unfolding(crate::specs::Settled::entry))]
fn address_of(block: &[u8; 512], index: u32) -> u32
    requires low { 10 ≤ index }
    requires high { index < 138 }
    ensures { result ≡ entry block.now index }
{
    address_at(block, 4 * (index - DIRECT) as usize)
}

/// Whether the block has an address of a body of so many sectors.
pub fn holds_address(block: &[u8; 512], sectors: u32) -> bool
    ensures { result ≡ holds_below block.now sectors }
{
    for index in DIRECT..PLACES {
        if index < sectors && address_of(block, index) != 0 {
            return true;
        }
    }
    false
}

/// The block of addresses without those of sectors that a body of so many hasn't.
#[tactic(auto, unfolding(crate::specs::Settled::trimmed))]
pub fn trim(block: &[u8; 512], sectors: u32) -> [u8; 512]
    requires { sectors ≤ 138 }
    ensures { result ≡ trimmed block.now sectors }
{
    let mut block = *block;
    clip(4 * sectors.saturating_sub(DIRECT), 0, &mut block);
    block
}
