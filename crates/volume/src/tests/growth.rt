//! Files that grow: batches of writes, gaps, full volumes, and writes that a device cuts off.

ghost use Rattle.v7_layout.specs.Written.{AddressesFit};
ghost use Rattle.volume.specs.Rests.{Rests};

use super::{FILE, opened, owner};
use crate::{Commit, Outcome, Volume};
use files_model::{Attr, Call, Data, Reply, Sattr, Stat, WriteItem};
use stable::Stable;
use std::alloc::Global;
use std::test::Fail;
use store_mem::Memory;
use v7_layout::{Inode, Record, Super};
use volume_mem::{FRESH, file, sectors_of};

// File 3 without any bytes.
fn empty() -> Inode
    ensures { AddressesFit result }
{
    Inode {
        size: 0,
        direct: [0; 10],
        ..file(FRESH)
    }
}

// File 3 of 700 bytes in two sectors.
fn partial() -> Inode
    ensures { AddressesFit result }
{
    Inode {
        size: 700,
        ..file(FRESH)
    }
}

// A store with a volume of so many sectors whose file is this one, its body all `a`; one of its puts may fail.
fn store(alloc: Global, file: &Inode, sectors: u32, failing: u64) -> Result<Memory, Fail>
    requires { AddressesFit file.now }
{
    let mut held = sectors_of(alloc, 0, file, &[[b'a'; 512]; 2])?;
    // a store asks that its sectors can be numbered
    held.truncate(64);
    let mut store = Memory::new(alloc, &held)?;
    if let Some(sector) = store.sectors.get_mut(1) {
        let super_block = Super {
            s_fsize: sectors,
            ..Super::read(sector)
        };
        super_block.write(sector);
    }
    store.failing = failing;
    Ok(store)
}

// One write by the owner.
fn item(alloc: Global, offset: u32, bytes: &[u8]) -> Result<WriteItem, Fail> {
    if bytes.len() > 8192 {
        return Err(Fail::new("too many bytes"));
    }
    Ok(WriteItem {
        cred: owner(),
        offset,
        bytes: Data::copy(alloc, bytes)?,
    })
}

// The same as a call at second 2000.
fn write(
    alloc: Global,
    volume: &mut Volume<Memory>,
    offset: u32,
    bytes: &[u8],
) -> Result<Outcome, Fail>
    requires { Rests ⟦<Memory as Stable>⟧ volume.old }
    ensures { Rests ⟦<Memory as Stable>⟧ volume.new }
{
    let WriteItem { cred, bytes, .. } = item(alloc, offset, bytes)?;
    let call = Call::Write {
        file: FILE,
        offset,
        bytes,
    };
    Ok(volume.apply(&call, &cred, 2000))
}

// The attributes of the file.
fn attributes(volume: &mut Volume<Memory>) -> Result<Attr, Fail>
    requires { Rests ⟦<Memory as Stable>⟧ volume.old }
    ensures { Rests ⟦<Memory as Stable>⟧ volume.new }
{
    match volume.apply(&Call::Getattr { file: FILE }, &owner(), 2001) {
        Outcome::Reply(Reply::Attr(attr)) => Ok(attr),
        _ => Err(Fail::new("no attributes")),
    }
}

// Whether a READ gives these bytes.
fn holds(volume: &mut Volume<Memory>, offset: u32, count: u32, want: &[u8]) -> bool
    requires { Rests ⟦<Memory as Stable>⟧ volume.old }
    ensures { Rests ⟦<Memory as Stable>⟧ volume.new }
{
    let read = Call::Read {
        file: FILE,
        offset,
        count,
    };
    match volume.apply(&read, &owner(), 2001) {
        Outcome::Reply(Reply::Data { attr: _, bytes }) => bytes.bytes() == want,
        _ => false,
    }
}

// How many blocks files take.
fn used(volume: &mut Volume<Memory>) -> Result<u32, Fail>
    requires { Rests ⟦<Memory as Stable>⟧ volume.old }
    ensures { Rests ⟦<Memory as Stable>⟧ volume.new }
{
    match volume.inspect() {
        Ok(seen) if seen.strong => Ok(seen.used),
        _ => Err(Fail::new("something to mend")),
    }
}

#[test]
fn each_touched_sector_is_put_once_and_then_the_inode(rt: HostRuntime) -> Result<(), Fail> {
    let alloc = rt.alloc();
    let (mut volume, _) = opened(alloc, store(alloc, &file(FRESH), 64, 0)?)?;
    let none = write(alloc, &mut volume, 3, b"")?;
    assert!(rt;
        matches!(none, Outcome::Reply(Reply::Attr(attr)) if attr.size == 1024 && attr.mtime == 2000 && attr.ctime == 2000)
    );
    let one = write(alloc, &mut volume, 511, b"X")?;
    assert!(rt; matches!(one, Outcome::Reply(Reply::Attr(attr)) if attr.size == 1024));
    let two = write(alloc, &mut volume, 511, b"XY")?;
    assert!(rt; matches!(two, Outcome::Reply(Reply::Attr(attr)) if attr.size == 1024));
    let store = volume.into_store();
    assert!(rt; store.puts == 7 && store.order == [1, 2, 5, 2, 5, 6, 2, 0]);
    Ok(())
}

#[test]
fn a_gap_reads_as_zeros_whatever_stood_past_the_size(rt: HostRuntime) -> Result<(), Fail> {
    let alloc = rt.alloc();
    let (mut volume, _) = opened(alloc, store(alloc, &partial(), 64, 0)?)?;
    let grown = write(alloc, &mut volume, 1500, b"X")?;
    assert!(rt; matches!(grown, Outcome::Reply(Reply::Attr(attr)) if attr.size == 1501));
    let mut want = [0; 801];
    want[800] = b'X';
    assert!(rt; holds(&mut volume, 700, 2000, &want));
    assert!(rt; holds(&mut volume, 696, 6, b"aaaa\0\0"));
    assert!(rt; used(&mut volume)? == 4);
    let store = volume.into_store();
    assert!(rt; store.puts == 4 && store.order.starts_with(&[1, 6, 7, 2]));
    Ok(())
}

#[test]
fn a_batch_is_one_plan(rt: HostRuntime) -> Result<(), Fail> {
    let alloc = rt.alloc();
    let (mut volume, _) = opened(alloc, store(alloc, &empty(), 64, 0)?)?;
    let batch = [
        item(alloc, 0, &[b'x'; 8192])?,
        item(alloc, 4096, &[b'y'; 8192])?,
        item(alloc, 0, b"z")?,
    ];
    let Commit::Replies(replies) = volume.commit(FILE, &batch, 2000) else {
        panic!(rt; "no replies");
    };
    let replies = replies.as_slice();
    assert!(rt; replies.len() == 3);
    for (reply, size) in replies.iter().zip([8192, 12288, 12288]) {
        assert!(rt;
            matches!(reply, Reply::Attr(attr) if attr.size == size && attr.mtime == 2000 && attr.ctime == 2000)
        );
    }
    assert!(rt; holds(&mut volume, 0, 3, b"zxx"));
    assert!(rt; holds(&mut volume, 4094, 4, b"xxyy"));
    assert!(rt; used(&mut volume)? == 26);
    let store = volume.into_store();
    assert!(rt; store.puts == 27 && store.order == [1, 5, 6, 7, 8, 9, 10, 11]);
    Ok(())
}

#[test]
fn the_greatest_file_ends_at_70656(rt: HostRuntime) -> Result<(), Fail> {
    let alloc = rt.alloc();
    let (mut volume, _) = opened(alloc, store(alloc, &empty(), 64, 0)?)?;
    assert!(rt; used(&mut volume)? == 1);
    let past = write(alloc, &mut volume, 70_656, b"X")?;
    assert!(rt; matches!(past, Outcome::Reply(Reply::Refused(Stat::Fbig))));
    assert!(rt; attributes(&mut volume)?.size == 0);
    let last = write(alloc, &mut volume, 70_655, b"X")?;
    assert!(rt; matches!(last, Outcome::Reply(Reply::Attr(attr)) if attr.size == 70_656));
    assert!(rt; used(&mut volume)? == 3);
    assert!(rt; holds(&mut volume, 70_653, 9, b"\0\0X"));
    Ok(())
}

#[test]
fn a_write_takes_the_last_free_blocks_and_not_one_more(rt: HostRuntime) -> Result<(), Fail> {
    let alloc = rt.alloc();
    // 16 sectors of data and a block of addresses, from 5 on
    let (mut volume, _) = opened(alloc, store(alloc, &empty(), 22, 0)?)?;
    let whole = write(alloc, &mut volume, 0, &[b'x'; 8192])?;
    assert!(rt; matches!(whole, Outcome::Reply(Reply::Attr(attr)) if attr.size == 8192));
    assert!(rt; used(&mut volume)? == 18);
    let full = write(alloc, &mut volume, 8192, b"X")?;
    assert!(rt; matches!(full, Outcome::Reply(Reply::Refused(Stat::Nospc))));

    let (mut volume, _) = opened(alloc, store(alloc, &empty(), 21, 0)?)?;
    let none = write(alloc, &mut volume, 0, &[b'x'; 8192])?;
    assert!(rt; matches!(none, Outcome::Reply(Reply::Refused(Stat::Nospc))));
    let attr = attributes(&mut volume)?;
    assert!(rt; attr.size == 0 && attr.mtime == 1000 && used(&mut volume)? == 1);
    assert!(rt; volume.into_store().puts == 1);
    Ok(())
}

#[test]
fn a_growing_write_that_failed_is_old_when_it_is_opened_again(rt: HostRuntime) -> Result<(), Fail> {
    let alloc = rt.alloc();
    // the put of the old last sector, of the new one, and of the inode, after that of the super-block
    for failing in [2, 3, 4] {
        let (mut volume, _) = opened(alloc, store(alloc, &partial(), 64, failing)?)?;
        let grown = write(alloc, &mut volume, 1500, b"X")?;
        assert!(rt; matches!(grown, Outcome::Io));
        let store = volume.into_store();
        assert!(rt; store.puts == failing);
        let (mut volume, _) = opened(alloc, store)?;
        let attr = attributes(&mut volume)?;
        assert!(rt; attr.size == 700 && attr.mtime == 1000);
        assert!(rt; holds(&mut volume, 698, 4, b"aa"));
        assert!(rt; used(&mut volume)? == 3);
    }
    Ok(())
}

// A SETATTR of the size, by the owner.
fn resize(volume: &mut Volume<Memory>, size: u32) -> Outcome
    requires { Rests ⟦<Memory as Stable>⟧ volume.old }
    ensures { Rests ⟦<Memory as Stable>⟧ volume.new }
{
    let call = Call::Setattr {
        file: FILE,
        set: Sattr {
            mode: None,
            uid: None,
            gid: None,
            size: Some(size),
            atime: None,
            mtime: None,
        },
    };
    volume.apply(&call, &owner(), 2002)
}

#[test]
fn what_a_smaller_size_cuts_off_comes_back_as_zeros(rt: HostRuntime) -> Result<(), Fail> {
    let alloc = rt.alloc();
    let (mut volume, _) = opened(alloc, store(alloc, &empty(), 64, 0)?)?;
    let grown = write(alloc, &mut volume, 57_344, &[b'x'; 8192])?;
    assert!(rt; matches!(grown, Outcome::Reply(Reply::Attr(attr)) if attr.size == 65_536));
    assert!(rt; used(&mut volume)? == 18);
    let cut = resize(&mut volume, 65_000);
    assert!(rt;
        matches!(cut, Outcome::Reply(Reply::Attr(attr)) if attr.size == 65_000 && attr.mtime == 2002)
    );
    assert!(rt; used(&mut volume)? == 17);
    assert!(rt; holds(&mut volume, 57_344, 8192, &[b'x'; 7656]));
    let back = resize(&mut volume, 65_536);
    assert!(rt; matches!(back, Outcome::Reply(Reply::Attr(attr)) if attr.size == 65_536));
    assert!(rt; holds(&mut volume, 65_000, 8192, &[0; 536]));
    assert!(rt; used(&mut volume)? == 17);
    Ok(())
}
