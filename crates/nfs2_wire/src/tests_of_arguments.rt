//! The arguments of all procedures, as docs/FORMATS.md has them.

use super::*;
use byteorder::{BigEndian, ByteOrder};
use files_model::{Call, Cred, FileId, Gids, Name, NoMemory, Sattr};
use std::alloc::Global;
use std::test::Fail;
use xdr_rpc::{Data9, RpcCall};

// The handle of file 3, generation 1, on volume 0.
const FILE: [u32; 8] = [0x56374e32, 0, 3, 1, 0, 0, 0, 0];

fn call_of(alloc: Global, procedure: u32, words: &[u32]) -> Result<RpcCall, NoMemory> {
    let mut args = [0; 128];
    let (handle, after) = args.split_at_mut(32);
    BigEndian::write_u32_into(&FILE, handle);
    let written = &mut after[..4 * words.len().min(24)];
    BigEndian::write_u32_into(&words[..words.len().min(24)], written);
    let len = 32 + 4 * words.len().min(24);
    Ok(RpcCall {
        xid: 9,
        program: 100003,
        procedure,
        cred: Cred {
            uid: 100,
            gid: 100,
            gids: Gids::copy(&[]),
        },
        machine: Name::copy(b"c"),
        args: Data9::copy(alloc, &args[..len])?,
    })
}

fn number_of(call: &Call) -> u32 {
    match call {
        Call::Getattr { .. } => 1,
        Call::Setattr { .. } => 2,
        Call::Lookup { .. } => 4,
        Call::Readlink { .. } => 5,
        Call::Read { .. } => 6,
        Call::Write { .. } => 8,
        Call::Create { .. } => 9,
        Call::Remove { .. } => 10,
        Call::Rename { .. } => 11,
        Call::Link { .. } => 12,
        Call::Symlink { .. } => 13,
        Call::Mkdir { .. } => 14,
        Call::Rmdir { .. } => 15,
        Call::Readdir { .. } => 16,
        Call::Statfs { .. } => 17,
    }
}

// A procedure, and its arguments after the handle.
const ARGUMENTS: [(u32, &[u32]); 12] = [
    (2, &[0o600, 0, 0, 0, 0, 0, 0, 0]),
    (4, &[1, 0x61000000]),
    (6, &[0, 4, 0]),
    (8, &[0, 0, 0, 2, 0x58590000]),
    (9, &[1, 0x61000000, 0o600, 0, 0, 0, 0, 0, 0, 0]),
    (10, &[1, 0x61000000]),
    (
        11,
        &[
            1, 0x61000000, 0x56374e32, 0, 4, 1, 0, 0, 0, 0, 1, 0x62000000,
        ],
    ),
    (12, &[0x56374e32, 0, 4, 1, 0, 0, 0, 0, 1, 0x62000000]),
    (13, &[1, 0x61000000, 3, 0x2e2e2f00, 0, 0, 0, 0, 0, 0, 0, 0]),
    (14, &[1, 0x61000000, 0o700, 0, 0, 0, 0, 0, 0, 0]),
    (15, &[1, 0x61000000]),
    (16, &[20, 512]),
];

fn found(alloc: Global, procedure: u32, words: &[u32], volumes: u32) -> Result<u32, NoMemory> {
    let call = call_of(alloc, procedure, words)?;
    match read_arguments(alloc, &call, volumes)? {
        NfsCall::Call { volume: 0, call } => Ok(number_of(&call)),
        NfsCall::Call { .. } => Ok(100),
        NfsCall::Stale => Ok(101),
        NfsCall::Void => Ok(102),
        NfsCall::Garbage => Ok(103),
    }
}

#[test]
fn calls_whole_and_cut(rt: HostRuntime) -> Result<(), Fail> {
    for (procedure, words) in ARGUMENTS {
        let less = &words[..words.len().saturating_sub(1)];
        assert_eq!(rt; found(rt.alloc(), procedure, words, 1)?, procedure);
        assert_eq!(rt;
            found(rt.alloc(), procedure, words, 0)?,
            101,
            "{procedure} of no volume"
        );
        assert_eq!(rt;
            found(rt.alloc(), procedure, less, 0)?,
            103,
            "{procedure} cut"
        );
    }
    for procedure in [1, 5, 17] {
        assert_eq!(rt; found(rt.alloc(), procedure, &[], 1)?, procedure);
    }
    for procedure in [0, 3, 7, 18] {
        assert_eq!(rt;
            found(rt.alloc(), procedure, &[], 1)?,
            102,
            "procedure {procedure}"
        );
    }
    Ok(())
}

// A procedure, and arguments above a bound.
const TOO_LONG: [(u32, &[u32]); 3] = [
    (4, &[256]),
    (13, &[1, 0x61000000, 1025]),
    (8, &[0, 0, 0, 8193]),
];

#[test]
fn bounds_come_before_the_handle(rt: HostRuntime) -> Result<(), Fail> {
    for (procedure, words) in TOO_LONG {
        assert_eq!(rt;
            found(rt.alloc(), procedure, words, 0)?,
            103,
            "procedure {procedure}"
        );
    }
    Ok(())
}

// What a CREATE of "a" with these attributes sets.
fn set_by(alloc: Global, words: &[u32]) -> Result<Option<Sattr>, NoMemory> {
    let call = call_of(alloc, 9, words)?;
    match read_arguments(alloc, &call, 1)? {
        NfsCall::Call {
            call: Call::Create { set, .. },
            ..
        } => Ok(Some(set)),
        _ => Ok(None),
    }
}

#[test]
fn a_word_of_all_ones_is_not_set(rt: HostRuntime) -> Result<(), Fail> {
    let words = [
        1, 0x61000000, 0o644, 0xffffffff, 10, 0xffffffff, 0xffffffff, 0, 1000, 0xffffffff,
    ];
    let expected = Sattr {
        mode: Some(0o644),
        uid: None,
        gid: Some(10),
        size: None,
        atime: None,
        mtime: Some(1000),
    };
    assert_eq!(rt; set_by(rt.alloc(), &words)?, Some(expected));
    Ok(())
}

// The target of a RENAME whose second handle names file 4, generation 9, of this volume.
fn renamed_to(alloc: Global, volume: u32) -> Result<Option<FileId>, NoMemory> {
    let words = [
        1, 0x61000000, 0x56374e32, volume, 4, 9, 0, 0, 0, 0, 1, 0x62000000,
    ];
    let call = call_of(alloc, 11, &words)?;
    match read_arguments(alloc, &call, 2)? {
        NfsCall::Call {
            volume: 0,
            call: Call::Rename { to, .. },
        } => Ok(Some(to)),
        _ => Ok(None),
    }
}

#[test]
fn the_first_handle_chooses_the_volume(rt: HostRuntime) -> Result<(), Fail> {
    let to = renamed_to(rt.alloc(), 0)?.ok_or("no RENAME")?;
    assert_eq!(rt; (to.ino, to.generation), (4, 9));
    let to = renamed_to(rt.alloc(), 1)?.ok_or("no RENAME")?;
    assert_eq!(rt; (to.ino, to.generation), (0, 0));
    Ok(())
}
