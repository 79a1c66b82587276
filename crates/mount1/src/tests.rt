//! A session, and the bytes of its replies as docs/FORMATS.md has them.
ghost use Rattle.std.specs.Prelude.{◌≡◌};

use super::*;
use byteorder::{BigEndian, ByteOrder};
use files_model::{Cred, FileId, Gids, Name, NoMemory};
use std::alloc::Global;
use std::test::Fail;
use xdr_rpc::{Data9, ReplyBytes, RpcCall};

// The roots of two volumes.
const ROOTS: [FileId; 2] = [
    FileId {
        ino: 2,
        generation: 1,
    },
    FileId {
        ino: 2,
        generation: 7,
    },
];

const VOL0: &[u32] = &[5, 0x2f766f6c, 0x30000000];

const VOL1: &[u32] = &[5, 0x2f766f6c, 0x31000000];

const VOL2: &[u32] = &[5, 0x2f766f6c, 0x32000000];

const VOL4: &[u32] = &[5, 0x2f766f6c, 0x34000000];

fn call_of(alloc: Global, procedure: u32, machine: u8, words: &[u32]) -> Result<RpcCall, NoMemory> {
    let mut args = [0; 128];
    let written = &mut args[..4 * words.len().min(32)];
    BigEndian::write_u32_into(&words[..words.len().min(32)], written);
    Ok(RpcCall {
        xid: 9,
        program: 100005,
        procedure,
        cred: Cred {
            uid: 100,
            gid: 100,
            gids: Gids::copy(&[]),
        },
        machine: Name::copy(&[machine]),
        args: Data9::copy(alloc, written)?,
    })
}

fn asked(
    alloc: Global,
    mounts: &mut Mounts,
    procedure: u32,
    machine: u8,
    words: &[u32],
) -> Result<ReplyBytes, NoMemory>
    requires { mounts.old.volumes ≡ 2 }
    ensures { mounts.new.volumes ≡ 2 }
{
    let call = call_of(alloc, procedure, machine, words)?;
    mounts.answer(alloc, &call, &ROOTS)
}

fn words_are(reply: &ReplyBytes, words: &[u32]) -> bool {
    let mut bytes = [0; 256];
    let written = &mut bytes[..4 * words.len().min(64)];
    BigEndian::write_u32_into(&words[..words.len().min(64)], written);
    reply.bytes() == &*written
}

const DONE: &[u32] = &[9, 1, 0, 0, 0, 0];

const GARBAGE: &[u32] = &[9, 1, 0, 0, 0, 4];

const NO_PATH: &[u32] = &[9, 1, 0, 0, 0, 0, 2];

const ROOT0: &[u32] = &[9, 1, 0, 0, 0, 0, 0, 0x56374e32, 0, 2, 1, 0, 0, 0, 0];

const ROOT1: &[u32] = &[9, 1, 0, 0, 0, 0, 0, 0x56374e32, 1, 2, 7, 0, 0, 0, 0];

const EMPTY: &[u32] = &[9, 1, 0, 0, 0, 0, 0];

const EXPORTS: &[u32] = &[
    9, 1, 0, 0, 0, 0, 1, 5, 0x2f766f6c, 0x30000000, 0, 1, 5, 0x2f766f6c, 0x31000000, 0, 0,
];

// Rows of machine "c" on both volumes, and of machine "d" on the first.
const THREE: &[u32] = &[
    9, 1, 0, 0, 0, 0, 1, 1, 0x63000000, 5, 0x2f766f6c, 0x30000000, 1, 1, 0x63000000, 5, 0x2f766f6c,
    0x31000000, 1, 1, 0x64000000, 5, 0x2f766f6c, 0x30000000, 0,
];

const TWO: &[u32] = &[
    9, 1, 0, 0, 0, 0, 1, 1, 0x63000000, 5, 0x2f766f6c, 0x31000000, 1, 1, 0x64000000, 5, 0x2f766f6c,
    0x30000000, 0,
];

const ONE: &[u32] = &[
    9, 1, 0, 0, 0, 0, 1, 1, 0x64000000, 5, 0x2f766f6c, 0x30000000, 0,
];

// A procedure, the machine that calls it, its arguments, and the reply.
const SESSION: [(u32, u8, &[u32], &[u32]); 18] = [
    (5, 99, &[], EXPORTS),
    (2, 99, &[], EMPTY),
    (1, 99, VOL0, ROOT0),
    (1, 99, VOL1, ROOT1),
    (1, 99, VOL0, ROOT0),
    (1, 100, VOL0, ROOT0),
    (1, 99, VOL2, NO_PATH),
    (1, 99, VOL4, NO_PATH),
    (1, 99, &[5, 0x2f766f6c], GARBAGE),
    (1, 99, &[1025], GARBAGE),
    (2, 100, &[], THREE),
    (3, 99, VOL0, DONE),
    (3, 99, VOL4, DONE),
    (3, 99, &[], GARBAGE),
    (2, 99, &[], TWO),
    (4, 99, &[], DONE),
    (2, 99, &[], ONE),
    (0, 99, &[], DONE),
];

#[test]
fn a_session_of_two_machines(rt: HostRuntime) -> Result<(), Fail> {
    let mut mounts = Mounts::new(rt.alloc(), 2)?;
    for (procedure, machine, args, expected) in SESSION {
        let reply = asked(rt.alloc(), &mut mounts, procedure, machine, args)?;
        assert!(rt;
            words_are(&reply, expected),
            "procedure {procedure} of {machine}"
        );
    }
    Ok(())
}

#[test]
fn a_full_list_still_mounts(rt: HostRuntime) -> Result<(), Fail> {
    let mut mounts = Mounts::new(rt.alloc(), 2)?;
    for machine in 0..65 {
        let reply = asked(rt.alloc(), &mut mounts, 1, machine, VOL0)?;
        assert!(rt; words_are(&reply, ROOT0));
    }
    let list = asked(rt.alloc(), &mut mounts, 2, 0, &[])?;
    assert_eq!(rt; list.bytes().len(), 24 + 64 * 24 + 4);
    Ok(())
}
