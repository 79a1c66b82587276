//! Who calls (RFC 1057 9.2).
ghost use Rattle.std.specs.Prelude.{◌≡◌, ◌≤◌};
ghost use Rattle.xdr_rpc.specs.Words.{Gives};
ghost use Rattle.xdr_rpc.specs.Calls.{id_of, ids, groups, auth_unix};

use crate::reading::{opaque_at, word_at};
use arrayvec::ArrayVec;
use files_model::{Cred, Gids, Name};

/// The longest body of a credential or verifier, in bytes (RFC 1057 8.2).
pub const LONGEST_BODY: u32 = 400;

/// The longest name of a machine, in bytes (RFC 1057 9.2).
const LONGEST_MACHINE: u32 = 255;

/// The most groups of a caller (RFC 1057 9.2).
const MOST_GROUPS: u32 = 16;

/// The user and group of nobody, who stands for each number that files can't keep.
pub const NOBODY: u16 = 65534;

/// A flavour and its body (RFC 1057 8.2, opaque_auth).
#[derive(Clone, Copy)]
pub struct Auth<'a> {
    pub flavour: u32,
    pub body: &'a [u8],
}

fn id_from(word: u32) -> u16
    ensures { result ≡ id_of word }
{
    if word > 65535 { NOBODY } else { word as u16 }
}

fn ids_from(bytes: &[u8], count: u32) -> Option<ArrayVec<u16, 16>>
    requires { count ≤ 16 }
    ensures { Gives (λ found. found.items) result (ids count bytes.now) }
{
    let mut found = ArrayVec::new();
    let mut rest = bytes;
    for _ in 0..count {
        let (word, after) = word_at(rest)?;
        found.push(id_from(word));
        rest = after;
    }
    Some(found)
}

#[tactic(auto, unfolding(crate::specs::Calls::groups))]
fn groups_from(bytes: &[u8]) -> Option<Gids>
    ensures { Gives (λ gids. gids) result (groups bytes.now) }
{
    let (count, rest) = word_at(bytes)?;
    if count > MOST_GROUPS {
        return None;
    }
    let found = ids_from(rest, count)?;
    Some(Gids::copy(found.as_slice()))
}

/// A caller and the name of its machine.
#[derive(Drop)]
pub struct Caller {
    pub cred: Cred,
    pub machine: Name,
}

/// The caller in the body of a credential of flavour 1, AUTH_UNIX. Bytes after its groups are passed over.
#[tactic(auto, unfolding(crate::specs::Calls::auth_unix))]
pub fn unix_caller(body: &[u8]) -> Option<Caller>
    ensures { Gives (λ caller. (caller.cred, caller.machine)) result (auth_unix body.now) }
{
    let (_stamp, rest) = word_at(body)?;
    let (machine, rest) = opaque_at(rest, LONGEST_MACHINE)?;
    let (uid, rest) = word_at(rest)?;
    let (gid, rest) = word_at(rest)?;
    let gids = groups_from(rest)?;
    let cred = Cred {
        uid: id_from(uid),
        gid: id_from(gid),
        gids,
    };
    Some(Caller {
        cred,
        machine: Name::copy(machine),
    })
}
