//! The tests that decide what a datagram is, one after the other.
ghost use Rattle.std.specs.Prelude.{◌≡◌, ◌≤◌, length, IfOk};
ghost use Rattle.xdr_rpc.specs.Tests.{Finds};
ghost use Rattle.xdr_rpc.specs.Order.{call_start, after_version, asked, auth, refused, nobody, caller};

use crate::credential::{Auth, Caller, LONGEST_BODY, NOBODY, unix_caller};
use crate::reading::{padded_at, word_at};
use crate::refusal::Cause;
use files_model::{Cred, Gids, Name};

/// What a test decides: that a datagram isn't answered, or by what it is.
#[derive(Clone, Copy)]
pub enum Unserved {
    NoReply,
    Refused { xid: u32, cause: Cause },
}

/// What a call asks for (RFC 1057 8, call_body).
#[derive(Clone, Copy)]
pub struct Asked {
    pub program: u32,
    pub version: u32,
    pub procedure: u32,
}

/// The transaction number of a call, and the bytes after its first two words.
#[tactic(auto, unfolding(crate::specs::Order::call_start))]
pub fn call_start_at(bytes: &[u8]) -> Result<(u32, &[u8]), Unserved>
    ensures value { Finds (λ x. (x.0, x.1.now)) result (call_start bytes.now) }
    ensures shorter { IfOk result (λ x. length x.1.now ≤ length bytes.now) }
{
    let (xid, rest) = word_at(bytes).ok_or(Unserved::NoReply)?;
    let (kind, rest) = word_at(rest).ok_or(Unserved::NoReply)?;
    if kind != 0 {
        return Err(Unserved::NoReply);
    }
    Ok((xid, rest))
}

/// The bytes after the RPC version, which is 2.
#[tactic(auto, unfolding(crate::specs::Order::after_version))]
pub fn after_version_at(xid: u32, bytes: &[u8]) -> Result<&[u8], Unserved>
    ensures value { Finds (λ x. x.now) result (after_version xid bytes.now) }
    ensures shorter { IfOk result (λ x. length x.now ≤ length bytes.now) }
{
    let (version, rest) = word_at(bytes).ok_or(Unserved::NoReply)?;
    if version != 2 {
        let cause = Cause::RpcMismatch;
        return Err(Unserved::Refused { xid, cause });
    }
    Ok(rest)
}

/// What a call asks for, and the bytes after that.
#[tactic(auto, unfolding(crate::specs::Order::asked))]
pub fn asked_at(bytes: &[u8]) -> Result<(Asked, &[u8]), Unserved>
    ensures value { Finds (λ x. (x.0, x.1.now)) result (asked bytes.now) }
    ensures shorter { IfOk result (λ x. length x.1.now ≤ length bytes.now) }
{
    let (program, rest) = word_at(bytes).ok_or(Unserved::NoReply)?;
    let (version, rest) = word_at(rest).ok_or(Unserved::NoReply)?;
    let (procedure, rest) = word_at(rest).ok_or(Unserved::NoReply)?;
    let asked = Asked {
        program,
        version,
        procedure,
    };
    Ok((asked, rest))
}

/// A flavour and a body of at most 400 bytes, and the bytes after its padding. A longer one is refused for that cause.
#[tactic(auto, unfolding(crate::specs::Order::auth))]
pub fn auth_in_order(xid: u32, too_long: Cause, bytes: &[u8]) -> Result<(Auth<'_>, &[u8]), Unserved>
    ensures value { Finds (λ x. ((x.0.flavour, x.0.body.now), x.1.now)) result (auth xid too_long bytes.now) }
    ensures shorter { IfOk result (λ x. length x.1.now ≤ length bytes.now) }
{
    let (flavour, rest) = word_at(bytes).ok_or(Unserved::NoReply)?;
    let (size, rest) = word_at(rest).ok_or(Unserved::NoReply)?;
    if size > LONGEST_BODY {
        let cause = too_long;
        return Err(Unserved::Refused { xid, cause });
    }
    let (body, rest) = padded_at(rest, size as usize).ok_or(Unserved::NoReply)?;
    Ok((Auth { flavour, body }, rest))
}

/// Whether what is asked is refused, or answered without a result.
pub fn refused_for(asked: &Asked) -> Option<Cause>
    ensures { result ≡ refused asked.now }
{
    let (version, last) = match asked.program {
        100003 => (2, 17),
        100005 => (1, 5),
        0x20001094 => (1, 6),
        _ => return Some(Cause::NoProgram),
    };
    if asked.version != version {
        return Some(Cause::NoVersion(version));
    }
    if asked.procedure > last {
        return Some(Cause::NoProcedure);
    }
    if asked.procedure == 0 {
        return Some(Cause::Done);
    }
    None
}

fn nobody_calls() -> Caller
    ensures { (result.cred, result.machine) ≡ nobody }
{
    let cred = Cred {
        uid: NOBODY,
        gid: NOBODY,
        gids: Gids::copy(&[]),
    };
    Caller {
        cred,
        machine: Name::copy(&[]),
    }
}

/// The caller, by flavour and body.
#[tactic(auto, unfolding(crate::specs::Order::caller))]
pub fn caller_in_order(xid: u32, flavour: u32, body: &[u8]) -> Result<Caller, Unserved>
    ensures { Finds (λ who. (who.cred, who.machine)) result (caller xid flavour body.now) }
{
    match flavour {
        0 => Ok(nobody_calls()),
        1 => {
            let cause = Cause::BadCredential;
            unix_caller(body).ok_or(Unserved::Refused { xid, cause })
        }
        _ => {
            let cause = Cause::RejectedCredential;
            Err(Unserved::Refused { xid, cause })
        }
    }
}
