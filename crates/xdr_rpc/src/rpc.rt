//! Reading a datagram by all tests of RPC.
ghost use Rattle.std.specs.Prelude.{◌≡◌, ℕ, ◌≤◌, length, IfOk, OnErr, IsOk};
ghost use Rattle.xdr_rpc.specs.Tests.{Finds};
ghost use Rattle.xdr_rpc.specs.Order.{call_of, read_as};
ghost use Rattle.xdr_rpc.specs.Sending.{CanBeServed, sent_as};
ghost use Rattle.xdr_rpc.specs.declared.call.RpcCall.{RpcCall};

use crate::call::{Data9, RpcCall};
use crate::credential::Caller;
use crate::refusal::{Cause, refusal_of};
use crate::short_reply::ShortReply;
use crate::tests_in_order::{
    Asked, Unserved, after_version_at, asked_at, auth_in_order, call_start_at, caller_in_order,
    refused_for,
};
use files_model::NoMemory;
use std::alloc::Global;

/// What a datagram is: a call, nothing that is answered, or what is answered by these bytes.
#[derive(Drop)]
pub enum RpcRead {
    Call(RpcCall),
    NoReply,
    Refuse(ShortReply),
}

#[derive(Drop)]
struct Parts<'a> {
    xid: u32,
    asked: Asked,
    caller: Caller,
    args: &'a [u8],
}

#[tactic(auto, unfolding(crate::specs::Order::call_of))]
fn parts_of(bytes: &[u8]) -> Result<Parts<'_>, Unserved>
    ensures value { Finds (λ p. record { xid = p.xid; program = p.asked.program; procedure = p.asked.procedure; cred = p.caller.cred; machine = p.caller.machine; args = p.args.now }) result (call_of bytes.now) }
    ensures shorter { IfOk result (λ p. length p.args.now ≤ length bytes.now) }
{
    let (xid, rest) = call_start_at(bytes)?;
    let rest = after_version_at(xid, rest)?;
    let (asked, rest) = asked_at(rest)?;
    let (credential, rest) = auth_in_order(xid, Cause::BadCredential, rest)?;
    let (_verifier, args) = auth_in_order(xid, Cause::BadVerifier, rest)?;
    if let Some(cause) = refused_for(&asked) {
        return Err(Unserved::Refused { xid, cause });
    }
    let caller = caller_in_order(xid, credential.flavour, credential.body)?;
    Ok(Parts {
        xid,
        asked,
        caller,
        args,
    })
}

fn read_exactly(alloc: Global, bytes: &[u8]) -> Result<RpcRead, NoMemory>
    requires { length bytes.now ≤ 9216 }
    ensures ok { IfOk result (λ read. read ≡ read_as (call_of bytes.now)) }
    ensures err { OnErr result (IsOk (call_of bytes.now)) }
{
    let parts = match parts_of(bytes) {
        Err(Unserved::NoReply) => return Ok(RpcRead::NoReply),
        Err(Unserved::Refused { xid, cause }) => return Ok(RpcRead::Refuse(refusal_of(xid, cause))),
        Ok(parts) => parts,
    };
    let args = Data9::copy(alloc, parts.args)?;
    Ok(RpcRead::Call(RpcCall {
        xid: parts.xid,
        program: parts.asked.program,
        procedure: parts.asked.procedure,
        cred: parts.caller.cred,
        machine: parts.caller.machine,
        args,
    }))
}

/// Reads a datagram of at most 9,216 bytes by all tests in their order (RFC 1057 8 and 9; docs/FORMATS.md, "The whole order"): the first that fails decides what is answered, if anything. The memory for the arguments can be wanting for a call alone.
pub fn read_rpc(alloc: Global, bytes: &[u8]) -> Result<RpcRead, NoMemory>
    requires { length bytes.now ≤ 9216 }
    ensures ok { IfOk result (λ read. read ≡ read_as (call_of bytes.now)) }
    // What is sent as a call is read as that call.
    ensures sent { (version : ℕ) (call : RpcCall) → CanBeServed version call → bytes.now ≡ sent_as version call → IfOk result (λ read. read ≡ RpcRead.Call call) }
    ensures err { OnErr result (IsOk (call_of bytes.now)) }
{
    read_exactly(alloc, bytes)
}
