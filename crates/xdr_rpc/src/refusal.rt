//! Replies that need no memory: refusals, and the reply of procedure 0.
ghost use Rattle.std.specs.Prelude.{◌≡◌};
ghost use Rattle.xdr_rpc.specs.Words.{words};
ghost use Rattle.xdr_rpc.specs.Refusals.{refusal};
ghost use Rattle.xdr_rpc.specs.declared.refusal.Cause.{Cause};

use crate::short_reply::{ShortReply, reply_of_words};

/// Why a call isn't served further (RFC 1057 8, rejected_reply, accept_stat and auth_stat). `Done` is the reply without a result, of procedure 0.
#[derive(Clone, Copy)]
pub enum Cause {
    RpcMismatch,
    BadCredential,
    BadVerifier,
    RejectedCredential,
    TooWeak,
    NoProgram,
    NoVersion(u32),
    NoProcedure,
    Done,
    Garbage,
}

/// The reply to a call of this transaction number.
#[tactic(auto, unfolding(crate::specs::Refusals::refusal))]
pub fn refusal_of(xid: u32, cause: Cause) -> ShortReply
    ensures { result ≡ refusal xid cause }
{
    match cause {
        Cause::RpcMismatch => reply_of_words(&[xid, 1, 1, 0, 2, 2]),
        Cause::BadCredential => reply_of_words(&[xid, 1, 1, 1, 1]),
        Cause::RejectedCredential => reply_of_words(&[xid, 1, 1, 1, 2]),
        Cause::BadVerifier => reply_of_words(&[xid, 1, 1, 1, 3]),
        Cause::TooWeak => reply_of_words(&[xid, 1, 1, 1, 5]),
        Cause::NoProgram => reply_of_words(&[xid, 1, 0, 0, 0, 1]),
        Cause::NoVersion(has) => reply_of_words(&[xid, 1, 0, 0, 0, 2, has, has]),
        Cause::NoProcedure => reply_of_words(&[xid, 1, 0, 0, 0, 3]),
        Cause::Done => reply_of_words(&[xid, 1, 0, 0, 0, 0]),
        Cause::Garbage => reply_of_words(&[xid, 1, 0, 0, 0, 4]),
    }
}

/// The reply without a result (RFC 1057 8, SUCCESS).
pub fn void_reply(xid: u32) -> ShortReply
    ensures { result ≡ refusal xid Cause.Done }
{
    refusal_of(xid, Cause::Done)
}

/// The reply to arguments that can't be read (RFC 1057 8, GARBAGE_ARGS).
pub fn garbage_reply(xid: u32) -> ShortReply
    ensures { result ≡ refusal xid Cause.Garbage }
{
    refusal_of(xid, Cause::Garbage)
}

/// The reply to a caller that may not ask this (RFC 1057 8, AUTH_TOOWEAK).
pub fn too_weak_reply(xid: u32) -> ShortReply
    ensures { result ≡ refusal xid Cause.TooWeak }
{
    refusal_of(xid, Cause::TooWeak)
}
