//! The bytes of replies (RFC 1057 8, RFC 1094 2.2).
ghost use Rattle.std.specs.Prelude.{◌≡◌, ◌≤◌, length};
ghost use Rattle.xdr_rpc.specs.Words.{added};
ghost use Rattle.nfs2_wire.specs.Replies.{result_bytes, bytes_of};

use crate::entries::put_entries;
use crate::results::{put_attr, put_data, put_handle, put_text, status_number};
use crate::room::Room;
use files_model::{Reply, Stat};
use xdr_rpc::{ReplyBytes, Sheet, ShortReply, reply_of_words};

#[tactic(auto, unfolding(crate::specs::Replies::result_bytes))]
fn put_result(sheet: &mut Sheet, reply: &Reply, volume: u32)
    requires { length (result_bytes reply.now volume) ≤ sheet.old.room }
    ensures { sheet.new ≡ added sheet.old (result_bytes reply.now volume) }
{
    match reply {
        Reply::Refused(status) => sheet.put_words(&[status_number(*status)]),
        Reply::Attr(attr) => put_attr(sheet, attr, volume),
        Reply::Handle { file, attr } => put_handle(sheet, *file, attr, volume),
        Reply::Text(text) => put_text(sheet, text),
        Reply::Data { attr, bytes } => put_data(sheet, attr, bytes, volume),
        Reply::Done => sheet.put_words(&[0]),
        Reply::Entries { list, end } => put_entries(sheet, list, *end),
        Reply::Space { blocks, free } => sheet.put_words(&[0, 8192, 512, *blocks, *free, *free]),
    }
}

/// Writes the reply to a call of this transaction number, of a file on this volume, into the room that was reserved for it. It takes no memory.
pub fn write_reply(room: Room, xid: u32, reply: &Reply, volume: u32) -> ReplyBytes
    requires { length (bytes_of xid reply.now volume) ≤ room }
    ensures { result ≡ bytes_of xid reply.now volume }
{
    let mut sheet = room.into_sheet();
    sheet.put_words(&[xid, 1, 0, 0, 0, 0]);
    put_result(&mut sheet, reply, volume);
    sheet.into_reply()
}

/// The reply STALE, of 28 bytes, to a call whose handle names no file of an open volume. It takes no memory.
pub fn stale_reply(xid: u32) -> ShortReply
    ensures { result ≡ bytes_of xid (Reply.Refused Stat.Stale) 0 }
{
    reply_of_words(&[xid, 1, 0, 0, 0, 0, status_number(Stat::Stale)])
}
