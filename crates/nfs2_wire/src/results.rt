//! Results of calls (RFC 1094 2.2), with their status before them.
ghost use Rattle.std.specs.Prelude.{◌≡◌, ◌≤◌, length};
ghost use Rattle.xdr_rpc.specs.Words.{added};
ghost use Rattle.nfs2_wire.specs.Replies.{number_of, result_bytes};

use crate::attributes::attr_words;
use crate::handle::handle_bytes;
use files_model::{Attr, Data, FileId, Reply, Stat, Text};
use xdr_rpc::Sheet;

/// The number of a status (RFC 1094 2.3.1, stat).
pub fn status_number(status: Stat) -> u32
    ensures { result ≡ number_of status }
{
    match status {
        Stat::Perm => 1,
        Stat::Noent => 2,
        Stat::Io => 5,
        Stat::Nxio => 6,
        Stat::Acces => 13,
        Stat::Exist => 17,
        Stat::Notdir => 20,
        Stat::Isdir => 21,
        Stat::Fbig => 27,
        Stat::Nospc => 28,
        Stat::Rofs => 30,
        Stat::Nametoolong => 63,
        Stat::Notempty => 66,
        Stat::Stale => 70,
    }
}

/// Writes the attributes of a file (RFC 1094 2.2.2, attrstat).
pub fn put_attr(sheet: &mut Sheet, attr: &Attr, volume: u32)
    requires { length (result_bytes (Reply.Attr attr.now) volume) ≤ sheet.old.room }
    ensures { sheet.new ≡ added sheet.old (result_bytes (Reply.Attr attr.now) volume) }
{
    sheet.put_words(&[0]);
    sheet.put_words(&attr_words(attr, volume));
}

/// Writes the handle and the attributes of a file (RFC 1094 2.2.5, diropres).
pub fn put_handle(sheet: &mut Sheet, file: FileId, attr: &Attr, volume: u32)
    requires { length (result_bytes (Reply.Handle file attr.now) volume) ≤ sheet.old.room }
    ensures { sheet.new ≡ added sheet.old (result_bytes (Reply.Handle file attr.now) volume) }
{
    sheet.put_words(&[0]);
    sheet.put(&handle_bytes(volume, file));
    sheet.put_words(&attr_words(attr, volume));
}

/// Writes the content of a link (RFC 1094 2.2.6, readlinkres).
pub fn put_text(sheet: &mut Sheet, text: &Text)
    requires { length (result_bytes (Reply.Text text.now) 0) ≤ sheet.old.room }
    ensures { sheet.new ≡ added sheet.old (result_bytes (Reply.Text text.now) 0) }
{
    sheet.put_words(&[0]);
    sheet.put_opaque(text.bytes());
}

/// Writes the attributes of a file and some of its bytes (RFC 1094 2.2.7, readres).
pub fn put_data(sheet: &mut Sheet, attr: &Attr, bytes: &Data, volume: u32)
    requires { length (result_bytes (Reply.Data attr.now bytes.now) volume) ≤ sheet.old.room }
    ensures { sheet.new ≡ added sheet.old (result_bytes (Reply.Data attr.now bytes.now) volume) }
{
    sheet.put_words(&[0]);
    sheet.put_words(&attr_words(attr, volume));
    sheet.put_opaque(bytes.bytes());
}
