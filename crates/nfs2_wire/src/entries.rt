//! The entries of a directory (RFC 1094 2.2.17, readdirres).
ghost use Rattle.std.specs.Prelude.{◌≡◌, ◌≤◌, length};
ghost use Rattle.std.specs.List.{flat_map};
ghost use Rattle.xdr_rpc.specs.Words.{added};
ghost use Rattle.nfs2_wire.specs.Replies.{flag, entry_bytes, result_bytes};

use files_model::{Entries, Entry, Reply};
use xdr_rpc::Sheet;

fn put_entry(sheet: &mut Sheet, entry: &Entry)
    requires { length (entry_bytes entry.now) ≤ sheet.old.room }
    ensures { sheet.new ≡ added sheet.old (entry_bytes entry.now) }
{
    sheet.put_words(&[1, entry.fileid]);
    sheet.put_opaque(entry.name.bytes());
    sheet.put_words(&[entry.cookie]);
}

fn put_list(sheet: &mut Sheet, entries: &[Entry])
    requires { length (flat_map entry_bytes entries.now) ≤ sheet.old.room }
    ensures { sheet.new ≡ added sheet.old (flat_map entry_bytes entries.now) }
{
    for entry in entries {
        put_entry(sheet, entry);
    }
}

fn flag_number(set: bool) -> u32
    ensures { result ≡ flag set }
{
    if set { 1 } else { 0 }
}

/// Writes entries, and whether they are the last ones.
pub fn put_entries(sheet: &mut Sheet, list: &Entries, end: bool)
    requires { length (result_bytes (Reply.Entries list.now end) 0) ≤ sheet.old.room }
    ensures { sheet.new ≡ added sheet.old (result_bytes (Reply.Entries list.now end) 0) }
{
    sheet.put_words(&[0]);
    put_list(sheet, list.list());
    sheet.put_words(&[0, flag_number(end)]);
}
