//! The replies of MOUNT.
ghost use Rattle.std.specs.Prelude.{◌≡◌, ◌≤◌, ◌<◌, length, IfOk, IfSome};
ghost use Rattle.std.specs.List.{flat_map};
ghost use Rattle.xdr_rpc.specs.Words.{added};
ghost use Rattle.mount1.specs.Rows.{Fits, AreRows};
ghost use Rattle.mount1.specs.Replies.{row_bytes, export_bytes, exports_below, root_bytes, mount_bytes, dump_bytes, export_list_bytes};

use crate::list::Row;
use crate::paths::path_bytes;
use files_model::{FileId, NoMemory};
use nfs2_wire::handle_bytes;
use std::alloc::Global;
use xdr_rpc::{ReplyBytes, Sheet, ShortReply, reply_of_words};

/// A short reply, copied.
pub fn copied(alloc: Global, reply: &ShortReply) -> Result<ReplyBytes, NoMemory>
    ensures { IfOk result (λ bytes. bytes ≡ reply.now) }
{
    ReplyBytes::copy(alloc, reply.bytes())
}

#[tactic(auto, unfolding(crate::specs::Replies::root_bytes))]
fn put_root(sheet: &mut Sheet, xid: u32, volume: u32, root: FileId)
    requires { length (root_bytes xid volume root) ≤ sheet.old.room }
    ensures { sheet.new ≡ added sheet.old (root_bytes xid volume root) }
{
    sheet.put_words(&[xid, 1, 0, 0, 0, 0, 0]);
    sheet.put(&handle_bytes(volume, root));
}

fn root_reply(alloc: Global, xid: u32, volume: u32, root: FileId) -> Result<ReplyBytes, NoMemory>
    ensures { IfOk result (λ bytes. bytes ≡ root_bytes xid volume root) }
{
    let mut sheet = Sheet::with_room(alloc, 60)?;
    put_root(&mut sheet, xid, volume, root);
    Ok(sheet.into_reply())
}

/// The reply to MNT: the handle of the root of a volume, or that there is no such path.
#[tactic(auto, unfolding(crate::specs::Replies::mount_bytes))]
pub fn mount_reply(
    alloc: Global,
    xid: u32,
    roots: &[FileId],
    volume: Option<u32>,
) -> Result<ReplyBytes, NoMemory>
    requires { IfSome volume (λ v. v < length roots.now) }
    ensures { IfOk result (λ bytes. bytes ≡ mount_bytes xid roots.now volume) }
{
    match volume {
        None => copied(alloc, &reply_of_words(&[xid, 1, 0, 0, 0, 0, 2])),
        Some(volume) => root_reply(alloc, xid, volume, roots[volume as usize]),
    }
}

fn put_row(sheet: &mut Sheet, row: &Row)
    requires fits { Fits row.now }
    requires room { length (row_bytes row.now) ≤ sheet.old.room }
    ensures { sheet.new ≡ added sheet.old (row_bytes row.now) }
{
    sheet.put_words(&[1]);
    sheet.put_opaque(row.machine.bytes());
    sheet.put_opaque(&path_bytes(row.volume));
}

fn put_rows(sheet: &mut Sheet, rows: &[Row])
    requires fit { AreRows rows.now }
    requires room { length (flat_map row_bytes rows.now) ≤ sheet.old.room }
    ensures { sheet.new ≡ added sheet.old (flat_map row_bytes rows.now) }
{
    for row in rows {
        put_row(sheet, row);
    }
}

#[tactic(auto, unfolding(crate::specs::Replies::dump_bytes))]
fn put_dump(sheet: &mut Sheet, xid: u32, rows: &[Row])
    requires fit { AreRows rows.now }
    requires room { length (dump_bytes xid rows.now) ≤ sheet.old.room }
    ensures { sheet.new ≡ added sheet.old (dump_bytes xid rows.now) }
{
    sheet.put_words(&[xid, 1, 0, 0, 0, 0]);
    put_rows(sheet, rows);
    sheet.put_words(&[0]);
}

/// The reply to DUMP: the rows in their order.
pub fn dump_reply(alloc: Global, xid: u32, rows: &[Row]) -> Result<ReplyBytes, NoMemory>
    requires { AreRows rows.now }
    ensures { IfOk result (λ bytes. bytes ≡ dump_bytes xid rows.now) }
{
    let mut sheet = Sheet::with_room(alloc, 17692)?;
    put_dump(&mut sheet, xid, rows);
    Ok(sheet.into_reply())
}

fn put_export(sheet: &mut Sheet, volume: u32)
    requires named { volume ≤ 3 }
    requires room { length (export_bytes volume) ≤ sheet.old.room }
    ensures { sheet.new ≡ added sheet.old (export_bytes volume) }
{
    sheet.put_words(&[1]);
    sheet.put_opaque(&path_bytes(volume));
    sheet.put_words(&[0]);
}

fn put_exports(sheet: &mut Sheet, volumes: u32)
    requires few { volumes ≤ 4 }
    requires room { length (exports_below volumes) ≤ sheet.old.room }
    ensures { sheet.new ≡ added sheet.old (exports_below volumes) }
{
    for volume in 0..volumes {
        put_export(sheet, volume);
    }
}

#[tactic(auto, unfolding(crate::specs::Replies::export_list_bytes))]
fn put_export_list(sheet: &mut Sheet, xid: u32, volumes: u32)
    requires few { volumes ≤ 4 }
    requires room { length (export_list_bytes xid volumes) ≤ sheet.old.room }
    ensures { sheet.new ≡ added sheet.old (export_list_bytes xid volumes) }
{
    sheet.put_words(&[xid, 1, 0, 0, 0, 0]);
    put_exports(sheet, volumes);
    sheet.put_words(&[0]);
}

/// The reply to EXPORT: the paths of the volumes that are open.
pub fn export_reply(alloc: Global, xid: u32, volumes: u32) -> Result<ReplyBytes, NoMemory>
    requires { volumes ≤ 4 }
    ensures { IfOk result (λ bytes. bytes ≡ export_list_bytes xid volumes) }
{
    let mut sheet = Sheet::with_room(alloc, 108)?;
    put_export_list(&mut sheet, xid, volumes);
    Ok(sheet.into_reply())
}
