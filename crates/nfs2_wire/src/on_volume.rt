//! Calls on a volume, without those that take memory.
ghost use Rattle.std.specs.Prelude.{◌≡◌};
ghost use Rattle.nfs2_wire.specs.AllCalls.{opened, of_file, of_name, of_new, file_call, name_call, new_call, setattr_call, read_call, rename_call, link_call, readdir_call};

use crate::arguments::{getattr_args_of, read_args_of};
use crate::handle::{Handle, file_on_volume, open_handle};
use crate::shapes::{
    link_args_of, name_args_of, new_args_of, part_args_of, rename_args_of, set_args_of,
};
use files_model::{Call, FileId, Name, Sattr};

/// A call on an open volume.
#[derive(Drop)]
pub struct VolumeCall {
    pub volume: u32,
    pub call: Call,
}

/// Why there is none: a handle that names no file of an open volume, or arguments that can't be read.
#[derive(Clone, Copy)]
pub enum Unread {
    Stale,
    Garbage,
}

/// The volume and file of a handle, where it names one of an open volume.
pub fn opened_by(bytes: &[u8], volumes: u32) -> Result<Handle, Unread>
    ensures { result ≡ opened volumes bytes.now }
{
    match open_handle(bytes, volumes) {
        Some(handle) => Ok(handle),
        None => Err(Unread::Stale),
    }
}

/// What is asked of the file of a handle alone.
#[derive(Clone, Copy)]
pub enum OfFile {
    Getattr,
    Readlink,
    Statfs,
}

/// What is asked of a name in a directory.
#[derive(Clone, Copy)]
pub enum OfName {
    Lookup,
    Remove,
    Rmdir,
}

/// What is made with a name and attributes.
#[derive(Clone, Copy)]
pub enum OfNew {
    Create,
    Mkdir,
}

fn call_of_file(asked: OfFile, file: FileId) -> Call
    ensures { result ≡ of_file asked file }
{
    match asked {
        OfFile::Getattr => Call::Getattr { file },
        OfFile::Readlink => Call::Readlink { file },
        OfFile::Statfs => Call::Statfs { file },
    }
}

fn call_of_name(asked: OfName, dir: FileId, name: Name) -> Call
    ensures { result ≡ of_name asked dir name }
{
    match asked {
        OfName::Lookup => Call::Lookup { dir, name },
        OfName::Remove => Call::Remove { dir, name },
        OfName::Rmdir => Call::Rmdir { dir, name },
    }
}

fn call_of_new(asked: OfNew, dir: FileId, name: Name, set: Sattr) -> Call
    ensures { result ≡ of_new asked dir name set }
{
    match asked {
        OfNew::Create => Call::Create { dir, name, set },
        OfNew::Mkdir => Call::Mkdir { dir, name, set },
    }
}

#[tactic(auto, unfolding(crate::specs::AllCalls::file_call))]
pub fn read_of_file(asked: OfFile, bytes: &[u8], volumes: u32) -> Result<VolumeCall, Unread>
    ensures { result ≡ file_call asked volumes bytes.now }
{
    let a = getattr_args_of(bytes).ok_or(Unread::Garbage)?;
    let h = opened_by(a, volumes)?;
    let call = call_of_file(asked, h.file);
    Ok(VolumeCall {
        volume: h.volume,
        call,
    })
}

#[tactic(auto, unfolding(crate::specs::AllCalls::name_call))]
pub fn read_of_name(asked: OfName, bytes: &[u8], volumes: u32) -> Result<VolumeCall, Unread>
    ensures { result ≡ name_call asked volumes bytes.now }
{
    let a = name_args_of(bytes).ok_or(Unread::Garbage)?;
    let h = opened_by(a.dir, volumes)?;
    let call = call_of_name(asked, h.file, Name::copy(a.name));
    Ok(VolumeCall {
        volume: h.volume,
        call,
    })
}

#[tactic(auto, unfolding(crate::specs::AllCalls::new_call))]
pub fn read_of_new(asked: OfNew, bytes: &[u8], volumes: u32) -> Result<VolumeCall, Unread>
    ensures { result ≡ new_call asked volumes bytes.now }
{
    let a = new_args_of(bytes).ok_or(Unread::Garbage)?;
    let h = opened_by(a.at.dir, volumes)?;
    let call = call_of_new(asked, h.file, Name::copy(a.at.name), a.set);
    Ok(VolumeCall {
        volume: h.volume,
        call,
    })
}

#[tactic(auto, unfolding(crate::specs::AllCalls::setattr_call))]
pub fn read_setattr(bytes: &[u8], volumes: u32) -> Result<VolumeCall, Unread>
    ensures { result ≡ setattr_call volumes bytes.now }
{
    let a = set_args_of(bytes).ok_or(Unread::Garbage)?;
    let h = opened_by(a.0, volumes)?;
    let call = Call::Setattr {
        file: h.file,
        set: a.1,
    };
    Ok(VolumeCall {
        volume: h.volume,
        call,
    })
}

#[tactic(auto, unfolding(crate::specs::AllCalls::read_call))]
pub fn read_read(bytes: &[u8], volumes: u32) -> Result<VolumeCall, Unread>
    ensures { result ≡ read_call volumes bytes.now }
{
    let a = read_args_of(bytes).ok_or(Unread::Garbage)?;
    let h = opened_by(a.handle, volumes)?;
    let call = Call::Read {
        file: h.file,
        offset: a.offset,
        count: a.count,
    };
    Ok(VolumeCall {
        volume: h.volume,
        call,
    })
}

#[tactic(auto, unfolding(crate::specs::AllCalls::rename_call))]
pub fn read_rename(bytes: &[u8], volumes: u32) -> Result<VolumeCall, Unread>
    ensures { result ≡ rename_call volumes bytes.now }
{
    let a = rename_args_of(bytes).ok_or(Unread::Garbage)?;
    let h = opened_by(a.from.dir, volumes)?;
    let call = Call::Rename {
        from: h.file,
        name: Name::copy(a.from.name),
        to: file_on_volume(a.to.dir, h.volume),
        new_name: Name::copy(a.to.name),
    };
    Ok(VolumeCall {
        volume: h.volume,
        call,
    })
}

#[tactic(auto, unfolding(crate::specs::AllCalls::link_call))]
pub fn read_link(bytes: &[u8], volumes: u32) -> Result<VolumeCall, Unread>
    ensures { result ≡ link_call volumes bytes.now }
{
    let a = link_args_of(bytes).ok_or(Unread::Garbage)?;
    let h = opened_by(a.file, volumes)?;
    let call = Call::Link {
        file: h.file,
        dir: file_on_volume(a.to.dir, h.volume),
        name: Name::copy(a.to.name),
    };
    Ok(VolumeCall {
        volume: h.volume,
        call,
    })
}

#[tactic(auto, unfolding(crate::specs::AllCalls::readdir_call))]
pub fn read_readdir(bytes: &[u8], volumes: u32) -> Result<VolumeCall, Unread>
    ensures { result ≡ readdir_call volumes bytes.now }
{
    let a = part_args_of(bytes).ok_or(Unread::Garbage)?;
    let h = opened_by(a.handle, volumes)?;
    let call = Call::Readdir {
        dir: h.file,
        cookie: a.first,
        count: a.count,
    };
    Ok(VolumeCall {
        volume: h.volume,
        call,
    })
}
