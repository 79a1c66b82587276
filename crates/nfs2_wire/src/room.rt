//! Room for a reply.
ghost use Rattle.std.specs.Prelude.{◌≡◌, ◌≤◌, ℕ, [], length, IfOk};
ghost use Rattle.nfs2_wire.specs.Replies.{bytes_of, longest_of};
ghost use Rattle.nfs2_wire.specs.Bounds.{CanAnswer};
ghost use Rattle.files_model.specs.declared.reply.Reply.{Reply};

use files_model::{Call, NoMemory};
use std::alloc::Global;
use std::marker::Model;
use xdr_rpc::Sheet;

/// Room for the bytes of a reply, reserved before the call is served. It is seen as the number of its bytes.
#[derive(Drop)]
pub struct Room {
    sheet: Sheet,
}

impl Model for Room {
    ghost use Rattle.std.specs.Prelude.{◌≡◌, ℕ, []};

    ghost Value = { ℕ };

    ghost view = { λ room. room.sheet.room };

    ghost invariant = { λ room. room.sheet.bytes ≡ [] };
}

impl Room {
    /// Reserves so many bytes, at most 17,692.
    pub fn new(alloc: Global, longest: u32) -> Result<Room, NoMemory>
        requires { longest ≤ 17692 }
        ensures { IfOk result (λ room. room ≡ longest) }
    {
        let sheet = Sheet::with_room(alloc, longest as usize)?;
        Ok(Room { sheet })
    }

    /// Reserves room for the reply to a call: each reply that the call can have fits in it.
    pub fn for_call(alloc: Global, call: &Call) -> Result<Room, NoMemory>
        ensures room { IfOk result (λ room. room ≡ longest_of call.now) }
        ensures enough { (xid : ℕ) (volume : ℕ) (reply : Reply) → CanAnswer call.now reply → IfOk result (λ room. length (bytes_of xid reply volume) ≤ room) }
    {
        Room::new(alloc, longest(call))
    }

    /// The room as a sheet to write on.
    pub fn into_sheet(self) -> Sheet
        ensures { result ≡ record { bytes = []; room = self } }
    {
        self.sheet
    }
}

/// How many bytes the reply to a call has at most: 96 for WRITE, 8,292 for any other.
pub fn longest(call: &Call) -> u32
    ensures { result ≡ longest_of call.now }
{
    match call {
        Call::Write { .. } => 96,
        _ => 8292,
    }
}
