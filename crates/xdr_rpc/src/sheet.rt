//! Writing words and bytes (RFC 1014) into room that was reserved.
ghost use Rattle.std.specs.Prelude.{◌≡◌, ◌≤◌, ◌<◌, ◌^◌, [], length, IfOk};
ghost use Rattle.xdr_rpc.specs.Words.{words, opaque_bytes, added};

use crate::call::ReplyBytes;
use crate::reading::padding_after;
use files_model::NoMemory;
use std::alloc::Global;
use std::marker::Model;

/// Bytes that are written one after the other into room that was reserved: writing takes no memory.
#[derive(Drop)]
pub struct Sheet {
    kept: Vec<u8>,
    room: usize,
}

impl Model for Sheet {
    ghost use Rattle.std.specs.Prelude.{◌+◌, ◌≤◌, vec_len, vec_capacity, length};
    ghost use Rattle.xdr_rpc.specs.Words.{Written};

    ghost Value = { Written };

    ghost view = { λ sheet. record { bytes = sheet.kept.items; room = sheet.room } };

    ghost invariant = { λ sheet. (vec_len sheet.kept + sheet.room ≤ vec_capacity sheet.kept) × (vec_len sheet.kept + sheet.room ≤ 17692) };
}

impl Sheet {
    /// An empty sheet, with room for so many bytes, at most 17,692.
    pub fn with_room(alloc: Global, room: usize) -> Result<Sheet, NoMemory>
        requires { room ≤ 17692 }
        ensures { IfOk result (λ sheet. sheet ≡ record { bytes = []; room = room }) }
    {
        let kept = Vec::with_capacity(alloc, room)?;
        Ok(Sheet { kept, room })
    }

    /// Writes bytes, for which there is room.
    pub fn put(&mut self, bytes: &[u8])
        requires { length bytes.now ≤ self.old.room }
        ensures { self.new ≡ added self.old bytes.now }
    {
        match self.kept.extend_from_slice(bytes) {
            Ok(()) => self.room -= bytes.len(),
            Err(_) => unreachable!(),
        }
    }

    /// Writes words, each as four bytes (RFC 1014 3.2).
    pub fn put_words(&mut self, numbers: &[u32])
        requires { length (words numbers.now) ≤ self.old.room }
        ensures { self.new ≡ added self.old (words numbers.now) }
    {
        for number in numbers {
            self.put(&number.to_be_bytes());
        }
    }

    /// Writes bytes with their length and padding (RFC 1014 3.9).
    pub fn put_opaque(&mut self, bytes: &[u8])
        requires short { length bytes.now < 2 ^ 32 }
        requires room { length (opaque_bytes bytes.now) ≤ self.old.room }
        ensures { self.new ≡ added self.old (opaque_bytes bytes.now) }
    {
        self.put_words(&[bytes.len() as u32]);
        self.put(bytes);
        let zeros = [0; 3];
        self.put(&zeros[..padding_after(bytes.len())]);
    }

    /// The bytes that were written, as a reply.
    pub fn into_reply(self) -> ReplyBytes
        ensures { result ≡ self.bytes }
    {
        ReplyBytes::new(self.kept)
    }
}
