// The slots in a directory's bytes.

ghost use Rattle.std.specs.Prelude.{◌≡◌, ◌<◌, ◌≤◌, ◌*◌, ◌/◌, ◌^◌, length, not, ◌==◌};
ghost use Rattle.std.specs.List.{position, take_while};
ghost use Rattle.std.specs.Option.{is_none};
ghost use Rattle.v7_layout.specs.Numbers.{part};
ghost use Rattle.files_model.specs.Names.{has_name};
ghost use Rattle.v7_dir.specs.Slots.{slot_in, slots_in};

use files_model::Name;
use v7_layout::{Record, Slot};

// The name in the 14 bytes that a slot has for it.
fn name_in(padded: &[u8; 14]) -> &[u8]
    ensures { result.now ≡ take_while (λ b. not (b == 0)) padded.now }
{
    let end = padded.iter().position(|byte| *byte == 0).unwrap_or(14);
    &padded[..end]
}

// The 16 bytes of slot k.
#[tactic(auto, unfolding(v7_layout::specs::Numbers::part))]
fn slot_bytes(slots: &[u8], k: usize) -> &[u8]
    requires { k < length slots.now / 16 }
    ensures bytes { result.now ≡ part slots.now (16 * k) 16 }
    ensures long { length result.now ≡ 16 }
{
    &slots[16 * k..][..16]
}

// Slot k isn't empty and has this name.
#[tactic(auto, unfolding(v7_map::specs::Frame::slot_of))]
fn is_slot_of(slots: &[u8], k: usize, name: &[u8]) -> bool
    requires { k < length slots.now / 16 }
    ensures { result ≡ has_name name.now (slot_in slots.now k) }
{
    let slot = Slot::read(slot_bytes(slots, k));
    slot.ino != 0 && name_in(&slot.name) == name
}

// Slot k is empty.
#[tactic(auto, unfolding(v7_map::specs::Frame::slot_of))]
fn is_empty(slots: &[u8], k: usize) -> bool
    requires { k < length slots.now / 16 }
    ensures { result ≡ is_none (slot_in slots.now k) }
{
    Slot::read(slot_bytes(slots, k)).ino == 0
}

/// The number of the first slot that isn't empty and has this name (filsys(5); RFC 1094 2.3.8, filename). Slots are counted from 0, 16 bytes each,
/// and there are at most 2^32; a rest of fewer bytes is no slot.
#[tactic(auto, using(crate::proofs::Firsts::first_slot, crate::proofs::Firsts::no_slot))]
pub fn find(slots: &[u8], name: &Name) -> Option<u32>
    requires { length slots.now / 16 ≤ 2 ^ 32 }
    ensures { result ≡ position (has_name name.now) (slots_in slots.now) }
{
    let wanted = name.bytes();
    for k in 0..slots.len() / 16 {
        if is_slot_of(slots, k, wanted) {
            return Some(k as u32);
        }
    }
    None
}

/// The number of the first empty slot, one whose i-number is 0 (filsys(5)). Slots are counted from 0, 16 bytes each, and there are at most 2^32;
/// a rest of fewer bytes is no slot.
#[tactic(auto, using(crate::proofs::Firsts::first_slot, crate::proofs::Firsts::no_slot))]
pub fn first_empty(slots: &[u8]) -> Option<u32>
    requires { length slots.now / 16 ≤ 2 ^ 32 }
    ensures { result ≡ position is_none (slots_in slots.now) }
{
    for k in 0..slots.len() / 16 {
        if is_empty(slots, k) {
            return Some(k as u32);
        }
    }
    None
}
