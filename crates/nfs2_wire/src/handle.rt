//! File handles (RFC 1094 2.3.3, fhandle).
ghost use Rattle.std.specs.Prelude.{◌≡◌, ◌==◌, Some};
ghost use Rattle.std.specs.List.{list_all};
ghost use Rattle.xdr_rpc.specs.Words.{Gives};
ghost use Rattle.nfs2_wire.specs.Handles.{handle, handle_of, of_open, second};

use byteorder::{BigEndian, ByteOrder};
use files_model::FileId;
use xdr_rpc::word_at;

/// The first word of a handle, "V7N2".
const MARK: u32 = 0x56374e32;

/// The volume and the file that a handle names.
#[derive(Clone, Copy)]
pub struct Handle {
    pub volume: u32,
    pub file: FileId,
}

#[tactic(auto, unfolding(crate::specs::Handles::handle_of, xdr_rpc::specs::Words::words))]
fn bytes_from(volume: u32, ino: u32, generation: u32) -> [u8; 32]
    ensures bytes { result ≡ handle_of volume (record { ino = ino; generation = generation }) }
    ensures read_back { handle result ≡ Some (record { volume = volume; file = record { ino = ino; generation = generation } }) }
{
    let words = [MARK, volume, ino, generation, 0, 0, 0, 0];
    let mut bytes = [0; 32];
    BigEndian::write_u32_into(&words, &mut bytes);
    bytes
}

/// The handle of a file on a volume: the mark "V7N2", the export number, the i-number, the generation, and 16 zeros. It is read as that file on that volume.
pub fn handle_bytes(volume: u32, file: FileId) -> [u8; 32]
    ensures bytes { result ≡ handle_of volume file }
    ensures read_back { handle result ≡ Some (record { volume = volume; file = file }) }
{
    bytes_from(volume, file.ino, file.generation)
}

fn are_zeros(bytes: &[u8]) -> bool
    ensures { result ≡ list_all (λ b. b == 0) bytes.now }
{
    bytes.iter().all(|byte| *byte == 0)
}

#[tactic(auto, unfolding(crate::specs::Handles::handle))]
fn handle_from(bytes: &[u8]) -> Option<Handle>
    ensures { Gives (λ h. h) result (handle bytes.now) }
{
    let (mark, rest) = word_at(bytes)?;
    let (volume, rest) = word_at(rest)?;
    let (ino, rest) = word_at(rest)?;
    let (generation, rest) = word_at(rest)?;
    if mark == MARK && are_zeros(rest) {
        let file = FileId { ino, generation };
        Some(Handle { volume, file })
    } else {
        None
    }
}

/// Reads a handle. One of another form, or of a volume that is not one of those that are open, names nothing.
pub fn open_handle(bytes: &[u8], volumes: u32) -> Option<Handle>
    ensures { Gives (λ h. h) result (of_open volumes (handle bytes.now)) }
{
    let handle = handle_from(bytes)?;
    if handle.volume < volumes {
        Some(handle)
    } else {
        None
    }
}

/// The file that a second handle names, on the volume of the first. One of another form, or of another volume, stands as i-number 0.
pub fn file_on_volume(bytes: &[u8], volume: u32) -> FileId
    ensures { result ≡ second volume bytes.now }
{
    let nowhere = FileId {
        ino: 0,
        generation: 0,
    };
    match handle_from(bytes) {
        None => nowhere,
        Some(handle) => {
            if handle.volume == volume {
                handle.file
            } else {
                nowhere
            }
        }
    }
}
