//! The paths of volumes.
ghost use Rattle.std.specs.Prelude.{◌≡◌, ◌≤◌, IfSome};
ghost use Rattle.xdr_rpc.specs.Words.{Gives};
ghost use Rattle.mount1.specs.Paths.{path_of, path_arg, volume_named};

use xdr_rpc::opaque_at;

/// The longest path, in bytes (RFC 1094 appendix A.4, MNTPATHLEN).
const LONGEST_PATH: u32 = 1024;

/// The path of a volume, `/vol0` to `/vol3`.
pub fn path_bytes(volume: u32) -> [u8; 5]
    requires { volume ≤ 3 }
    ensures { result ≡ path_of volume }
{
    [47, 118, 111, 108, 48 + volume as u8]
}

/// The volume of such a path.
pub fn volume_at(path: &[u8]) -> Option<u32>
    ensures volume { result ≡ volume_named path.now }
    ensures bound { IfSome result (λ volume. volume ≤ 3) }
{
    if path == b"/vol0".as_slice() {
        Some(0)
    } else if path == b"/vol1".as_slice() {
        Some(1)
    } else if path == b"/vol2".as_slice() {
        Some(2)
    } else if path == b"/vol3".as_slice() {
        Some(3)
    } else {
        None
    }
}

/// The path in the arguments of MNT and UMNT. Bytes after its padding are passed over.
#[tactic(auto, unfolding(crate::specs::Paths::path_arg))]
pub fn path_at(args: &[u8]) -> Option<&[u8]>
    ensures { Gives (λ path. path.now) result (path_arg args.now) }
{
    let (path, _rest) = opaque_at(args, LONGEST_PATH)?;
    Some(path)
}
