//! Who calls.

use lists::InPlace;

/// The further groups of a caller (RFC 1057 9.2, gids): at most 16, kept in place.
pub type Gids = InPlace<u16, 16>;

/// The credential of a call (RFC 1057 9.2, AUTH_UNIX): user, group and further groups.
#[derive(Drop)]
pub struct Cred {
    pub uid: u16,
    pub gid: u16,
    pub gids: Gids,
}
