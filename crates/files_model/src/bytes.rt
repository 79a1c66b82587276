//! Names, texts and data: bytes with a greatest length.

use lists::{Bytes, InPlace};

/// The name of a directory entry (RFC 1094 2.3.8, filename): at most 255 bytes, kept in place.
pub type Name = InPlace<u8, 255>;

/// The content of a symbolic link (RFC 1094 2.3.9, path): at most 1,024 bytes.
pub type Text = Bytes<1024>;

/// What one call reads or writes (RFC 1094 2.3.11, nfsdata): at most 8,192 bytes.
pub type Data = Bytes<8192>;
