// What an inspection sees.

/// What is seen of a volume that can be mended.
#[derive(Clone, Copy, Debug, PartialEq, Eq)]
pub struct Seen {
    /// There is nothing to mend.
    pub strong: bool,
    /// The volume was stopped cleanly.
    pub clean: bool,
    /// How many regular files have a name.
    pub files: u32,
    /// How many directories have one, the root too.
    pub directories: u32,
    /// How many symbolic links have one.
    pub links: u32,
    /// How many data blocks these take, with those that hold addresses.
    pub used: u32,
    /// How many data blocks are left.
    pub free: u32,
}
