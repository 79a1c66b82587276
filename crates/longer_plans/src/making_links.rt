// What plans of new links leave of an image.

ghost use Rattle.std.specs.Prelude.{◌≡◌, ℕ, Bool, false, List, [], ◌∷◌, ◌++◌, set};
ghost use Rattle.files_model.specs.Files.{Node};
ghost use Rattle.files_model.specs.NameRows.{new_link};
ghost use Rattle.files_model.specs.declared.attributes.FileId.{FileId};
ghost use Rattle.files_model.specs.declared.attributes.Sattr.{Sattr};
ghost use Rattle.files_model.specs.declared.call.Call.TheVariants.{Symlink};
ghost use Rattle.files_model.specs.declared.credential.Cred.{Cred};
ghost use Rattle.longer_plans.specs.SymlinkPuts.{AddsSlot, IsSymlink, PutsText, TakesSlot, text_puts};
ghost use Rattle.name_plans.specs.CreatingPuts.{in_place_puts, longer_puts};
ghost use Rattle.name_plans.specs.Taken.{taken, AreNewBlocks};
ghost use Rattle.stable.specs.Puts.{put_all};
ghost use Rattle.stable.specs.Store.{Image};
ghost use Rattle.v7_map.specs.Frame.{Place, frame};
ghost use Rattle.v7_map.specs.Plans.{IsPlanOf};
ghost use Rattle.v7_map.specs.View.{view};
ghost use Rattle.v7_map.specs.Weak.{IsStrong};
ghost use Rattle.v7_plans.specs.Setting.{put_inode};
ghost use Rattle.v7_sets.specs.Sets.{AreSetsOf};

/// An accepted SYMLINK (RFC 1094 2.2.14) whose name takes an empty slot: the sectors of its text, none, one or two, each whole; its inode, the slot's
/// sector, and the directory's inode with its times. A crash leaves the files before the call but for the generation of the new i-number, or those after
/// it but for the directory's times. The sets of what is free stay exact once the blocks and the i-number are taken.
pub fn a_new_link_in_place_is_planned()
    ensures planned { (image : Image) (dir : FileId) (name text : List ℕ) (wanted : Sattr) (cred : Cred) (now : ℕ) (d : Node) (i : ℕ) (held b1 b2 b3 : List ℕ)
        → IsStrong (frame image) → IsSymlink (view image) dir name text wanted cred now d i → PutsText image i (new_link wanted cred text now) text held b1 → TakesSlot (put_all (text_puts text 0 held) image) now dir.ino name d i b1 b2 b3
        → IsPlanOf image ((Symlink dir name text wanted, cred) ∷ []) now (text_puts text 0 held ++ in_place_puts (put_all (text_puts text 0 held) image) dir.ino d i b1 b2 b3) }
    ensures sets { (image : Image) (dir : FileId) (name text : List ℕ) (wanted : Sattr) (cred : Cred) (now : ℕ) (d : Node) (i : ℕ) (held b1 b2 b3 : List ℕ)
        → IsStrong (frame image) → IsSymlink (view image) dir name text wanted cred now d i → PutsText image i (new_link wanted cred text now) text held b1 → TakesSlot (put_all (text_puts text 0 held) image) now dir.ino name d i b1 b2 b3
        → (blocks inodes : List Bool) → AreSetsOf image blocks inodes → AreSetsOf (put_all (text_puts text 0 held ++ in_place_puts (put_all (text_puts text 0 held) image) dir.ino d i b1 b2 b3) image) (taken held blocks) (set inodes i false) }
{}

/// An accepted SYMLINK whose name makes its directory longer, by the blocks where the directory's are to stand: the sectors of its text, its inode, the
/// slot's sector, in the last one or in a new block, the block of addresses if it changes, and the directory's inode, which makes all of it appear. A
/// crash leaves the files before the call but for the generation of the new i-number, or those after it. The sets of what is free stay exact once the
/// blocks of the text and of the directory and the i-number are taken.
pub fn a_new_link_at_the_end_is_planned()
    ensures planned { (image : Image) (dir : FileId) (name text : List ℕ) (wanted : Sattr) (cred : Cred) (now : ℕ) (d : Node) (i : ℕ) (held b1 : List ℕ) (target : Place → ℕ) (b2 : List ℕ) (maps : List (ℕ × List ℕ)) (direct : List ℕ) (single : ℕ) (b3 : List ℕ)
        → IsStrong (frame image) → IsSymlink (view image) dir name text wanted cred now d i → PutsText image i (new_link wanted cred text now) text held b1 → AddsSlot (put_all (text_puts text 0 held) image) now dir.ino name d i target b1 b2 maps direct single b3
        → IsPlanOf image ((Symlink dir name text wanted, cred) ∷ []) now (text_puts text 0 held ++ longer_puts dir.ino d i target b1 b2 maps b3) }
    ensures sets { (image : Image) (dir : FileId) (name text : List ℕ) (wanted : Sattr) (cred : Cred) (now : ℕ) (d : Node) (i : ℕ) (held b1 : List ℕ) (target : Place → ℕ) (b2 : List ℕ) (maps : List (ℕ × List ℕ)) (direct : List ℕ) (single : ℕ) (b3 : List ℕ)
        → IsStrong (frame image) → IsSymlink (view image) dir name text wanted cred now d i → PutsText image i (new_link wanted cred text now) text held b1 → AddsSlot (put_all (text_puts text 0 held) image) now dir.ino name d i target b1 b2 maps direct single b3
        → (new : List ℕ) → AreNewBlocks (frame (put_inode (put_all (text_puts text 0 held) image) i b1)) dir.ino target new
        → (blocks inodes : List Bool) → AreSetsOf image blocks inodes → AreSetsOf (put_all (text_puts text 0 held ++ longer_puts dir.ino d i target b1 b2 maps b3) image) (taken new (taken held blocks)) (set inodes i false) }
{}
