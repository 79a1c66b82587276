// What plans of new directories leave of an image, where the parent gets longer by new blocks.

ghost use Rattle.std.specs.Prelude.{◌≡◌, ◌≢◌, ℕ, Bool, false, List, [], ◌∷◌, set};
ghost use Rattle.files_model.specs.Files.{Node};
ghost use Rattle.files_model.specs.NameRows.{new_directory};
ghost use Rattle.files_model.specs.declared.attributes.FileId.{FileId};
ghost use Rattle.files_model.specs.declared.attributes.Sattr.{Sattr};
ghost use Rattle.files_model.specs.declared.call.Call.TheVariants.{Mkdir};
ghost use Rattle.files_model.specs.declared.credential.Cred.{Cred};
ghost use Rattle.longer_plans.specs.LongerParent.{EntersLonger};
ghost use Rattle.name_plans.specs.CreatingPuts.{longer_puts};
ghost use Rattle.name_plans.specs.MakingDirectory.{IsMkdir, PutsDots};
ghost use Rattle.name_plans.specs.Taken.{taken, AreNewBlocks};
ghost use Rattle.stable.specs.Puts.{put_all};
ghost use Rattle.stable.specs.Store.{Image};
ghost use Rattle.v7_map.specs.Frame.{Place, frame};
ghost use Rattle.v7_map.specs.Plans.{IsPlanOf};
ghost use Rattle.v7_map.specs.View.{view};
ghost use Rattle.v7_map.specs.Weak.{IsStrong};
ghost use Rattle.v7_plans.specs.Setting.{put_inode};
ghost use Rattle.v7_sets.specs.Sets.{AreSetsOf};

/// An accepted MKDIR (RFC 1094 2.2.15) whose name makes the parent longer, by the blocks where the parent's are to stand: the new directory's sector,
/// its inode, the new slot's sector, in the last one or in a new block, the block of addresses if it changes, and the parent's inode with one link
/// more, which makes all of it appear. A crash leaves the files before the call but for the generation of the new i-number, or those after it. The new
/// directory's block is none of the parent's. The sets of what is free stay exact once that block, the parent's new blocks and the i-number are taken.
pub fn a_new_directory_with_new_blocks_is_planned()
    ensures planned { (image : Image) (dir : FileId) (name : List ℕ) (wanted : Sattr) (cred : Cred) (now : ℕ) (d : Node) (i a : ℕ) (target : Place → ℕ) (b0 b1 b2 : List ℕ) (maps : List (ℕ × List ℕ)) (direct : List ℕ) (single : ℕ) (b3 : List ℕ)
        → IsStrong (frame image) → IsMkdir (view image) dir name wanted cred now d i → PutsDots image dir.ino i (new_directory wanted cred i dir.ino now) a b0 b1 → EntersLonger (set image a b0) now dir.ino name d i target b1 b2 maps direct single b3
        → IsPlanOf image ((Mkdir dir name wanted, cred) ∷ []) now ((a, b0) ∷ longer_puts dir.ino d i target b1 b2 maps b3) }
    ensures apart { (image : Image) (dir : FileId) (name : List ℕ) (wanted : Sattr) (cred : Cred) (now : ℕ) (d : Node) (i a : ℕ) (target : Place → ℕ) (b0 b1 b2 : List ℕ) (maps : List (ℕ × List ℕ)) (direct : List ℕ) (single : ℕ) (b3 : List ℕ)
        → IsStrong (frame image) → IsMkdir (view image) dir name wanted cred now d i → PutsDots image dir.ino i (new_directory wanted cred i dir.ino now) a b0 b1 → EntersLonger (set image a b0) now dir.ino name d i target b1 b2 maps direct single b3
        → (r : Place) → target r ≢ a }
    ensures sets { (image : Image) (dir : FileId) (name : List ℕ) (wanted : Sattr) (cred : Cred) (now : ℕ) (d : Node) (i a : ℕ) (target : Place → ℕ) (b0 b1 b2 : List ℕ) (maps : List (ℕ × List ℕ)) (direct : List ℕ) (single : ℕ) (b3 : List ℕ)
        → IsStrong (frame image) → IsMkdir (view image) dir name wanted cred now d i → PutsDots image dir.ino i (new_directory wanted cred i dir.ino now) a b0 b1 → EntersLonger (set image a b0) now dir.ino name d i target b1 b2 maps direct single b3
        → (new : List ℕ) → AreNewBlocks (frame (put_inode (set image a b0) i b1)) dir.ino target new
        → (blocks inodes : List Bool) → AreSetsOf image blocks inodes → AreSetsOf (put_all ((a, b0) ∷ longer_puts dir.ino d i target b1 b2 maps b3) image) (taken (a ∷ new) blocks) (set inodes i false) }
{}
