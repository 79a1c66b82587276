// What plans of renames that take new blocks leave of an image.

ghost use Rattle.std.specs.Prelude.{◌≡◌, ◌≢◌, ℕ, Bool, List, [], ◌∷◌};
ghost use Rattle.files_model.specs.Files.{Node};
ghost use Rattle.files_model.specs.declared.attributes.FileId.{FileId};
ghost use Rattle.files_model.specs.declared.call.Call.TheVariants.{Rename};
ghost use Rattle.files_model.specs.declared.credential.Cred.{Cred};
ghost use Rattle.longer_plans.specs.LongerMoves.{MovesLonger, moving_longer_puts};
ghost use Rattle.name_plans.specs.Moving.{IsMoving};
ghost use Rattle.name_plans.specs.Taken.{taken, AreNewBlocks};
ghost use Rattle.stable.specs.Puts.{put_all};
ghost use Rattle.stable.specs.Store.{Image};
ghost use Rattle.v7_map.specs.Frame.{Place, frame};
ghost use Rattle.v7_map.specs.Plans.{IsPlanOf};
ghost use Rattle.v7_map.specs.View.{view};
ghost use Rattle.v7_map.specs.Weak.{IsStrong};
ghost use Rattle.v7_sets.specs.Sets.{AreSetsOf};

/// An accepted RENAME (RFC 1094 2.2.12) of what is no directory whose new name makes another directory longer, by the blocks where that directory's are
/// to stand: the new slot's sector, in the last one or in a new block, the block of addresses if it changes, that directory's inode, the old slot's
/// sector, and the inode of the directory of the old name with its times. A crash leaves the files before the call, or both names, or the files after it,
/// but for times. Afterwards that directory's blocks stand there, all others where they stood, and the sets of what is free stay exact once the new blocks
/// are taken.
pub fn a_move_with_new_blocks_is_planned()
    ensures planned { (image : Image) (from to : FileId) (name new_name : List ℕ) (cred : Cred) (now i k : ℕ) (n dp dq : Node) (target : Place → ℕ) (b : List ℕ) (maps : List (ℕ × List ℕ)) (direct : List ℕ) (single : ℕ) (b1 b2 b3 : List ℕ)
        → IsStrong (frame image) → IsMoving (view image) from to name new_name cred now i k n dp dq → MovesLonger image now from.ino to.ino new_name dq k i target b maps direct single b1 b2 b3
        → IsPlanOf image ((Rename from name to new_name, cred) ∷ []) now (moving_longer_puts image from.ino to.ino k dq target b maps b1 b2 b3) }
    ensures own_blocks { (image : Image) (from to : FileId) (name new_name : List ℕ) (cred : Cred) (now i k : ℕ) (n dp dq : Node) (target : Place → ℕ) (b : List ℕ) (maps : List (ℕ × List ℕ)) (direct : List ℕ) (single : ℕ) (b1 b2 b3 : List ℕ)
        → IsStrong (frame image) → IsMoving (view image) from to name new_name cred now i k n dp dq → MovesLonger image now from.ino to.ino new_name dq k i target b maps direct single b1 b2 b3
        → (r : Place) → (frame (put_all (moving_longer_puts image from.ino to.ino k dq target b maps b1 b2 b3) image)).address to.ino r ≡ target r }
    ensures other_blocks { (image : Image) (from to : FileId) (name new_name : List ℕ) (cred : Cred) (now i k : ℕ) (n dp dq : Node) (target : Place → ℕ) (b : List ℕ) (maps : List (ℕ × List ℕ)) (direct : List ℕ) (single : ℕ) (b1 b2 b3 : List ℕ)
        → IsStrong (frame image) → IsMoving (view image) from to name new_name cred now i k n dp dq → MovesLonger image now from.ino to.ino new_name dq k i target b maps direct single b1 b2 b3
        → (j : ℕ) → j ≢ to.ino → (r : Place) → (frame (put_all (moving_longer_puts image from.ino to.ino k dq target b maps b1 b2 b3) image)).address j r ≡ (frame image).address j r }
    ensures sets { (image : Image) (from to : FileId) (name new_name : List ℕ) (cred : Cred) (now i k : ℕ) (n dp dq : Node) (target : Place → ℕ) (b : List ℕ) (maps : List (ℕ × List ℕ)) (direct : List ℕ) (single : ℕ) (b1 b2 b3 : List ℕ)
        → IsStrong (frame image) → IsMoving (view image) from to name new_name cred now i k n dp dq → MovesLonger image now from.ino to.ino new_name dq k i target b maps direct single b1 b2 b3
        → (new : List ℕ) → AreNewBlocks (frame image) to.ino target new → (blocks inodes : List Bool) → AreSetsOf image blocks inodes
        → AreSetsOf (put_all (moving_longer_puts image from.ino to.ino k dq target b maps b1 b2 b3) image) (taken new blocks) inodes }
{}
