// What plans of links that take new blocks leave of an image.

ghost use Rattle.std.specs.Prelude.{◌≡◌, ◌≢◌, ℕ, Bool, List, [], ◌∷◌};
ghost use Rattle.files_model.specs.Files.{Node};
ghost use Rattle.files_model.specs.declared.attributes.FileId.{FileId};
ghost use Rattle.files_model.specs.declared.call.Call.TheVariants.{Link};
ghost use Rattle.files_model.specs.declared.credential.Cred.{Cred};
ghost use Rattle.longer_plans.specs.LongerLinks.{LinksLonger};
ghost use Rattle.name_plans.specs.CreatingPuts.{longer_puts};
ghost use Rattle.name_plans.specs.Linking.{IsLink};
ghost use Rattle.name_plans.specs.Taken.{taken, AreNewBlocks};
ghost use Rattle.stable.specs.Puts.{put_all};
ghost use Rattle.stable.specs.Store.{Image};
ghost use Rattle.v7_map.specs.Frame.{Place, frame};
ghost use Rattle.v7_map.specs.Plans.{IsPlanOf};
ghost use Rattle.v7_map.specs.View.{view};
ghost use Rattle.v7_map.specs.Weak.{IsStrong};
ghost use Rattle.v7_sets.specs.Sets.{AreSetsOf};

/// An accepted LINK (RFC 1094 2.2.13) whose name makes its directory longer, by the blocks where the directory's are to stand: the node's inode with one
/// link more, the new slot's sector, in the last one or in a new block, the block of addresses if it changes, and the directory's inode. A crash leaves
/// the files before the call but for the node's ctime, or those after it. Afterwards the directory's blocks stand there, all others where they stood, and
/// the sets of what is free stay exact once the new blocks are taken.
pub fn a_link_with_new_blocks_is_planned()
    ensures planned { (image : Image) (file dir : FileId) (name : List ℕ) (cred : Cred) (now : ℕ) (n d : Node) (target : Place → ℕ) (b1 b2 : List ℕ) (maps : List (ℕ × List ℕ)) (direct : List ℕ) (single : ℕ) (b3 : List ℕ)
        → IsStrong (frame image) → IsLink (view image) file dir name cred now n d → LinksLonger image now dir.ino name d file.ino target b1 b2 maps direct single b3
        → IsPlanOf image ((Link file dir name, cred) ∷ []) now (longer_puts dir.ino d file.ino target b1 b2 maps b3) }
    ensures own_blocks { (image : Image) (file dir : FileId) (name : List ℕ) (cred : Cred) (now : ℕ) (n d : Node) (target : Place → ℕ) (b1 b2 : List ℕ) (maps : List (ℕ × List ℕ)) (direct : List ℕ) (single : ℕ) (b3 : List ℕ)
        → IsStrong (frame image) → IsLink (view image) file dir name cred now n d → LinksLonger image now dir.ino name d file.ino target b1 b2 maps direct single b3
        → (r : Place) → (frame (put_all (longer_puts dir.ino d file.ino target b1 b2 maps b3) image)).address dir.ino r ≡ target r }
    ensures other_blocks { (image : Image) (file dir : FileId) (name : List ℕ) (cred : Cred) (now : ℕ) (n d : Node) (target : Place → ℕ) (b1 b2 : List ℕ) (maps : List (ℕ × List ℕ)) (direct : List ℕ) (single : ℕ) (b3 : List ℕ)
        → IsStrong (frame image) → IsLink (view image) file dir name cred now n d → LinksLonger image now dir.ino name d file.ino target b1 b2 maps direct single b3
        → (j : ℕ) → j ≢ dir.ino → (r : Place) → (frame (put_all (longer_puts dir.ino d file.ino target b1 b2 maps b3) image)).address j r ≡ (frame image).address j r }
    ensures sets { (image : Image) (file dir : FileId) (name : List ℕ) (cred : Cred) (now : ℕ) (n d : Node) (target : Place → ℕ) (b1 b2 : List ℕ) (maps : List (ℕ × List ℕ)) (direct : List ℕ) (single : ℕ) (b3 : List ℕ)
        → IsStrong (frame image) → IsLink (view image) file dir name cred now n d → LinksLonger image now dir.ino name d file.ino target b1 b2 maps direct single b3
        → (new : List ℕ) → AreNewBlocks (frame image) dir.ino target new → (blocks inodes : List Bool) → AreSetsOf image blocks inodes
        → AreSetsOf (put_all (longer_puts dir.ino d file.ino target b1 b2 maps b3) image) (taken new blocks) inodes }
{}
