// What plans that change one node leave of an image.

ghost use Rattle.std.specs.Prelude.{◌≡◌, ◌≢◌, ℕ, ◌≤◌, false, List, [], ◌∷◌, ◌++◌, length, set, Some, None};
ghost use Rattle.files_model.specs.Attributes.{set_node};
ghost use Rattle.files_model.specs.declared.attributes.FileId.{FileId};
ghost use Rattle.files_model.specs.declared.attributes.Kind.TheVariants.{Regular};
ghost use Rattle.files_model.specs.declared.attributes.Sattr.{Sattr};
ghost use Rattle.files_model.specs.declared.call.Call.TheVariants.{Setattr};
ghost use Rattle.files_model.specs.declared.credential.Cred.{Cred};
ghost use Rattle.files_model.specs.Files.{Node, clipped, live};
ghost use Rattle.files_model.specs.Step.{attr_of, setattr_refusal};
ghost use Rattle.files_model.specs.Torn.{Asked};
ghost use Rattle.stable.specs.Puts.{put_all};
ghost use Rattle.stable.specs.Store.{Image};
ghost use Rattle.v7_layout.specs.declared.inode.Inode.{Inode};
ghost use Rattle.v7_map.specs.Frame.{Place, Body, head_of, is_directory, address_of, frame};
ghost use Rattle.v7_map.specs.Image.{IsImage, sector_at, inode_sector};
ghost use Rattle.v7_map.specs.Plan.{PutsInode};
ghost use Rattle.v7_map.specs.Plans.{IsPlanOf};
ghost use Rattle.v7_map.specs.View.{view};
ghost use Rattle.v7_map.specs.Weak.{IsWeak, IsStrong};
ghost use Rattle.v7_plans.specs.Quiet.{IsQuiet, AllQuiet};
ghost use Rattle.v7_plans.specs.Resizing.{StoresNode, KeepsBlocks, IsCut, IsCleanTo, CutsAddresses, AreLeft, AreSet};
ghost use Rattle.v7_plans.specs.Setting.{IsSetting, SetsInode, ShrinksTo, IsCutBy, put_inode};

/// A call that changes one node alone, by one put of its inode: attributes, a size that shrinks and drops blocks of the inode's own (and a block of
/// addresses that keeps none), or one that grows. Afterwards the node's blocks are those that the inode gives, and all others stand where they did.
pub fn setting_is_planned()
    ensures planned { (image : Image) (asked : Asked) (now i : ℕ) (n m : Node) (v : Inode) (b : List ℕ)
        → IsStrong (frame image) → IsSetting (view image) asked now i n m → SetsInode image i v m b → IsPlanOf image (asked ∷ []) now ((inode_sector i, b) ∷ []) }
    ensures own_blocks { (image : Image) (asked : Asked) (now i : ℕ) (n m : Node) (v : Inode) (b : List ℕ)
        → IsStrong (frame image) → IsSetting (view image) asked now i n m → SetsInode image i v m b → (p : Place) → (frame (put_inode image i b)).address i p ≡ address_of image (head_of v) p }
    ensures other_blocks { (image : Image) (asked : Asked) (now i : ℕ) (n m : Node) (v : Inode) (b : List ℕ)
        → IsStrong (frame image) → IsSetting (view image) asked now i n m → SetsInode image i v m b → (j : ℕ) → j ≢ i → (p : Place) → (frame (put_inode image i b)).address j p ≡ (frame image).address j p }
{}

/// A size that shrinks where the block of addresses keeps some: the inode, and then that block, without the blocks past the size.
pub fn shrinking_is_planned()
    ensures { (image : Image) (asked : Asked) (now i : ℕ) (n m : Node) (v : Inode) (b : List ℕ) (inner : List (ℕ × List ℕ))
        → IsStrong (frame image) → IsSetting (view image) asked now i n m → ShrinksTo image i v m b → IsCutBy (put_inode image i b) i v inner → IsPlanOf image (asked ∷ []) now ((inode_sector i, b) ∷ inner) }
{}

/// A put of a held sector of a file that changes nothing below its size, as one that puts zeros past it, doesn't show. So a size may grow by it and
/// one put of the inode.
pub fn zeros_past_the_size_are_quiet()
    ensures { (image : Image) (i k a : ℕ) (bytes : List ℕ) → IsWeak (frame image) → is_directory ((frame image).head i) ≡ false → (frame image).address i (Body k) ≡ a → a ≢ 0
        → clipped ((frame image).head i).size k bytes ≡ clipped ((frame image).head i).size k (sector_at image a) → length bytes ≡ 512 → IsQuiet image (a, bytes) }
{}

/// Puts that don't show may come before any plan that is built on the image after them.
pub fn quiet_puts_may_come_first()
    ensures { (image : Image) (calls : List Asked) (now : ℕ) (first puts : List (ℕ × List ℕ))
        → AllQuiet first image → IsWeak (frame image) → IsPlanOf (put_all first image) calls now puts → IsPlanOf image calls now (first ++ puts) }
{}

/// An accepted SETATTR, but for one that drops some of the sectors that are reached through a block of addresses which keeps others: puts that don't
/// show, as of zeros past a size that grows, and the inode, of which the blocks below the new size stay and no other.
pub fn an_accepted_setattr_is_planned()
    ensures planned { (image : Image) (file : FileId) (wanted : Sattr) (cred : Cred) (now : ℕ) (n : Node) (first : List (ℕ × List ℕ)) (v : Inode) (b : List ℕ)
        → IsStrong (frame image) → IsImage image → live (view image) file ≡ Some n → setattr_refusal (view image).read_only (attr_of file.ino n) wanted cred ≡ None
        → AllQuiet first image
        → StoresNode (put_all first image) file.ino (set_node n wanted now) v → KeepsBlocks (put_all first image) file.ino v → IsCut (put_all first image) v
        → IsCleanTo (put_all first image) file.ino v.size → PutsInode (put_all first image) file.ino b v
        → IsPlanOf image ((Setattr file wanted, cred) ∷ []) now (first ++ (inode_sector file.ino, b) ∷ []) }
    ensures blocks { (image : Image) (file : FileId) (wanted : Sattr) (cred : Cred) (now : ℕ) (n : Node) (first : List (ℕ × List ℕ)) (v : Inode) (b : List ℕ)
        → IsStrong (frame image) → IsImage image → live (view image) file ≡ Some n → setattr_refusal (view image).read_only (attr_of file.ino n) wanted cred ≡ None
        → AllQuiet first image
        → StoresNode (put_all first image) file.ino (set_node n wanted now) v → KeepsBlocks (put_all first image) file.ino v → IsCut (put_all first image) v
        → IsCleanTo (put_all first image) file.ino v.size → PutsInode (put_all first image) file.ino b v
        → AreSet (put_all first image) (put_inode (put_all first image) file.ino b) file.ino v }
{}

/// An accepted SETATTR that drops some of the sectors that are reached through a block of addresses which keeps others: the inode, and then that block.
/// Afterwards its blocks are those of the inode and of that block, and all others stand where they did.
pub fn a_shorter_file_is_planned()
    ensures planned { (image : Image) (file : FileId) (wanted : Sattr) (cred : Cred) (now : ℕ) (n : Node) (v : Inode) (b : List ℕ) (a left : ℕ) (bytes : List ℕ)
        → IsStrong (frame image) → IsImage image → live (view image) file ≡ Some n → setattr_refusal (view image).read_only (attr_of file.ino n) wanted cred ≡ None
        → n.kind ≡ Regular → v.size ≤ n.size
        → StoresNode image file.ino (set_node n wanted now) v → KeepsBlocks image file.ino v → PutsInode image file.ino b v → CutsAddresses image file.ino v a left bytes
        → IsPlanOf image ((Setattr file wanted, cred) ∷ []) now ((inode_sector file.ino, b) ∷ (a, bytes) ∷ []) }
    ensures blocks { (image : Image) (file : FileId) (wanted : Sattr) (cred : Cred) (now : ℕ) (n : Node) (v : Inode) (b : List ℕ) (a left : ℕ) (bytes : List ℕ)
        → IsStrong (frame image) → IsImage image → live (view image) file ≡ Some n → setattr_refusal (view image).read_only (attr_of file.ino n) wanted cred ≡ None
        → n.kind ≡ Regular → v.size ≤ n.size
        → StoresNode image file.ino (set_node n wanted now) v → KeepsBlocks image file.ino v → PutsInode image file.ino b v → CutsAddresses image file.ino v a left bytes
        → AreLeft image (set (put_inode image file.ino b) a bytes) file.ino v a bytes }
{}
