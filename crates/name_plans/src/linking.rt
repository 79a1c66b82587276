// What plans of links leave of an image.

ghost use Rattle.std.specs.Prelude.{◌≡◌, ℕ, Bool, List, [], ◌∷◌, ◌++◌};
ghost use Rattle.files_model.specs.Files.{Node};
ghost use Rattle.files_model.specs.declared.attributes.FileId.{FileId};
ghost use Rattle.files_model.specs.declared.call.Call.TheVariants.{Link};
ghost use Rattle.files_model.specs.declared.credential.Cred.{Cred};
ghost use Rattle.name_plans.specs.CreatingPuts.{in_place_puts};
ghost use Rattle.name_plans.specs.Linking.{IsLink, LinksAtEnd, LinksInPlace};
ghost use Rattle.stable.specs.Puts.{put_all};
ghost use Rattle.stable.specs.Store.{Image};
ghost use Rattle.v7_layout.specs.declared.inode.Inode.{Inode};
ghost use Rattle.v7_map.specs.Frame.{frame};
ghost use Rattle.v7_map.specs.Plans.{IsPlanOf};
ghost use Rattle.v7_map.specs.View.{view};
ghost use Rattle.v7_map.specs.Weak.{IsStrong};
ghost use Rattle.v7_sets.specs.Sets.{AreSetsOf};
ghost use Rattle.v7_strokes.specs.Entries.{inode_put};

/// An accepted LINK (RFC 1094 2.2.13) whose name takes an empty slot: the node's inode with one link more, the slot's sector, and the directory's inode
/// with its times. A crash leaves the files before the call but for the node's ctime, or those after it but for the directory's times. What is free
/// stays.
pub fn a_link_in_place_is_planned()
    ensures planned { (image : Image) (file dir : FileId) (name : List ℕ) (cred : Cred) (now : ℕ) (n d : Node) (b1 b2 b3 : List ℕ)
        → IsStrong (frame image) → IsLink (view image) file dir name cred now n d → LinksInPlace image now dir.ino name d file.ino b1 b2 b3
        → IsPlanOf image ((Link file dir name, cred) ∷ []) now (in_place_puts image dir.ino d file.ino b1 b2 b3) }
    ensures sets { (image : Image) (file dir : FileId) (name : List ℕ) (cred : Cred) (now : ℕ) (n d : Node) (b1 b2 b3 : List ℕ)
        → IsStrong (frame image) → IsLink (view image) file dir name cred now n d → LinksInPlace image now dir.ino name d file.ino b1 b2 b3
        → (blocks inodes : List Bool) → AreSetsOf image blocks inodes → AreSetsOf (put_all (in_place_puts image dir.ino d file.ino b1 b2 b3) image) blocks inodes }
{}

/// An accepted LINK whose name makes its directory longer: the node's inode, the sector of the new slot and what else stands nowhere yet, and the
/// directory's inode, which makes all of it appear. A crash leaves the files before the call but for the node's ctime, or those after it.
pub fn a_link_at_the_end_is_planned()
    ensures { (image : Image) (file dir : FileId) (name : List ℕ) (cred : Cred) (now : ℕ) (n d : Node) (g : Inode) (b1 b3 : List ℕ) (inner : List (ℕ × List ℕ))
        → IsStrong (frame image) → IsLink (view image) file dir name cred now n d → LinksAtEnd image now dir.ino name d file.ino g b1 b3 inner
        → IsPlanOf image ((Link file dir name, cred) ∷ []) now (inode_put file.ino b1 ∷ (inner ++ inode_put dir.ino b3 ∷ [])) }
{}
