// What strokes leave of an image.

ghost use Rattle.std.specs.Prelude.{◌*◌, ◌/◌, ◌%◌, ◌==◌, not, ◌≡◌, ◌≢◌, ◌<◌, ◌≤◌, ℕ, Bool, List, [], ◌∷◌, ◌++◌, ◌+◌, length, set, true, false, Some};
ghost use Rattle.std.specs.List.{list_any, range_with_len};
ghost use Rattle.std.specs.Ordering.{nat_cmp};
ghost use Rattle.std.specs.FinMap.{FinMap, empty, get};
ghost use Rattle.files_model.specs.Files.{Node, Slot, sectors_of};
ghost use Rattle.files_model.specs.Space.{size_limit};
ghost use Rattle.files_model.specs.Step.{with_node};
ghost use Rattle.files_model.specs.Torn.{Asked};
ghost use Rattle.files_model.specs.declared.attributes.Kind.TheVariants.{Directory, Regular};
ghost use Rattle.stable.specs.Puts.{put_all, with_put};
ghost use Rattle.stable.specs.Store.{Image};
ghost use Rattle.v7_layout.specs.Numbers.{part};
ghost use Rattle.v7_layout.specs.declared.inode.Inode.{Inode};
ghost use Rattle.v7_map.specs.Frame.{Frame, Place, Body, Single, address_of, head_of, slot_of, frame};
ghost use Rattle.v7_map.specs.Image.{sector_at, inode_at, inode_sector};
ghost use Rattle.v7_map.specs.Plan.{PutsInode};
ghost use Rattle.v7_map.specs.Plans.{IsPlanOf};
ghost use Rattle.v7_map.specs.Tree.{tree, is_named};
ghost use Rattle.v7_map.specs.View.{view};
ghost use Rattle.v7_map.specs.Weak.{IsWeak};
ghost use Rattle.v7_plans.specs.Placed.{IsPlaced};
ghost use Rattle.v7_plans.specs.Quiet.{IsQuiet};
ghost use Rattle.v7_sets.specs.Sets.{IsFreeBlock, IsFreeNumber};
ghost use Rattle.v7_strokes.specs.Entries.{entry_sector};
ghost use Rattle.v7_strokes.specs.FreeSets.{HoldsBlocks, HoldsNumbers, GivesBlocks, TakesBlocks, GainsBlocks, KeepsNumbers};
ghost use Rattle.v7_strokes.specs.Freed.{FreesBlocks, ChangesNumber};
ghost use Rattle.v7_strokes.specs.Inodes.{ended_inode, longer_inode, made_inode, placed_inode, timed_inode};
ghost use Rattle.v7_strokes.specs.Left.{ChangesSlot, ChangesUnnamed, ChangesAttributes, GrewByASlot, NamedADirectory, TookADirectory};
ghost use Rattle.v7_strokes.specs.Merged.{merged};
ghost use Rattle.v7_strokes.specs.NewNodes.{IsNewFile, IsNewDirectory};
ghost use Rattle.v7_strokes.specs.Slots.{PutsEntry, PutsSlot, Appends, GrowsBy, PutsDirectory, TakesDirectory};
ghost use Rattle.v7_strokes.specs.Targets.{IsTarget};

/// A put of one slot of a directory, which names no directory before or after, or the same one: the directory's slots are new, and what
/// the slot named or names has a link less or more. It can be mended, and no block moves.
pub fn a_slot_is_put()
    ensures { (image : Image) (d k a : ℕ) (bytes : List ℕ) (s : Slot) → IsWeak (frame image) → PutsEntry image d k a bytes s → ChangesSlot image (set image a bytes) d k s }
{}

/// A put of an inode that no name leads to, made or ended, with whatever blocks: the files have its new generation alone,
/// and of the i-numbers it alone is taken or free otherwise than before.
pub fn an_unnamed_inode_is_put()
    ensures left { (image : Image) (i : ℕ) (bytes : List ℕ) (n : Inode) → IsWeak (frame image) → PutsInode image i bytes n → IsPlaced image i (head_of n) → 3 ≤ i
        → is_named (tree (frame image)) i ≡ false → ChangesUnnamed image (set image (inode_sector i) bytes) i n }
    ensures numbers { (image : Image) (i : ℕ) (bytes : List ℕ) (n : Inode) → IsWeak (frame image) → PutsInode image i bytes n → IsPlaced image i (head_of n) → 3 ≤ i
        → is_named (tree (frame image)) i ≡ false → i < (tree (frame image)).inodes + 1 → ChangesNumber image (set image (inode_sector i) bytes) i n }
{}

/// A put of a used inode that changes links, owner, permissions or times: where things are stays, and the files have that node alone changed.
pub fn attributes_are_put()
    ensures changed { (image : Image) (i : ℕ) (bytes : List ℕ) (n : Inode) → IsWeak (frame image) → PutsInode image i bytes n → ((frame image).head i).is_used ≡ true
        → head_of n ≡ record ((frame image).head i) { nlink = n.nlink } → n.generation ≡ (inode_at image i).generation → ChangesAttributes image (set image (inode_sector i) bytes) i n }
    ensures times { (image : Image) (i now : ℕ) (bytes : List ℕ) (n : Node) → IsWeak (frame image) → get (view image).nodes i ≡ Some n → PutsInode image i bytes (timed_inode (inode_at image i) now)
        → view (set image (inode_sector i) bytes) ≡ with_node (view image) i (record n { mtime = now; ctime = now }) }
{}

/// A put of a directory's inode that makes it longer by one slot, which was put before and names no directory.
pub fn a_directory_gets_longer()
    ensures { (image : Image) (d k : ℕ) (n : Inode) (bytes : List ℕ) (s : Slot) → IsWeak (frame image) → PutsInode image d bytes n → GrowsBy image d k n s
        → GrewByASlot image (set image (inode_sector d) bytes) d n s }
{}

/// A slot may come at the end of a directory: its put doesn't show in a last sector that stands, and the directory's inode then makes it appear,
/// with each block that it had, and at most one new sector, which may stand in the block of addresses already.
pub fn a_slot_may_be_appended()
    ensures quiet { (image : Image) (d k : ℕ) (bytes : List ℕ) (s : Slot) → Appends image d k s → k / 32 < sectors_of ((frame image).head d).size
        → PutsSlot (sector_at image (entry_sector image d k)) k bytes s → IsQuiet image (entry_sector image d k, bytes) }
    ensures longer { (image : Image) (d k now : ℕ) (s : Slot) (direct : List ℕ) (single : ℕ) (target : Place → ℕ) → Appends image d k s → IsTarget (frame image) d (k / 32) target
        → ((p : Place) → address_of image (head_of (longer_inode (inode_at image d) direct single now)) p ≡ target p)
        → slot_of (part (sector_at image (target (Body (k / 32)))) (16 * (k % 32)) 16) ≡ s → GrowsBy image d k (longer_inode (inode_at image d) direct single now) s }
    ensures standing { (f : Frame) (d q : ℕ) → IsWeak f → f.address d (Body q) ≢ 0
        → (f.address d Single ≢ 0 → list_any (λ l. not (f.address d (Body l) == 0)) (range_with_len 10 128) ≡ true) → IsTarget f d q (f.address d) }
{}

/// A put of an empty slot of a directory that names a directory made before: it appears, and the one it stands in has a link more.
pub fn a_directory_is_named()
    ensures { (image : Image) (d k i : ℕ) (name : List ℕ) (bytes : List ℕ) → IsWeak (frame image) → PutsDirectory image d k i name bytes
        → NamedADirectory image (set image (entry_sector image d k) bytes) d k i name }
{}

/// A put of a slot that names an empty directory, and is empty then: that directory is gone from the files, and the one it stood in has a link less.
pub fn a_directory_is_taken_away()
    ensures { (image : Image) (d k i : ℕ) (name : List ℕ) (bytes : List ℕ) → IsWeak (frame image) → TakesDirectory image d k i name bytes
        → TookADirectory image (set image (entry_sector image d k) bytes) d k i }
{}

/// A put of a free block shows nowhere.
pub fn a_free_block_takes_a_put()
    ensures { (image : Image) (a : ℕ) (bytes : List ℕ) → IsWeak (frame image) → IsFreeBlock (frame image) a → length bytes ≡ 512 → IsQuiet image (a, bytes) }
{}

/// The blocks of an inode that no name leads to are free once it ends, and no others.
pub fn an_ended_inode_frees_its_blocks()
    ensures { (image : Image) (i generation : ℕ) (bytes : List ℕ) → IsWeak (frame image) → PutsInode image i bytes (ended_inode generation) → 3 ≤ i
        → is_named (tree (frame image)) i ≡ false → FreesBlocks i (frame image) (frame (set image (inode_sector i) bytes)) }
{}

/// The sets of free blocks stay exact: where an inode ended, once its blocks are given, and where one has more blocks, once these are taken.
pub fn the_free_blocks_follow()
    ensures given { (f g : Frame) (i : ℕ) (old new : List Bool) → IsWeak f → FreesBlocks i f g → g.isize ≡ f.isize → HoldsBlocks f old → GivesBlocks f i old new → HoldsBlocks g new }
    ensures taken { (f g : Frame) (i : ℕ) (old new : List Bool) → IsWeak f → GainsBlocks i f g → HoldsBlocks f old → TakesBlocks g i old new → HoldsBlocks g new }
{}

/// The sets of free i-numbers stay exact: where no inode is made or ended, and where one is, once its number is taken, or given if its generation can
/// go up.
pub fn the_free_numbers_follow()
    ensures kept { (f g : Frame) (before after : FinMap nat_cmp ℕ) (inodes : List Bool) → KeepsNumbers f g before after → HoldsNumbers f before inodes → HoldsNumbers g after inodes }
    ensures taken { (old new : Image) (i : ℕ) (n : Inode) (inodes : List Bool) → ChangesNumber old new i n → HoldsNumbers (frame old) (view old).generations inodes
        → (IsFreeNumber (frame new) (view new).generations i → ⊥) → HoldsNumbers (frame new) (view new).generations (set inodes i false) }
    ensures given { (old new : Image) (i : ℕ) (n : Inode) (inodes : List Bool) → ChangesNumber old new i n → HoldsNumbers (frame old) (view old).generations inodes
        → i < length inodes → IsFreeNumber (frame new) (view new).generations i → HoldsNumbers (frame new) (view new).generations (set inodes i true) }
{}

/// The inode of a file without sectors is that of a new one.
pub fn a_made_inode_is_a_new_file()
    ensures { (image : Image) (i generation : ℕ) (m : Node) → m.kind ≡ Regular → m.mode < 4096 → m.nlink ≡ 1 → m.size ≤ size_limit → m.sectors ≡ empty → m.slots ≡ []
        → IsNewFile image i (made_inode m generation) m }
{}

/// A directory whose first sector, with `.` and `..` alone, was put into a free block may have its inode there.
pub fn a_new_directory_stands_in_a_free_block()
    ensures { (image : Image) (i p a generation : ℕ) (m : Node) → IsWeak (frame image) → IsFreeBlock (frame image) a → m.kind ≡ Directory → m.mode < 4096 → m.nlink ≡ 2 → m.size ≡ 32 → m.sectors ≡ empty
        → m.slots ≡ Some (i, 46 ∷ []) ∷ Some (p, 46 ∷ 46 ∷ []) ∷ []
        → slot_of (part (sector_at image a) 0 16) ≡ Some (i, 46 ∷ []) → slot_of (part (sector_at image a) 16 16) ≡ Some (p, 46 ∷ 46 ∷ [])
        → IsNewDirectory image p i (placed_inode m generation a) m }
{}

/// Puts of one sector that follow each other are one put: a plan stays a plan of the same calls. Where each put takes the place of the last one of
/// its sector, they are merged.
pub fn merged_puts_are_a_plan()
    ensures plan { (image : Image) (calls : List Asked) (now : ℕ) (puts : List (ℕ × List ℕ)) → IsPlanOf image calls now puts → IsPlanOf image calls now (merged puts) }
    ensures image { (image : Image) (puts : List (ℕ × List ℕ)) → put_all (merged puts) image ≡ put_all puts image }
    ensures step { (puts : List (ℕ × List ℕ)) (put : ℕ × List ℕ) → merged (puts ++ put ∷ []) ≡ with_put (merged puts) put }
    ensures few { (puts : List (ℕ × List ℕ)) (put : ℕ × List ℕ) → length (with_put puts put) ≤ length puts + 1 }
{}
