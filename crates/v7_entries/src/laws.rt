// Directories of a volume, and what calls on them answer.

ghost use Rattle.std.specs.Prelude.{◌≡◌, ℕ, true, List};
ghost use Rattle.files_model.specs.Step.{step};
ghost use Rattle.files_model.specs.declared.attributes.FileId.{FileId};
ghost use Rattle.files_model.specs.declared.credential.Cred.{Cred};
ghost use Rattle.files_model.specs.declared.call.Call.TheVariants.{Lookup};
ghost use Rattle.stable.specs.Store.{Image};
ghost use Rattle.v7_map.specs.Frame.{frame, is_directory};
ghost use Rattle.v7_map.specs.Image.{inode_at};
ghost use Rattle.v7_map.specs.Weak.{IsWeak, IsStrong};
ghost use Rattle.v7_map.specs.View.{view};
ghost use Rattle.v7_entries.specs.Answers.{lookup_answer};
ghost use Rattle.v7_entries.specs.Bodies.{HasBody, slots_at};

/// Where a volume can be mended each sector of a directory stands, and its slots are those that the frame has.
pub fn a_directory_has_its_body()
    ensures body { (image : Image) (d : ℕ) → IsWeak (frame image) → is_directory ((frame image).head d) ≡ true → HasBody image (inode_at image d) }
    ensures slots { (image : Image) (d : ℕ) → slots_at image (inode_at image d) ≡ (frame image).slots d }
{}

/// What a LOOKUP answers, by the records: STALE, a refusal, NOENT, or the handle and the stored attributes of what the first slot of the name
/// leads to.
pub fn lookup_is_answered()
    ensures { (image : Image) (dir : FileId) (name : List ℕ) (cred : Cred) (now : ℕ)
        → IsStrong (frame image)
        → (step (view image) (Lookup dir name) cred now).0 ≡ lookup_answer image dir name cred }
{}
