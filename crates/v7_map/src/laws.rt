// What plans of calls leave of an image.

ghost use Rattle.std.specs.Prelude.{◌≡◌, ℕ, None};
ghost use Rattle.files_model.specs.Step.{step};
ghost use Rattle.files_model.specs.declared.attributes.FileId.{FileId};
ghost use Rattle.files_model.specs.declared.credential.Cred.{Cred};
ghost use Rattle.files_model.specs.declared.call.Call.TheVariants.{Getattr, Read};
ghost use Rattle.stable.specs.Store.{Image};
ghost use Rattle.v7_map.specs.Frame.{frame};
ghost use Rattle.v7_map.specs.Weak.{IsWeak, IsStrong};
ghost use Rattle.v7_map.specs.Damage.{damage};
ghost use Rattle.v7_map.specs.View.{view};
ghost use Rattle.v7_map.specs.Stored.{getattr_answer, read_answer};

/// What a GETATTR answers, by the records: STALE, or the stored attributes.
pub fn getattr_is_answered()
    ensures { (image : Image) (file : FileId) (cred : Cred) (now : ℕ)
        → IsStrong (frame image)
        → (step (view image) (Getattr file) cred now).0 ≡ getattr_answer image file }
{}

/// What a READ answers, by the records: STALE, a refusal, or the stored attributes and the bytes of
/// the sectors where the inode's addresses say.
pub fn read_is_answered()
    ensures { (image : Image) (file : FileId) (offset count : ℕ) (cred : Cred) (now : ℕ)
        → IsStrong (frame image)
        → (step (view image) (Read file offset count) cred now).0 ≡ read_answer image file offset count cred }
{}

/// An image in which no test finds damage can be mended.
pub fn undamaged_is_weak()
    ensures { (image : Image) → damage (frame image) ≡ None → IsWeak (frame image) }
{}

/// An image that can be mended is one in which no test finds damage.
pub fn weak_is_undamaged()
    ensures { (image : Image) → IsWeak (frame image) → damage (frame image) ≡ None }
{}
