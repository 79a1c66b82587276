ghost use Rattle.std.specs.Prelude.{◌≡◌};
ghost use Rattle.rig_mem.specs.Troubles.{taken};

// What becomes of a device call that fails.
#[derive(Clone, Copy)]
pub enum Fault {
    // It leaves the newer state, or the older.
    Leaves { newer: bool },
    // It has no effect.
    Nothing,
}

// Whether a change is made, where the call is made at all.
pub fn takes(fate: Result<(), Fault>) -> Option<bool>
    ensures { result ≡ taken fate }
{
    match fate {
        Ok(()) => Some(true),
        Err(Fault::Leaves { newer }) => Some(newer),
        Err(Fault::Nothing) => None,
    }
}
