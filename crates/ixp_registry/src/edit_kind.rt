//! The kinds of edits.
ghost use Rattle.std.specs.Prelude.{◌≡◌};
ghost use Rattle.ixp_registry.specs.Codes.{edit_word};

/// A kind of edits.
#[derive(Clone, Copy, Debug, PartialEq, Eq)]
pub enum EditKind {
    AddMember,
    RenameMember,
    MoveStatus,
    SetMacro,
    PutContact,
    DropContact,
    AddKey,
    DropKey,
    AddSwitch,
    DropSwitch,
    AddPort,
    AssignPort,
    FreePort,
    DropPort,
    AddVlan,
    DropVlan,
    AddInterface,
    SetAddress,
    DropInterface,
    AddRouter,
    SetRouter,
    DropRouter,
    PutIrr,
    PutOrigins,
    SetRules,
    PutPublic,
}

impl EditKind {
    /// The word that is printed and stored.
    pub fn word(self) -> &'static str
        ensures { result.now ≡ edit_word self }
    {
        match self {
            EditKind::AddMember => "AddMember",
            EditKind::RenameMember => "RenameMember",
            EditKind::MoveStatus => "MoveStatus",
            EditKind::SetMacro => "SetMacro",
            EditKind::PutContact => "PutContact",
            EditKind::DropContact => "DropContact",
            EditKind::AddKey => "AddKey",
            EditKind::DropKey => "DropKey",
            EditKind::AddSwitch => "AddSwitch",
            EditKind::DropSwitch => "DropSwitch",
            EditKind::AddPort => "AddPort",
            EditKind::AssignPort => "AssignPort",
            EditKind::FreePort => "FreePort",
            EditKind::DropPort => "DropPort",
            EditKind::AddVlan => "AddVlan",
            EditKind::DropVlan => "DropVlan",
            EditKind::AddInterface => "AddInterface",
            EditKind::SetAddress => "SetAddress",
            EditKind::DropInterface => "DropInterface",
            EditKind::AddRouter => "AddRouter",
            EditKind::SetRouter => "SetRouter",
            EditKind::DropRouter => "DropRouter",
            EditKind::PutIrr => "PutIrr",
            EditKind::PutOrigins => "PutOrigins",
            EditKind::SetRules => "SetRules",
            EditKind::PutPublic => "PutPublic",
        }
    }
}
