//! The lists that all route servers share, by their kinds.
ghost use Rattle.std.specs.Prelude.{◌≡◌};
ghost use Rattle.ixp_registry.specs.Codes.{public_word};

/// A list that all route servers share.
#[derive(Clone, Copy, Debug, PartialEq, Eq)]
pub enum PublicKind {
    Bogons,
    BogonAs,
    Transit,
    Roas,
}

impl PublicKind {
    /// The word that is printed and stored.
    pub fn word(self) -> &'static str
        ensures { result.now ≡ public_word self }
    {
        match self {
            PublicKind::Bogons => "bogons",
            PublicKind::BogonAs => "bogon_as",
            PublicKind::Transit => "transit",
            PublicKind::Roas => "roas",
        }
    }
}
