//! The one table of methods and paths.
use ixp_num::{Family, Name};
use ixp_registry::EditKind;

/// A word that stands in a path.
#[derive(Clone, Copy)]
pub enum Word {
    Members,
    Name,
    Status,
    Macro,
    Contacts,
    Irr,
    Origins,
    Rules,
    Keys,
    Switches,
    Ports,
    Member,
    Vlans,
    Use,
    Interfaces,
    Routers,
    Config,
    Explain,
    Ixf,
    Dump,
    Public,
    Glass,
    Bogons,
    BogonAs,
    Transit,
    Roas,
}

/// A part of a path, between two slashes.
#[derive(Clone, Copy)]
pub enum Part {
    /// The word itself.
    Is(Word),
    /// The number of a row.
    Row,
    /// A place among the rows of a member, or among the routes that are held of a session.
    Place,
    /// `4` or `6`.
    Family,
    /// The word of a public list.
    List,
    /// The handle of a router.
    Router,
    /// The path has ended.
    End,
}

/// A list that all route servers share.
#[derive(Clone, Copy, Debug, PartialEq, Eq)]
pub enum ListName {
    Bogons,
    BogonAs,
    Transit,
    Roas,
}

/// What stands in a path's open parts. What the path hasn't is 0, the first of its kind, or none.
#[derive(Debug, Drop)]
pub struct Args {
    pub row: u32,
    pub place: u32,
    pub family: Family,
    pub list: ListName,
    pub router: Option<Name>,
}

/// A question about rows.
#[derive(Clone, Copy, Debug, PartialEq, Eq)]
pub enum Question {
    Member,
    Contacts,
    Rules,
    Use,
    /// The member export.
    Ixf,
    /// The dump of the registry.
    Dump,
}

/// What a method and a path call for.
#[derive(Clone, Copy, Debug, PartialEq, Eq)]
pub enum Kind {
    Edit(EditKind),
    Ask(Question),
    /// The configuration of a router.
    Config,
    /// What becomes of a route.
    Explain,
    /// The routes that a session is known to announce are to be held.
    Hold,
    /// What becomes of the routes that are held of a session.
    Glass,
    /// What becomes of one of them.
    GlassPlace,
}

/// A path, and what each method of it calls for.
#[derive(Clone, Copy)]
pub struct Entry {
    pub parts: [Part; 4],
    pub get: Option<Kind>,
    pub post: Option<Kind>,
    pub put: Option<Kind>,
    pub delete: Option<Kind>,
}

/// The number of paths.
pub const PATHS: usize = 32;

/// Every path, once. `route_at` has the same paths as the router's texts.
pub const TABLE: [Entry; PATHS] = [
    Entry {
        parts: [Part::Is(Word::Members), Part::End, Part::End, Part::End],
        get: None,
        post: Some(Kind::Edit(EditKind::AddMember)),
        put: None,
        delete: None,
    },
    Entry {
        parts: [Part::Is(Word::Members), Part::Row, Part::End, Part::End],
        get: Some(Kind::Ask(Question::Member)),
        post: None,
        put: None,
        delete: None,
    },
    Entry {
        parts: [
            Part::Is(Word::Members),
            Part::Row,
            Part::Is(Word::Name),
            Part::End,
        ],
        get: None,
        post: None,
        put: Some(Kind::Edit(EditKind::RenameMember)),
        delete: None,
    },
    Entry {
        parts: [
            Part::Is(Word::Members),
            Part::Row,
            Part::Is(Word::Status),
            Part::End,
        ],
        get: None,
        post: None,
        put: Some(Kind::Edit(EditKind::MoveStatus)),
        delete: None,
    },
    Entry {
        parts: [
            Part::Is(Word::Members),
            Part::Row,
            Part::Is(Word::Macro),
            Part::End,
        ],
        get: None,
        post: None,
        put: Some(Kind::Edit(EditKind::SetMacro)),
        delete: None,
    },
    Entry {
        parts: [
            Part::Is(Word::Members),
            Part::Row,
            Part::Is(Word::Contacts),
            Part::End,
        ],
        get: Some(Kind::Ask(Question::Contacts)),
        post: None,
        put: None,
        delete: None,
    },
    Entry {
        parts: [
            Part::Is(Word::Members),
            Part::Row,
            Part::Is(Word::Contacts),
            Part::Place,
        ],
        get: None,
        post: None,
        put: Some(Kind::Edit(EditKind::PutContact)),
        delete: Some(Kind::Edit(EditKind::DropContact)),
    },
    Entry {
        parts: [
            Part::Is(Word::Members),
            Part::Row,
            Part::Is(Word::Irr),
            Part::Family,
        ],
        get: None,
        post: None,
        put: Some(Kind::Edit(EditKind::PutIrr)),
        delete: None,
    },
    Entry {
        parts: [
            Part::Is(Word::Members),
            Part::Row,
            Part::Is(Word::Origins),
            Part::Family,
        ],
        get: None,
        post: None,
        put: Some(Kind::Edit(EditKind::PutOrigins)),
        delete: None,
    },
    Entry {
        parts: [
            Part::Is(Word::Members),
            Part::Row,
            Part::Is(Word::Rules),
            Part::End,
        ],
        get: Some(Kind::Ask(Question::Rules)),
        post: None,
        put: Some(Kind::Edit(EditKind::SetRules)),
        delete: None,
    },
    Entry {
        parts: [Part::Is(Word::Keys), Part::End, Part::End, Part::End],
        get: None,
        post: Some(Kind::Edit(EditKind::AddKey)),
        put: None,
        delete: None,
    },
    Entry {
        parts: [Part::Is(Word::Keys), Part::Row, Part::End, Part::End],
        get: None,
        post: None,
        put: None,
        delete: Some(Kind::Edit(EditKind::DropKey)),
    },
    Entry {
        parts: [Part::Is(Word::Switches), Part::End, Part::End, Part::End],
        get: None,
        post: Some(Kind::Edit(EditKind::AddSwitch)),
        put: None,
        delete: None,
    },
    Entry {
        parts: [Part::Is(Word::Switches), Part::Row, Part::End, Part::End],
        get: None,
        post: None,
        put: None,
        delete: Some(Kind::Edit(EditKind::DropSwitch)),
    },
    Entry {
        parts: [Part::Is(Word::Ports), Part::End, Part::End, Part::End],
        get: None,
        post: Some(Kind::Edit(EditKind::AddPort)),
        put: None,
        delete: None,
    },
    Entry {
        parts: [Part::Is(Word::Ports), Part::Row, Part::End, Part::End],
        get: None,
        post: None,
        put: None,
        delete: Some(Kind::Edit(EditKind::DropPort)),
    },
    Entry {
        parts: [
            Part::Is(Word::Ports),
            Part::Row,
            Part::Is(Word::Member),
            Part::End,
        ],
        get: None,
        post: None,
        put: Some(Kind::Edit(EditKind::AssignPort)),
        delete: Some(Kind::Edit(EditKind::FreePort)),
    },
    Entry {
        parts: [Part::Is(Word::Vlans), Part::End, Part::End, Part::End],
        get: None,
        post: Some(Kind::Edit(EditKind::AddVlan)),
        put: None,
        delete: None,
    },
    Entry {
        parts: [Part::Is(Word::Vlans), Part::Row, Part::End, Part::End],
        get: None,
        post: None,
        put: None,
        delete: Some(Kind::Edit(EditKind::DropVlan)),
    },
    Entry {
        parts: [
            Part::Is(Word::Vlans),
            Part::Row,
            Part::Is(Word::Use),
            Part::Family,
        ],
        get: Some(Kind::Ask(Question::Use)),
        post: None,
        put: None,
        delete: None,
    },
    Entry {
        parts: [Part::Is(Word::Interfaces), Part::End, Part::End, Part::End],
        get: None,
        post: Some(Kind::Edit(EditKind::AddInterface)),
        put: None,
        delete: None,
    },
    Entry {
        parts: [Part::Is(Word::Interfaces), Part::Row, Part::End, Part::End],
        get: None,
        post: None,
        put: None,
        delete: Some(Kind::Edit(EditKind::DropInterface)),
    },
    Entry {
        parts: [
            Part::Is(Word::Interfaces),
            Part::Row,
            Part::Family,
            Part::End,
        ],
        get: None,
        post: None,
        put: Some(Kind::Edit(EditKind::SetAddress)),
        delete: None,
    },
    Entry {
        parts: [Part::Is(Word::Routers), Part::End, Part::End, Part::End],
        get: None,
        post: Some(Kind::Edit(EditKind::AddRouter)),
        put: None,
        delete: None,
    },
    Entry {
        parts: [Part::Is(Word::Routers), Part::Router, Part::End, Part::End],
        get: None,
        post: None,
        put: Some(Kind::Edit(EditKind::SetRouter)),
        delete: Some(Kind::Edit(EditKind::DropRouter)),
    },
    Entry {
        parts: [
            Part::Is(Word::Routers),
            Part::Router,
            Part::Is(Word::Config),
            Part::End,
        ],
        get: Some(Kind::Config),
        post: None,
        put: None,
        delete: None,
    },
    Entry {
        parts: [
            Part::Is(Word::Routers),
            Part::Router,
            Part::Is(Word::Explain),
            Part::Row,
        ],
        get: None,
        post: Some(Kind::Explain),
        put: None,
        delete: None,
    },
    Entry {
        parts: [Part::Is(Word::Ixf), Part::End, Part::End, Part::End],
        get: Some(Kind::Ask(Question::Ixf)),
        post: None,
        put: None,
        delete: None,
    },
    Entry {
        parts: [Part::Is(Word::Public), Part::List, Part::End, Part::End],
        get: None,
        post: None,
        put: Some(Kind::Edit(EditKind::PutPublic)),
        delete: None,
    },
    Entry {
        parts: [Part::Is(Word::Glass), Part::Router, Part::Row, Part::End],
        get: Some(Kind::Glass),
        post: None,
        put: Some(Kind::Hold),
        delete: None,
    },
    Entry {
        parts: [Part::Is(Word::Glass), Part::Router, Part::Row, Part::Place],
        get: Some(Kind::GlassPlace),
        post: None,
        put: None,
        delete: None,
    },
    Entry {
        parts: [Part::Is(Word::Dump), Part::End, Part::End, Part::End],
        get: Some(Kind::Ask(Question::Dump)),
        post: None,
        put: None,
        delete: None,
    },
];
