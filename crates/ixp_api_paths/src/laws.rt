//! The law of the table. The function does nothing: it is called for what it ensures.
ghost use Rattle.ixp_api_paths.specs.Kinds.{CallsAreByKind, PathsAreByKind};

/// The table names what the methods and the paths of the kinds of calls say.
pub fn calls_are_named_by_kind()
    ensures calls { CallsAreByKind }
    ensures paths { PathsAreByKind }
{}
