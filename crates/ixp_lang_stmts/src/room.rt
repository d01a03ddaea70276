//! Lists without spare room: most bodies have one statement or two, and a list that grows has room for four
//! at least.
ghost use Rattle.std.specs.Prelude.{◌≡◌};

/// The list with its spare room given back.
pub(crate) fn exact<T>(mut list: Vec<T>) -> Vec<T>
    ensures { result.items ≡ list.items }
{
    list.shrink_to_fit();
    list
}
