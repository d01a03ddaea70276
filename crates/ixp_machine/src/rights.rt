//! Who may ask for which edit.
ghost use Rattle.std.specs.Prelude.{◌≡◌};
ghost use Rattle.ixp_machine_steps.specs.Rights.{own_member, right_of, has_right};

use ixp_machine_edits::Edit;
use ixp_registry::{Owner, Right};

fn own_member(edit: &Edit) -> Option<u32>
    ensures { result ≡ own_member edit.now }
{
    match edit {
        Edit::SetMacro { member, .. } => Some(*member),
        Edit::PutContact { member, .. } => Some(*member),
        Edit::DropContact { member, .. } => Some(*member),
        Edit::SetRules { member, .. } => Some(*member),
        _ => None,
    }
}

/// The right that the edit asks for.
pub(crate) fn right_of(edit: &Edit) -> Right
    ensures { result ≡ right_of edit.now }
{
    match own_member(edit) {
        Some(member) => Right::Member(member),
        None => Right::Staff,
    }
}

pub(crate) fn has_right(owner: Owner, right: Right) -> bool
    ensures { result ≡ has_right owner right }
{
    match owner {
        Owner::Staff(_) => true,
        Owner::Member(member) => match right {
            Right::Staff => false,
            Right::Member(own) => member == own,
        },
    }
}
