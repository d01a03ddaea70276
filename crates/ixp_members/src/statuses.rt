//! How a member's status may change.
ghost use Rattle.std.specs.Prelude.{◌≡◌};
ghost use Rattle.ixp_members.specs.Statuses.{may_move};

use ixp_registry::Status;

/// Whether a member may go from one status to the other.
pub fn may_move(from: Status, to: Status) -> bool
    ensures { result ≡ may_move from to }
{
    match from {
        Status::Noted => to == Status::Connected || to == Status::Left,
        Status::Connected => to == Status::Suspended || to == Status::Left,
        Status::Suspended => to == Status::Connected || to == Status::Left,
        Status::Left => false,
    }
}
