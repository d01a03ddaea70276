//! The laws. The functions do nothing: each is called for what it ensures.
ghost use Rattle.std.specs.Prelude.{◌≡◌, ◌+◌, ◌*◌, ◌<◌, ◌≤◌, ℕ};
ghost use Rattle.ixp_registry_demo.specs.Demo.{demo, dotted, host, net_of};
ghost use Rattle.ixp_registry.specs.Valid.{Valid};

/// The demo exchange is valid.
pub fn demo_is_valid()
    ensures { (n : ℕ) → n ≤ 4000 → Valid (demo n) }
{}

/// The members' addresses and prefixes are whole: none has more than 32 bits, of which the definitions would
/// cut one off.
pub fn no_address_is_cut()
    ensures hosts { (k : ℕ) → k ≤ 4000 → (host k).addr.value ≡ dotted 10 64 0 0 + k }
    ensures nets { (k j : ℕ) → k ≤ 4000 → j < 4 → (net_of k j).value ≡ dotted 20 0 0 0 + 256 * (4 * k + j) }
{}
