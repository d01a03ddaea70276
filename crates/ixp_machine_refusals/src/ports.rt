//! Why edits of switches and ports are refused.
ghost use Rattle.std.specs.Prelude.{◌≡◌, ◌==◌, find, option_map};
ghost use Rattle.ixp_machine_edits.specs.Ports.{
  add_switch_tests,
  drop_switch_tests,
  add_port_tests,
  assign_port_tests,
  idle_port_tests,
};
ghost use Rattle.ixp_machine_edits.specs.Tests.{first_refused};

use crate::refusing::{bad_text, exists, full, in_use, out_of_bounds, unknown};
use ixp_registry::{
    Interface, Kind, Port, Refusal, Registry, TextField, has_member, has_port, has_switch, is_label,
};

pub(crate) fn add_switch(registry: &Registry, number: u32, name: &[u8]) -> Option<Refusal>
    ensures { result ≡ first_refused (add_switch_tests registry.now number name.now) }
{
    if !is_label(name) {
        return Some(bad_text(TextField::Name));
    }
    if let Some(switch) = registry.switches.find(&number) {
        return Some(exists(switch.number));
    }
    if number == 0 {
        return Some(out_of_bounds());
    }
    let switches = registry.switches.as_slice();
    full(Kind::Switches, switches.len(), 256)
}

fn port_of(ports: &[Port], switch: u32) -> Option<u32>
    ensures { result ≡ option_map (λ p. p.number) (find (λ p. p.switch == switch) ports.now) }
{
    let found = ports.iter().find(|p| p.switch == switch);
    match found {
        Some(port) => Some(port.number),
        None => None,
    }
}

pub(crate) fn drop_switch(registry: &Registry, switch: u32) -> Option<Refusal>
    ensures { result ≡ first_refused (drop_switch_tests registry.now switch) }
{
    if !has_switch(&registry.switches, switch) {
        return Some(unknown(Kind::Switches, switch));
    }
    if let Some(port) = port_of(registry.ports.as_slice(), switch) {
        return Some(in_use(Kind::Ports, port));
    }
    None
}

pub(crate) fn add_port(
    registry: &Registry,
    number: u32,
    switch: u32,
    name: &[u8],
    speed: u32,
) -> Option<Refusal>
    ensures { result ≡ first_refused (add_port_tests registry.now number switch name.now speed) }
{
    if !has_switch(&registry.switches, switch) {
        return Some(unknown(Kind::Switches, switch));
    }
    if !is_label(name) {
        return Some(bad_text(TextField::Name));
    }
    if let Some(port) = registry.ports.find(&number) {
        return Some(exists(port.number));
    }
    if number == 0 || speed == 0 {
        return Some(out_of_bounds());
    }
    let ports = registry.ports.as_slice();
    full(Kind::Ports, ports.len(), 16384)
}

pub(crate) fn assign_port(registry: &Registry, port: u32, member: u32) -> Option<Refusal>
    ensures { result ≡ first_refused (assign_port_tests registry.now port member) }
{
    if !has_member(&registry.members, member) {
        return Some(unknown(Kind::Members, member));
    }
    let Some(row) = registry.ports.find(&port) else {
        return Some(unknown(Kind::Ports, port));
    };
    if !(row.member == 0 || row.member == member) {
        return Some(Refusal::PortTaken {
            member: Some(row.member),
        });
    }
    None
}

fn interface_on(interfaces: &[Interface], port: u32) -> Option<u32>
    ensures { result ≡ option_map (λ i. i.number) (find (λ i. i.port == port) interfaces.now) }
{
    let found = interfaces.iter().find(|i| i.port == port);
    match found {
        Some(interface) => Some(interface.number),
        None => None,
    }
}

/// Of a port that is to be free, or to go.
pub(crate) fn idle_port(registry: &Registry, port: u32) -> Option<Refusal>
    ensures { result ≡ first_refused (idle_port_tests registry.now port) }
{
    if !has_port(&registry.ports, port) {
        return Some(unknown(Kind::Ports, port));
    }
    if let Some(interface) = interface_on(registry.interfaces.as_slice(), port) {
        return Some(in_use(Kind::Interfaces, interface));
    }
    None
}
