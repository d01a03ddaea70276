//! Printed texts.
use ixp_print::print_config;
use ixp_read::read_config;
use std::alloc::Global;

/// One item or statement a line, two blanks a level, and no parentheses but those that are needed.
const CANONICAL: &str = "router id 10.1.0.254;
ipv4 table master4;
roa4 table roas4;
ipv4 table t_1;
define ixp_bogon_as = [0, 23456, 64512..65535];
define bh_1 = [203.0.113.0/24{24,32}, 10.0.0.0/8];
function ixp_bh() {
  if net.len = 32 && (65535, 666) ~ bgp_community then {
    return true;
  }
  return false;
}
filter in_1 {
  bgp_large_community.delete([(65500, 1000, *), (65500, 1001, *)]);
  if bgp_next_hop != from then {
    if bgp_next_hop ~ [10.1.0.1, 10.1.0.9] then {
      bgp_large_community.add((65500, 1001, 1200));
    } else {
      reject;
    }
  }
  if bgp_path.last !~ ixp_bogon_as && (net !~ bh_1 || !ixp_bh()) then {
    bgp_path.prepend(bgp_path.first);
  }
  accept;
}
";

/// The same with other blanks, and what may be left out written.
const SPELT: &str = "router id 10.1.0.254; ipv4 table master4; roa4 table roas4;
ipv4 table t_1; # a comment
define ixp_bogon_as = [ 0..0, 23456, 64512..65535 ];
define bh_1 = [203.0.113.0/24{24,32}, 10.0.0.0/8{8,8}];
function ixp_bh() -> bool { if ((net.len = 32) && (65535, 666) ~ bgp_community) then return true; return false; }
filter in_1 {
  bgp_large_community.delete([(65500, 1000, *), (65500, 1001, *)]);
  if bgp_next_hop != from then
    if bgp_next_hop ~ [10.1.0.1, 10.1.0.9] then bgp_large_community.add((65500, 1001, 1200)); else reject;
  if (bgp_path.last !~ ixp_bogon_as) && ((net !~ bh_1) || !(ixp_bh())) then { bgp_path.prepend((bgp_path.first)); }
  accept; }
";

/// What is printed of the tree that the text spells.
fn printed(alloc: Global, text: &str) -> Option<Vec<u8>> {
    let config = read_config(alloc, text.as_bytes()).ok()?;
    let mut out = Vec::new(alloc);
    print_config(alloc, &config, &mut out).ok()?;
    Some(out)
}

fn is_printed(alloc: Global, text: &str) -> bool {
    match printed(alloc, text) {
        Some(out) => out.as_slice() == CANONICAL.as_bytes(),
        None => false,
    }
}

#[test]
fn texts_are_printed_in_one_way(rt: HostRuntime) {
    assert!(rt; is_printed(rt.alloc(), CANONICAL));
    assert!(rt; is_printed(rt.alloc(), SPELT));
}
