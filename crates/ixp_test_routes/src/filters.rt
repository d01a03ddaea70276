//! Small filter texts, run.
use crate::samples::shown;
use ixp_eval::{CallFault, Env, EvalFault, Verdict, call_function, run_filter};
use ixp_lang::{Config, Route, Value, read_route};
use ixp_num::{Addr, Family, Name};
use ixp_read::read_config;
use std::alloc::Global;

/// 10.0.0.1, from which the routes come.
const NEIGHBOUR: Addr = Addr {
    family: Family::V4,
    value: 0x0A00_0001,
};

const ROUTE: &[u8] = b"203.0.113.0/24 65001,65002 10.0.0.1 - 1:2:3,1:2:4,1:3:3";

fn name_of(alloc: Global, name: &[u8]) -> Option<Name> {
    if Name::is_name(name) {
        Name::new(alloc, name).ok()
    } else {
        None
    }
}

/// The fault's code, and the number or the name that it carries.
fn fault_text(alloc: Global, fault: &EvalFault) -> Option<Vec<u8>> {
    let text = match fault {
        EvalFault::PairRange { value } => format!(in alloc; "V1 {value}"),
        EvalFault::NoReturn { name } => format!(in alloc; "V2 {:?}", name.as_bytes()),
        EvalFault::NoVerdict { name } => format!(in alloc; "V3 {:?}", name.as_bytes()),
        EvalFault::NoFilter { name } => format!(in alloc; "V4 {:?}", name.as_bytes()),
        EvalFault::NoMemory => format!(in alloc; "no memory"),
    };
    Some(text.ok()?.into_bytes())
}

/// The same of a call for a value, which may end the filter.
fn call_fault_text(alloc: Global, fault: &CallFault) -> Option<Vec<u8>> {
    match fault {
        CallFault::Failed { fault } => fault_text(alloc, fault),
        CallFault::Ended => {
            let text = format!(in alloc; "V5").ok()?;
            Some(text.into_bytes())
        }
    }
}

fn verdict_text(alloc: Global, verdict: &Verdict) -> Option<Vec<u8>> {
    let text = match verdict {
        Verdict::Accept(route) => format!(in alloc; "{:?}", route.triples.as_slice()),
        Verdict::Reject => format!(in alloc; "reject"),
    };
    Some(text.ok()?.into_bytes())
}

/// What is asked of a configuration, by the name of a filter or a function.
#[derive(Clone, Copy)]
enum Asked {
    /// What the filter makes of the route: the large communities, or the fault.
    Filter,
    /// What the function gives for 9.
    Function,
}

fn filtered(alloc: Global, config: &Config, name: &Name, route: &Route) -> Option<Vec<u8>> {
    let env = Env {
        from: NEIGHBOUR,
        roas: &[],
    };
    match run_filter(alloc, config, name, route, &env) {
        Ok(verdict) => verdict_text(alloc, &verdict),
        Err(fault) => fault_text(alloc, &fault),
    }
}

fn value_text(alloc: Global, value: &Value) -> Option<Vec<u8>> {
    let text = format!(in alloc; "{value:?}").ok()?;
    Some(text.into_bytes())
}

fn called(alloc: Global, config: &Config, name: &Name, route: &Route) -> Option<Vec<u8>> {
    let env = Env {
        from: NEIGHBOUR,
        roas: &[],
    };
    match call_function(alloc, config, name, 9, route, &env) {
        Ok(value) => value_text(alloc, &value),
        Err(fault) => call_fault_text(alloc, &fault),
    }
}

fn answered(
    alloc: Global,
    asked: Asked,
    config: &Config,
    name: &[u8],
    route: &Route,
) -> Option<Vec<u8>> {
    let name = name_of(alloc, name)?;
    match asked {
        Asked::Filter => filtered(alloc, config, &name, route),
        Asked::Function => called(alloc, config, &name, route),
    }
}

/// What is told of the text's configuration.
fn outcome(alloc: Global, asked: Asked, text: &str, name: &[u8]) -> Option<Vec<u8>> {
    let route = read_route(alloc, ROUTE).ok()?;
    match read_config(alloc, text.as_bytes()) {
        Ok(config) => answered(alloc, asked, &config, name, &route),
        Err(_) => None,
    }
}

const FILTERS: &[(&str, &str)] = &[
    (
        "filter f { bgp_large_community.delete([(1, 2, *)]); accept; }",
        "[(1, 3, 3)]",
    ),
    (
        "function g(int p) { if (0, p) ~ bgp_community then accept; } filter f { g(4200000001); }",
        "V1 4200000001",
    ),
    (
        "function g(int p) { return p; } filter f { g(1); }",
        "V3 [102]",
    ),
    ("", "V4 [102]"),
    (
        "function g(int p) { if p ~ [5..7] then reject; } filter f { g(5); }",
        "reject",
    ),
    (
        "function g(int p) { if p ~ [5..7] then reject; } filter f { g(7); }",
        "reject",
    ),
    (
        "function g(int p) { if p ~ [5..7] then reject; } filter f { g(8); accept; }",
        "[(1, 2, 3), (1, 2, 4), (1, 3, 3)]",
    ),
    (
        "function g(int p) { if p ~ [7..5] then reject; } filter f { g(6); }",
        "V3 [102]",
    ),
];

#[test]
fn filters_end(rt: HostRuntime) {
    for &(text, want) in FILTERS {
        let have = outcome(rt.alloc(), Asked::Filter, text, b"f");
        assert!(rt; shown(&have) == want.as_bytes(), "{text}");
    }
}

const FUNCTIONS: &[(&str, &str)] = &[
    ("function g(int p) { return p; }", "Int(9)"),
    (
        "function g(int p) { if p ~ [1..2] then accept; }",
        "V2 [103]",
    ),
    ("function g(int p) { accept; }", "V5"),
];

#[test]
fn functions_return(rt: HostRuntime) {
    for &(text, want) in FUNCTIONS {
        let have = outcome(rt.alloc(), Asked::Function, text, b"g");
        assert!(rt; shown(&have) == want.as_bytes(), "{text}");
    }
}
