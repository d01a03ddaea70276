//! A registry is valid exactly where its rows break no rule.
//!
//! What there is to believe of a valid registry stands in `Valid.antt` of ixp_registry, table by table. A
//! dump, or rows that are stored, are tested by rules over rows, which tell the line of the first row that
//! breaks one (`Rules.antt` there). The law here says that the two are one thing, for registries such as rows
//! of tables make (`specs/WellFormed.antt`).
#![tactic(auto)]

mod laws;

pub use laws::{valid_where_no_rule_is_broken, weights_are_one};
