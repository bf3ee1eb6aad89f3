//! What is judged of statements, declarations and a whole module, and in which order.
#![tactic(auto)]

mod laws;

pub use laws::{
    a_module_is_typed_or_wrong, each_node_has_one_verdict, leading_back_is_by_edges,
    the_first_broken_rule_counts,
};
