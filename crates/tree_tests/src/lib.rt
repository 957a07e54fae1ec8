//! Tests of trees (feature_trees), of clauses on them (tree_clauses), of acts (utility_calls, link_walks,
//! concrete_utils) and of picked start trees (tree_predictions). They stand apart from these crates, so that no crate
//! is proved twice.
#![tactic(auto)]

#[cfg(test)]
mod all_acts;
#[cfg(test)]
mod backs;
#[cfg(test)]
mod clause_texts;
#[cfg(test)]
mod clauses;
#[cfg(test)]
mod copies;
#[cfg(test)]
mod deep_paths;
#[cfg(test)]
mod each_kind;
#[cfg(test)]
mod further_plans;
#[cfg(test)]
mod known_links;
#[cfg(test)]
mod named_trees;
#[cfg(test)]
mod picks;
#[cfg(test)]
mod plans;
#[cfg(test)]
mod stated;
#[cfg(test)]
mod tree_texts;
#[cfg(test)]
mod trees;
#[cfg(test)]
mod trials;
