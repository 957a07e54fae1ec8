//! The texts of a report: the plain one, the brief one and that of one run, and what they tell; a part of a report that
//! is told outcome by outcome, and never made. It stands on outcome_report, scenario_outcomes and shown_texts. Begin
//! with `render_text`, `render_brief`, `render_run` and specs/ReportText.antt, then `tell_part`, and `theorems`.
#![tactic(auto)]

mod brief_text;
mod place_text;
mod places;
mod report_names;
mod report_text;
mod representable;
mod representable_clauses;
mod representable_pieces;
mod representable_trees;
mod run_text;
pub mod theorems;
mod told_part;
mod told_report;

pub use brief_text::render_brief;
pub use places::{EndKind, EndPlace};
pub use report_text::{print_call, put_calls, put_result, render_pair, render_text};
pub use representable::is_representable;
pub use representable_clauses::{is_representable_clause, is_representable_literal};
pub use representable_pieces::{
    are_representable_marks, is_representable_call, is_representable_ending,
};
pub use representable_trees::is_representable_tree;
pub use run_text::render_run;
pub use told_part::{Telling, ToldPart, tell_part};
pub use told_report::{join_told, told_verdict};
