//! What there is to say to people of a scenario: how it ends, at which places of which scripts, on which systems, how
//! the run comes there, and what it changes. It stands on outcome_groups, which joins the outcomes that end alike and
//! tells on which systems they come, on script_places, which has lines, columns and words, and on outcome_report. Begin
//! with specs/Sections.antt, and with `put_part`.
#![tactic(auto)]

mod alike;
mod braces;
mod changes;
mod counting;
mod courses;
mod facts_text;
mod groups_text;
mod head;
mod lines_left;
mod outcome_text;
mod premises;
mod scripts;
mod sections;
mod spots;
mod stated_text;
mod text_words;
mod told_text;

pub use alike::{is_first, is_further};
pub use counting::put_counted;
pub use groups_text::{first_entry, has_verdict, put_group_body, put_group_title};
pub use head::{put_counts, put_legend, put_package, verdict_words};
pub use lines_left::{is_alone, unreached_lines};
pub use premises::put_premises;
pub use scripts::{put_script_file, script_text};
pub use sections::{part_verdict, put_no_start, put_over, put_part};
pub use spots::{Spot, put_spot, spot_of};
