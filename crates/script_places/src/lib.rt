//! Places in scripts, and the words for people of what a report tells by numbers: the line and the column of a byte,
//! the source line as a terminal shows it with the command underlined, what each row of each act and each reason says,
//! the lines that no run reaches, and the words with which commands can begin. It stands on utility_calls, feature_trees, dpkg_scenarios, shown_texts, script_names
//! and bstr. Begin with specs/Positions.antt, specs/SourceLines.antt, specs/Unreached.antt and specs/WordPlaces.antt; the words stand in
//! specs/ActWords.antt, BackWords, ReasonWords, StepWords and KindWords, a table each.
#![tactic(auto)]

mod act_words;
mod back_words;
mod command_ends;
mod kind_words;
mod marked_deeds;
mod positions;
mod reach;
mod reasons;
mod source_lines;
mod step_words;
pub mod theorems;
mod word_places;

pub use act_words::{act_name, row_words};
pub use back_words::{back_name, back_row_words};
pub use command_ends::command_length;
pub use kind_words::push_kinds;
pub use marked_deeds::deed_of_mark;
pub use positions::{Position, line_count, passed_behind, position_of};
pub use reach::{CallLeft, Lines, joined, unreached};
pub use reasons::{reason_words, settling_words};
pub use source_lines::{SourceLine, shows, source_line};
pub use step_words::{scenario_words, script_words, state_words, work_words};
pub use word_places::{ends_word, first_word, first_words};
