//! What there is to say to people of packages, as a page for a browser: what `explain` says of each group, folded, and
//! the scripts line by line, with how many outcomes have an act in a line and end there. It stands on explanation, whose
//! texts it shows, and on html_texts, which writes them into a page. Begin with specs/Parts.antt, specs/Details.antt and
//! specs/Rows.antt, and with `put_page_part`.
#![tactic(auto)]

mod anchors;
mod commands;
mod cut_lines;
mod details;
mod joined;
mod margins;
mod pages;
mod parts;
mod rows;
mod scripts;
mod shown_lines;
mod styles;
mod tables;

pub use cut_lines::{Cut, Line};
pub use details::verdict_class;
pub use pages::{put_item, put_items_end, put_page_begin, put_page_end};
pub use parts::{put_page_no_start, put_page_over, put_page_part};
pub use tables::Table;
