//! Texts within pages of HTML: bytes are shown as everywhere else, characters as they are, controls and bytes that are
//! no UTF-8 spelled; and what has a meaning of its own in a page is escaped. It stands on script_places, which says
//! which characters are shown as they are, and on shown_texts. Begin with specs/Escaped.antt; `theorems` says that a
//! browser reads the text again, and that nothing of it stands bare.
#![tactic(auto)]

mod escaping;
pub mod theorems;
mod visible;

pub use escaping::push_html;
