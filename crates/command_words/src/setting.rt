use crate::field::Field;
use script_names::Text;

/// What a word, or an option with its value, says: of what, and the text.
#[derive(Drop)]
pub struct Setting {
    pub field: Field,
    pub text: Text,
}
