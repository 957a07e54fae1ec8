//! What holds of texts within pages.

ghost use Rattle.html_texts.specs.Laws.{EscapedReadBack, NothingBare, VisibleStays};

/// What a browser reads of an escaped text is the text, of which no `<`, `>`, `&`, `"` and `'` stands bare.
pub fn escaped_texts_are_read()
    ensures read { EscapedReadBack }
    ensures bare { NothingBare }
{}

/// A text of characters that are shown as they are stays as it is.
pub fn visible_texts_stay()
    ensures { VisibleStays }
{}
