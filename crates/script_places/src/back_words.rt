ghost use Rattle.std.specs.Prelude.{◌≡◌};
ghost use Rattle.script_places.specs.BackWords.{back_name, back_row_words, file_words, folder_words, own_back_words};

use utility_calls::backs::Back;

/// What is put back, in words.
pub fn back_name(back: &Back) -> &'static [u8]
    ensures { result.now ≡ back_name back.now }
{
    match back {
        Back::Folder(_) => b"putting back a folder",
        Back::File(_) => b"putting back a file",
    }
}

/// What a row of a back says, in a clause for people, in which "there" is its path; no bytes for a row that it does not
/// have.
pub fn back_row_words(back: &Back, row: u8) -> &'static [u8]
    ensures { result.now ≡ back_row_words back.now row }
{
    if row >= 1 && row <= 63 {
        return b"a link stands on the way";
    }
    own_back_words(back, row)
}

// A row of a back's own table.
fn own_back_words(back: &Back, row: u8) -> &'static [u8]
    ensures { result.now ≡ own_back_words back.now row }
{
    match back {
        Back::Folder(_) => folder_words(row),
        Back::File(_) => file_words(row),
    }
}

// a directory that may have been made
fn folder_words(row: u8) -> &'static [u8]
    ensures { result.now ≡ folder_words row }
{
    match row {
        66 => b"was there before, and stays",
        67 => b"no directory stands there",
        68 => b"it has an entry, and stays",
        69 => b"taken away",
        _ => b"",
    }
}

// what may have been replaced
fn file_words(row: u8) -> &'static [u8]
    ensures { result.now ≡ file_words row }
{
    match row {
        66 => b"the directory above is missing or is none",
        67 => b"a directory stands there, and stays",
        68 => b"put back as it was",
        69 => b"a directory was there before: nothing is put back",
        _ => b"",
    }
}
