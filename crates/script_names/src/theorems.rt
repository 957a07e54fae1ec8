//! What holds of words, paths and their parents, and of the names of commands, for the layers above.

ghost use Rattle.script_names.specs.Laws.{JoinsAgain, HasNoSlash, SpellsNames, ParentOfJoin, ParentBegins};
ghost use Rattle.script_names.specs.Laws.{JoinIsLonger};
ghost use Rattle.script_names.specs.CommandNames.{utilities, special_built_ins};
ghost use Rattle.script_names.specs.CommandLaws.{NamesAreFound, EachRowCounts, UtilitiesHaveNames, SpecialsHaveNames};
ghost use Rattle.script_names.specs.CommandLaws.{OnlyColonIsBoth, MeaningsAreKeptOrFree};
ghost use Rattle.script_names.specs.CommandLaws.{FreeNamesAreNotKept};

/// The components of a word are its cut at the slashes: joined they are the word again, and none has a slash.
pub fn components_are_the_cut()
    ensures joined { JoinsAgain }
    ensures plain { HasNoSlash }
{}

/// A word without fault spells names.
pub fn words_spell_names()
    ensures { SpellsNames }
{}

/// A parent has all names but the last.
pub fn parents_and_joins()
    ensures parent { ParentOfJoin }
    ensures begins { ParentBegins }
    ensures longer { JoinIsLonger }
{}

/// A name is found exactly where it is in the list, and each row of the list counts.
pub fn names_are_found()
    ensures utilities { NamesAreFound utilities }
    ensures specials { NamesAreFound special_built_ins }
    ensures utility_rows { EachRowCounts utilities }
    ensures special_rows { EachRowCounts special_built_ins }
{}

/// Each utility and each special built-in has a name, only `:` is that of both, and no function may have any of them but
/// the names of `unlink`, `install`, `chmod`, `chown`, `chgrp`, `cp`, `basename` and `dirname`.
pub fn commands_have_names()
    ensures utilities { UtilitiesHaveNames }
    ensures specials { SpecialsHaveNames }
    ensures both { OnlyColonIsBoth }
    ensures sorts { MeaningsAreKeptOrFree }
    ensures free { FreeNamesAreNotKept }
{}
