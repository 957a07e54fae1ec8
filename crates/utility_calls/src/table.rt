ghost use Rattle.std.specs.Prelude.{◌≡◌};
ghost use Rattle.utility_calls.specs.Backs.{back_rules};
ghost use Rattle.utility_calls.specs.Table.{first_row, rules, can_run_by, is_special_rules, remove_by};
ghost use Rattle.utility_calls.specs.Table.{symlink_by, move_by, copy_by};

use crate::acts::Act;
use crate::backs::Back;
use crate::sights::Effect::{
    Copies, CopiesInside, KeepsDir, LinksInside, MakesDir, MakesFile, MakesLink, Moves,
    MovesInside, TakesAway,
};
use crate::sights::Where::{
    Anything, Empty, Full, Inside, Into, IntoEmpty, IntoFull, Is, Outside, Within,
};
use crate::sights::{Effect, Row, Rule, Sight};
use feature_trees::{Kind, Kinds, Special};
use script_names::Done::{Failed, Stopped};
use script_names::{Done, Reason};

// The set of these kinds.
macro_rules! kinds {
    ($($kind:ident)+) => { Kinds { $($kind: true,)+ ..Kinds::NONE } };
}

// The set of these kinds, and of the four special ones.
macro_rules! special {
    ($($kind:ident)*) => { Kinds { $($kind: true,)* ..Kinds::SPECIAL } };
}

// All kinds but these.
macro_rules! but {
    ($($kind:ident)+) => { Kinds { $($kind: false,)+ ..Kinds::ALL } };
}

// A row that changes nothing.
macro_rules! leaves {
    ($number:expr, $place:expr, $answer:expr) => {
        Rule {
            number: $number,
            source: None,
            place: $place,
            answer: $answer,
            effect: Effect::Nothing,
        }
    };
}

// A row that succeeds and changes the tree.
macro_rules! does {
    ($number:expr, $place:expr, $effect:expr) => {
        Rule {
            number: $number,
            source: None,
            place: $place,
            answer: Done::Ok,
            effect: $effect,
        }
    };
}

// A row that changes nothing, for the kinds of what is moved or copied, or was kept.
macro_rules! leaves_from {
    ($number:expr, $source:expr, $place:expr, $answer:expr) => {
        Rule {
            number: $number,
            source: Some($source),
            place: $place,
            answer: $answer,
            effect: Effect::Nothing,
        }
    };
}

// A row that succeeds and changes the tree, for the kinds of what is moved or copied, or was kept.
macro_rules! does_from {
    ($number:expr, $source:expr, $place:expr, $effect:expr) => {
        Rule {
            number: $number,
            source: Some($source),
            place: $place,
            answer: Done::Ok,
            effect: $effect,
        }
    };
}

// The rows of the question whether something is of a special kind.
macro_rules! special_rows {
    ($kind:ident) => {
        &[
            STOPS, leaves!(66, Is(but!(link $kind)), Failed),
            leaves!(67, Is(kinds!($kind)), Done::Ok),
        ]
    };
}

const ABSENT: Kinds = kinds!(absent);

const REG: Kinds = kinds!(reg);

const LINK: Kinds = kinds!(link);

const DIR: Kinds = kinds!(dir);

// Anything that is there.
const SOME: Kinds = but!(absent);

// A regular file, or one of the four special kinds.
const FILE: Kinds = special!(reg);

// One of the four special kinds.
const SPECIAL: Kinds = special!();

// What is there and no directory.
const NO_DIR: Kinds = special!(reg link);

// Where an act does not follow a link.
const STOP: Done = Done::Stopped(Reason::Link);

// The row of an act that meets a link at its path.
const STOPS: Rule = leaves!(65, Is(LINK), STOP);

// The rows of `test -e`.
const EXISTS: &[Rule] = &[
    STOPS,
    leaves!(66, Is(ABSENT), Failed),
    leaves!(67, Is(special!(reg dir)), Done::Ok),
];

// The rows of `test -f`.
const IS_REG: &[Rule] = &[
    STOPS,
    leaves!(66, Is(special!(absent dir)), Failed),
    leaves!(67, Is(REG), Done::Ok),
];

// The rows of `test -d`.
const IS_DIR: &[Rule] = &[
    STOPS,
    leaves!(66, Is(special!(absent reg)), Failed),
    leaves!(67, Is(DIR), Done::Ok),
];

// The rows of `test -h`.
const IS_LINK: &[Rule] = &[
    leaves!(66, Is(but!(link)), Failed),
    leaves!(67, Is(LINK), Done::Ok),
];

// The rows of `test -x`; nothing says whether a file may be run.
const CAN_RUN: &[Rule] = &[
    STOPS,
    leaves!(66, Is(ABSENT), Failed),
    leaves!(67, Is(DIR), Done::Ok),
    leaves!(68, Is(FILE), Stopped(Reason::Run)),
];

// The rows of `test -x` where a regular file may be run; nothing says whether a special file may.
const CAN_RUN_FILE: &[Rule] = &[
    STOPS,
    leaves!(66, Is(ABSENT), Failed),
    leaves!(67, Is(kinds!(reg dir)), Done::Ok),
    leaves!(68, Is(special!()), Stopped(Reason::Run)),
];

// The rows of `test -p`.
const IS_FIFO: &[Rule] = special_rows!(fifo);

// The rows of `test -S`.
const IS_SOCKET: &[Rule] = special_rows!(socket);

// The rows of `test -b`.
const IS_BLOCK: &[Rule] = special_rows!(block);

// The rows of `test -c`.
const IS_CHAR: &[Rule] = special_rows!(char);

// The rows of `mkdir`.
const MAKE_DIR: &[Rule] = &[
    leaves!(66, Outside, Failed),
    leaves!(67, Is(SOME), Failed),
    does!(68, Inside(ABSENT), MakesDir),
];

// The rows of one directory of `mkdir -p`.
const ENSURE_DIR: &[Rule] = &[
    STOPS,
    leaves!(66, Outside, Failed),
    leaves!(67, Is(FILE), Failed),
    does!(68, Inside(kinds!(absent dir)), KeepsDir),
];

// The rows of `rmdir`.
const REMOVE_DIR: &[Rule] = &[
    leaves!(66, Is(but!(dir)), Failed),
    leaves!(67, Full, Failed),
    does!(68, Empty, TakesAway),
];

// The rows of `rm`.
const REMOVE: &[Rule] = &[
    leaves!(66, Is(ABSENT), Failed),
    leaves!(67, Is(DIR), Failed),
    does!(68, Is(NO_DIR), TakesAway),
];

// The rows of `rm -r`.
const REMOVE_DEEP: &[Rule] = &[
    leaves!(66, Is(ABSENT), Failed),
    does!(69, Is(SOME), TakesAway),
];

// The rows of `rm -f`.
const REMOVE_FORCE: &[Rule] = &[
    leaves!(67, Is(DIR), Failed),
    leaves!(70, Outside, Done::Ok),
    does!(71, Inside(but!(dir)), TakesAway),
];

// The rows of `rm -rf`.
const REMOVE_FORCE_DEEP: &[Rule] = &[leaves!(70, Outside, Done::Ok), does!(72, Within, TakesAway)];

// The rows of `touch`.
const TOUCH: &[Rule] = &[
    STOPS,
    leaves!(66, Outside, Failed),
    does!(67, Inside(kinds!(absent reg)), MakesFile),
    leaves!(68, Is(special!(dir)), Done::Ok),
];

// The rows of a regular file of a package that is placed.
const PLACE_FILE: &[Rule] = &[
    leaves!(66, Outside, Failed),
    leaves!(67, Is(DIR), Failed),
    does!(68, Inside(but!(dir)), MakesFile),
];

// The rows of a link of a package that is placed.
const PLACE_LINK: &[Rule] = &[
    leaves!(66, Outside, Failed),
    leaves!(67, Is(DIR), STOP),
    does!(68, Inside(but!(dir)), MakesLink),
];

// The rows of a configuration file of a package that is placed.
const PLACE_CONF: &[Rule] = &[
    leaves!(66, Outside, Failed),
    leaves!(67, Is(DIR), Failed),
    does!(68, Inside(kinds!(absent reg)), MakesFile),
    leaves!(69, Is(special!(link)), Stopped(Reason::Conffile)),
];

// The rows of what is discarded unless it is a directory.
const DISCARD: &[Rule] = &[
    leaves!(66, Outside, Done::Ok),
    leaves!(67, Is(DIR), Done::Ok),
    does!(68, Inside(but!(dir)), TakesAway),
];

// The rows of an empty directory that is discarded.
const DISCARD_DIR: &[Rule] = &[
    leaves!(66, Is(but!(dir)), Done::Ok),
    leaves!(67, Full, Done::Ok),
    does!(68, Empty, TakesAway),
];

// The rows of `ln -s`; W is what stands under the target's last name.
const SYMLINK: &[Rule] = &[
    STOPS,
    leaves!(66, Outside, Failed),
    leaves!(67, Is(FILE), Failed),
    does!(68, Inside(ABSENT), MakesLink),
    leaves!(70, Into(SOME), Failed),
    does!(71, Into(ABSENT), LinksInside),
];

// The rows of `ln -sf`.
const SYMLINK_FORCE: &[Rule] = &[
    STOPS,
    leaves!(66, Outside, Failed),
    does!(69, Inside(special!(absent reg)), MakesLink),
    leaves!(72, Into(DIR), Failed),
    does!(73, Into(but!(dir)), LinksInside),
];

// The rows of `mv` to a path below the moved one.
const MOVE_BELOW: &[Rule] = &[STOPS, leaves!(66, Is(but!(link)), Failed)];

// The rows of `mv` to another path; W is what stands there under the moved path's last name.
const MOVE: &[Rule] = &[
    leaves_from!(65, SOME, Is(LINK), STOP),
    leaves_from!(66, ABSENT, Anything, Failed),
    leaves_from!(67, SOME, Outside, Failed),
    does_from!(68, NO_DIR, Inside(ABSENT), Moves),
    does_from!(69, DIR, Inside(ABSENT), Moves),
    leaves_from!(70, DIR, Is(FILE), Failed),
    does_from!(71, NO_DIR, Into(ABSENT), MovesInside),
    leaves_from!(72, NO_DIR, Into(DIR), Failed),
    does_from!(73, DIR, Into(ABSENT), MovesInside),
    leaves_from!(74, DIR, Into(NO_DIR), Failed),
    leaves_from!(75, DIR, IntoFull, Failed),
    does_from!(76, DIR, IntoEmpty, MovesInside),
    does_from!(77, FILE, Is(FILE), Moves),
    leaves_from!(78, LINK, Is(FILE), Stopped(Reason::Same)),
    does_from!(79, FILE, Into(FILE), MovesInside),
    leaves_from!(80, LINK, Into(NO_DIR), Stopped(Reason::Same)),
    leaves_from!(81, FILE, Into(LINK), Stopped(Reason::Same)),
];

// The rows of `chmod`, `chown` and `chgrp`.
const ATTR: &[Rule] = &[
    STOPS,
    leaves!(66, Is(ABSENT), Failed),
    leaves!(67, Is(special!(reg dir)), Done::Ok),
];

// The rows of `cp`; W is what stands at the second path under the first path's last name.
const COPY: &[Rule] = &[
    leaves_from!(65, LINK, Anything, STOP),
    leaves_from!(66, ABSENT, Anything, Failed),
    leaves_from!(67, DIR, Anything, Failed),
    leaves_from!(68, REG, Outside, Failed),
    does_from!(69, REG, Inside(kinds!(absent reg)), Copies),
    leaves_from!(70, REG, Is(LINK), STOP),
    leaves_from!(71, REG, Is(SPECIAL), Stopped(Reason::Run)),
    does_from!(72, REG, Into(kinds!(absent reg)), CopiesInside),
    leaves_from!(73, REG, Into(LINK), STOP),
    leaves_from!(74, REG, Into(SPECIAL), Stopped(Reason::Run)),
    leaves_from!(75, REG, Into(DIR), Failed),
    leaves_from!(82, SPECIAL, Anything, Stopped(Reason::Run)),
];

// The rows of `cp -r`.
const COPY_DEEP: &[Rule] = &[
    leaves_from!(65, LINK, Anything, STOP),
    leaves_from!(66, ABSENT, Anything, Failed),
    leaves_from!(68, REG, Outside, Failed),
    does_from!(69, REG, Inside(kinds!(absent reg)), Copies),
    leaves_from!(70, REG, Is(LINK), STOP),
    leaves_from!(71, REG, Is(SPECIAL), Stopped(Reason::Run)),
    does_from!(72, REG, Into(kinds!(absent reg)), CopiesInside),
    leaves_from!(73, REG, Into(LINK), STOP),
    leaves_from!(74, REG, Into(SPECIAL), Stopped(Reason::Run)),
    leaves_from!(75, REG, Into(DIR), Failed),
    leaves_from!(76, DIR, Outside, Failed),
    does_from!(77, DIR, Inside(ABSENT), Copies),
    leaves_from!(78, DIR, Is(FILE), Failed),
    leaves_from!(79, DIR, Is(LINK), STOP),
    does_from!(80, DIR, Into(ABSENT), CopiesInside),
    leaves_from!(81, DIR, Into(DIR), Stopped(Reason::Call)),
    leaves_from!(82, SPECIAL, Anything, Stopped(Reason::Run)),
    leaves_from!(83, DIR, Into(FILE), Failed),
    leaves_from!(84, DIR, Into(LINK), STOP),
];

// The rows of a directory that is put back.
const FOLDER: &[Rule] = &[
    leaves_from!(66, SOME, Anything, Done::Ok),
    leaves_from!(67, ABSENT, Is(but!(dir)), Done::Ok),
    leaves_from!(68, ABSENT, Full, Done::Ok),
    does_from!(69, ABSENT, Empty, TakesAway),
];

// The rows of what is put back in place of a file or a link.
const REPLACED: &[Rule] = &[
    leaves!(66, Outside, Done::Ok),
    leaves!(67, Is(DIR), Done::Ok),
    does_from!(68, but!(dir), Inside(but!(dir)), Moves),
    leaves_from!(69, DIR, Inside(but!(dir)), Done::Ok),
];

// The rows of the question whether something is of a special kind.
fn is_special(kind: Special) -> &'static [Rule]
    ensures { result.now ≡ is_special_rules kind }
{
    match kind {
        Special::Fifo => IS_FIFO,
        Special::Socket => IS_SOCKET,
        Special::Block => IS_BLOCK,
        Special::Char => IS_CHAR,
    }
}

// The rows of `test -x` by whether a regular file may be run.
fn can_run_by(runs: bool) -> &'static [Rule]
    ensures { result.now ≡ can_run_by runs }
{
    if runs { CAN_RUN_FILE } else { CAN_RUN }
}

// The rows of `rm` by its options.
fn remove_by(force: bool, deep: bool) -> &'static [Rule]
    ensures { result.now ≡ remove_by force deep }
{
    match (force, deep) {
        (false, false) => REMOVE,
        (false, true) => REMOVE_DEEP,
        (true, false) => REMOVE_FORCE,
        (true, true) => REMOVE_FORCE_DEEP,
    }
}

// The rows of `ln -s` by its option.
fn symlink_by(force: bool) -> &'static [Rule]
    ensures { result.now ≡ symlink_by force }
{
    if force { SYMLINK_FORCE } else { SYMLINK }
}

// The rows of `mv` by whether its second path is below its first.
fn move_by(below: bool) -> &'static [Rule]
    ensures { result.now ≡ move_by below }
{
    if below { MOVE_BELOW } else { MOVE }
}

// The rows of `cp` by its option.
fn copy_by(deep: bool) -> &'static [Rule]
    ensures { result.now ≡ copy_by deep }
{
    if deep { COPY_DEEP } else { COPY }
}

// The first row that applies to what is moved or copied, or was kept, and to what is seen.
fn first_row(rules: &[Rule], source: Kind, seen: &Sight) -> Row
    ensures { result ≡ first_row rules.now source seen.now }
{
    for rule in rules {
        if rule.holds(source, seen) {
            return rule.row();
        }
    }
    Row {
        number: 0,
        answer: Done::Failed,
        effect: Effect::Nothing,
    }
}

impl Act {
    /// The rows of the act's own table; those of a move by whether its second path is below its first.
    pub fn rules(&self, below: bool) -> &'static [Rule]
        ensures { result.now ≡ rules below self.now }
    {
        match self {
            Act::Exists(_) => EXISTS,
            Act::IsReg(_) => IS_REG,
            Act::IsDir(_) => IS_DIR,
            Act::IsLink(_) => IS_LINK,
            Act::CanRun { p: _, runs } => can_run_by(*runs),
            Act::IsSpecial { p: _, kind } => is_special(*kind),
            Act::MakeDir(_) => MAKE_DIR,
            Act::EnsureDir(_) => ENSURE_DIR,
            Act::RemoveDir(_) => REMOVE_DIR,
            Act::Remove { p: _, force, deep } => remove_by(*force, *deep),
            Act::Touch(_) => TOUCH,
            Act::Symlink {
                p: _,
                target: _,
                last: _,
                force,
            } => symlink_by(*force),
            Act::Move { a: _, b: _ } => move_by(below),
            Act::Attr(_) => ATTR,
            Act::Copy { a: _, b: _, deep } => copy_by(*deep),
            Act::PlaceFile(_) => PLACE_FILE,
            Act::PlaceLink { p: _, target: _ } => PLACE_LINK,
            Act::PlaceConf(_) => PLACE_CONF,
            Act::Discard(_) => DISCARD,
            Act::DiscardDir(_) => DISCARD_DIR,
        }
    }

    /// The row of the act's own table that applies to what is seen on a tree, by the kind of what is moved or copied,
    /// and by whether a move's second path is below its first.
    pub fn own_row(&self, below: bool, source: Kind, seen: &Sight) -> Row
        ensures { result ≡ first_row (rules below self.now) source seen.now }
    {
        first_row(self.rules(below), source, seen)
    }
}

impl Back {
    /// The rows of the back's table.
    pub fn rules(&self) -> &'static [Rule]
        ensures { result.now ≡ back_rules self.now }
    {
        match self {
            Back::Folder(_) => FOLDER,
            Back::File(_) => REPLACED,
        }
    }

    /// The row of the back's table that applies to what is seen on a tree, by the kind of what stood at the path in the
    /// kept tree.
    pub fn own_row(&self, kept: Kind, seen: &Sight) -> Row
        ensures { result ≡ first_row (back_rules self.now) kept seen.now }
    {
        first_row(self.rules(), kept, seen)
    }
}
