ghost use Rattle.std.specs.Prelude.{◌≡◌, ◌↔◌, IsTrue};
ghost use Rattle.feature_trees.specs.Kinds.{has, none, of, special, all, but, both, either};
ghost use Rattle.feature_trees.specs.Tree.{kind_of};

use crate::value::Value;
use script_names::{Copied, Memory};
use std::alloc::Global;

/// What is no directory, regular file or link: a pipe, a socket, a block device or a character device.
#[derive(Clone, Copy, Debug, PartialEq, Eq)]
pub enum Special {
    Fifo,
    Socket,
    Block,
    Char,
}

/// What kind of thing stands at a place.
#[derive(Clone, Copy, Debug, PartialEq, Eq)]
pub enum Kind {
    Absent,
    Reg,
    Link,
    Special(Special),
    Dir,
}

/// A set of kinds.
#[derive(Clone, Copy, Debug, PartialEq, Eq)]
pub struct Kinds {
    pub absent: bool,
    pub reg: bool,
    pub link: bool,
    pub fifo: bool,
    pub socket: bool,
    pub block: bool,
    pub char: bool,
    pub dir: bool,
}

impl Kinds {
    /// The empty set, for tables of constants.
    pub const NONE: Kinds = Kinds {
        absent: false,
        reg: false,
        link: false,
        fifo: false,
        socket: false,
        block: false,
        char: false,
        dir: false,
    };

    /// The set of the four special kinds, for tables of constants.
    pub const SPECIAL: Kinds = Kinds {
        absent: false,
        reg: false,
        link: false,
        fifo: true,
        socket: true,
        block: true,
        char: true,
        dir: false,
    };

    /// The set of all kinds, for tables of constants.
    pub const ALL: Kinds = Kinds {
        absent: true,
        reg: true,
        link: true,
        fifo: true,
        socket: true,
        block: true,
        char: true,
        dir: true,
    };

    /// The empty set.
    pub fn none() -> Kinds
        ensures { result ≡ none }
    {
        Kinds::NONE
    }

    /// The set of one kind alone.
    pub fn of(k: Kind) -> Kinds
        ensures { result ≡ of k }
    {
        Kinds {
            absent: k == Kind::Absent,
            reg: k == Kind::Reg,
            link: k == Kind::Link,
            fifo: k == Kind::Special(Special::Fifo),
            socket: k == Kind::Special(Special::Socket),
            block: k == Kind::Special(Special::Block),
            char: k == Kind::Special(Special::Char),
            dir: k == Kind::Dir,
        }
    }

    /// The set of the four special kinds.
    pub fn special() -> Kinds
        ensures { result ≡ special }
    {
        Kinds::SPECIAL
    }

    /// The set of all kinds.
    pub fn all() -> Kinds
        ensures { result ≡ all }
    {
        Kinds::ALL
    }

    /// All kinds but one.
    pub fn but(k: Kind) -> Kinds
        ensures { result ≡ but k }
    {
        Kinds {
            absent: k != Kind::Absent,
            reg: k != Kind::Reg,
            link: k != Kind::Link,
            fifo: k != Kind::Special(Special::Fifo),
            socket: k != Kind::Special(Special::Socket),
            block: k != Kind::Special(Special::Block),
            char: k != Kind::Special(Special::Char),
            dir: k != Kind::Dir,
        }
    }

    /// The kinds that are in both sets.
    pub fn both(a: Kinds, b: Kinds) -> Kinds
        ensures { result ≡ both a b }
    {
        Kinds {
            absent: a.absent && b.absent,
            reg: a.reg && b.reg,
            link: a.link && b.link,
            fifo: a.fifo && b.fifo,
            socket: a.socket && b.socket,
            block: a.block && b.block,
            char: a.char && b.char,
            dir: a.dir && b.dir,
        }
    }

    /// The kinds that are in one of the sets, or in both.
    pub fn either(a: Kinds, b: Kinds) -> Kinds
        ensures { result ≡ either a b }
    {
        Kinds {
            absent: a.absent || b.absent,
            reg: a.reg || b.reg,
            link: a.link || b.link,
            fifo: a.fifo || b.fifo,
            socket: a.socket || b.socket,
            block: a.block || b.block,
            char: a.char || b.char,
            dir: a.dir || b.dir,
        }
    }

    /// Whether a kind is in the set.
    pub fn has(&self, k: Kind) -> bool
        ensures { result ≡ has self.now k }
    {
        match k {
            Kind::Absent => self.absent,
            Kind::Reg => self.reg,
            Kind::Link => self.link,
            Kind::Special(Special::Fifo) => self.fifo,
            Kind::Special(Special::Socket) => self.socket,
            Kind::Special(Special::Block) => self.block,
            Kind::Special(Special::Char) => self.char,
            Kind::Dir => self.dir,
        }
    }

    /// Whether no kind is in the set.
    pub fn is_none(&self) -> bool
        ensures { IsTrue result ↔ (self.now ≡ none) }
    {
        *self == Kinds::NONE
    }
}

impl Copied for Special {
    fn copy(&self, _alloc: Global) -> Result<Special, Memory> {
        Ok(*self)
    }
}

impl Copied for Kind {
    fn copy(&self, _alloc: Global) -> Result<Kind, Memory> {
        Ok(*self)
    }
}

impl Copied for Kinds {
    fn copy(&self, _alloc: Global) -> Result<Kinds, Memory> {
        Ok(*self)
    }
}

impl Value {
    /// The kind of the value.
    pub fn kind(&self) -> Kind
        ensures { result ≡ kind_of self.now }
    {
        match self {
            Value::Absent => Kind::Absent,
            Value::Reg => Kind::Reg,
            Value::Link(_) => Kind::Link,
            Value::Special(s) => Kind::Special(*s),
            Value::Dir(_) => Kind::Dir,
        }
    }
}
