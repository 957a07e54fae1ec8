ghost use Rattle.std.specs.Prelude.{◌≡◌};
ghost use Rattle.shell_forms.specs.Forms.{script_place, within, member, looped, apart, function_body, may_define};

/// Where a command stands in a script.
#[derive(Clone, Copy, Debug, PartialEq, Eq)]
pub enum Standing {
    /// It is the whole script.
    Whole,
    /// It is a whole member of the script's own list.
    Member,
    /// It stands inside of another command.
    Within,
}

/// What the place of a command in a script allows.
#[derive(Clone, Copy, Debug)]
pub struct Place {
    pub standing: Standing,
    /// It stands in a loop of its own function, subshell or substitution.
    pub in_loop: bool,
    /// It stands in a function's body, and in no subshell or substitution of that.
    pub may_return: bool,
    /// The byte offset of the definition in whose body it stands.
    pub defined_at: Option<u32>,
}

impl Place {
    /// The place of the script's body.
    pub(crate) fn of_script() -> Place
        ensures { result ≡ script_place }
    {
        Place {
            standing: Standing::Whole,
            in_loop: false,
            may_return: false,
            defined_at: None,
        }
    }

    /// Inside of the command that stands here.
    pub(crate) fn within(self) -> Place
        ensures { result ≡ within self }
    {
        Place {
            standing: Standing::Within,
            ..self
        }
    }

    /// A member of the list that stands here.
    pub(crate) fn member(self) -> Place
        ensures { result ≡ member self }
    {
        let standing = match self.standing {
            Standing::Whole => Standing::Member,
            Standing::Member | Standing::Within => Standing::Within,
        };
        Place { standing, ..self }
    }

    /// In the loop that stands here.
    pub(crate) fn looped(self) -> Place
        ensures { result ≡ looped self }
    {
        Place {
            standing: Standing::Within,
            in_loop: true,
            ..self
        }
    }

    /// In the subshell or substitution that stands here.
    pub(crate) fn apart(self) -> Place
        ensures { result ≡ apart self }
    {
        Place {
            standing: Standing::Within,
            in_loop: false,
            may_return: false,
            ..self
        }
    }

    /// In the body of the function whose definition stands at this offset.
    pub(crate) fn function_body(at: u32) -> Place
        ensures { result ≡ function_body at }
    {
        Place {
            standing: Standing::Within,
            in_loop: false,
            may_return: true,
            defined_at: Some(at),
        }
    }

    /// Whether a definition may stand here.
    pub(crate) fn may_define(self) -> bool
        ensures { result ≡ may_define self.standing }
    {
        match self.standing {
            Standing::Whole | Standing::Member => true,
            Standing::Within => false,
        }
    }
}
