ghost use Rattle.shell_to_colis.specs.Laws.{ProgramsDoTheSame};
ghost use Rattle.shell_to_colis.specs.Specials.{SpecialsBecomeTheirs};

/// The program of each script does what the script does.
pub fn programs_do_the_same()
    ensures { ProgramsDoTheSame }
{}

/// Each special built-in of the list of script_names becomes its own statement, and `:` one of a utility.
pub fn special_built_ins_become_statements()
    ensures { SpecialsBecomeTheirs }
{}
