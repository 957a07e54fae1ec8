//! What holds of the texts of programs.

ghost use Rattle.colis_reader.specs.ReadsProgram.{ProgramsReadBack, ProgramTextsApart};

/// The text of a program is read as the program.
pub fn programs_read_back()
    ensures { ProgramsReadBack }
{}

/// Programs with one text are one program.
pub fn program_texts_apart()
    ensures { ProgramTextsApart }
{}
