ghost use Rattle.std.specs.Prelude.{◌≡◌, not, ◌&&◌, ◌||◌, [], ◌∷◌, map, codes, None, IfOk};
ghost use Rattle.shell_forms.specs.First.{script_forms};
ghost use Rattle.shell_forms.specs.Forms.{forms_of, word_says, assign_says, case_arm_says, if_arm_says, link_says};
ghost use Rattle.shell_forms.specs.Forms.{in_word, in_words, in_assigns, in_pattern, in_patterns, in_arms};
ghost use Rattle.shell_forms.specs.Forms.{in_case_arms, all_of, simple_forms, define_forms, calls_later, is_earlier};
ghost use Rattle.shell_forms.specs.Forms.{is_name as is_name_of, is_named, are_any};
ghost use Rattle.shell_forms.specs.Known.{first_in};
ghost use Rattle.shell_forms.specs.Seen.{static_name_of, operands_of, is_prefix_in, in_part, is_one_flag_in};
ghost use Rattle.shell_forms.specs.Seen.{some_unquoted_in};
ghost use Rattle.shell_forms.specs.Soonest.{soonest};

use crate::found::{Found, found_if};
use crate::functions::Functions;
use crate::place::Place;
use crate::words::{
    is, is_all_alone, is_name, is_one_flag, sets_ifs, some_runs, some_unquoted, static_name,
};
use script_names::{Bytes, Memory, is_kept_name, is_special_name};
use shell_syntax::{Assign, CaseArm, Command, Form, IfArm, Link, Part, Word};
use std::alloc::Global;

/// The first form that stands in a script, by its body.
pub(crate) fn first_form(alloc: Global, body: &Command) -> Result<Option<Found>, Memory>
    ensures { IfOk result (λ found. found ≡ soonest None (script_forms body.now)) }
{
    let functions = Functions::of(alloc, body)?;
    in_command(alloc, &functions, body, Place::of_script(), None)
}

// The first of those so far and the forms that a simple command itself is.
fn simple_forms(
    alloc: Global,
    functions: &Functions,
    at: u32,
    assigns: &[Assign],
    words: &[Word],
    place: Place,
    first: Option<Found>,
) -> Result<Option<Found>, Memory>
    ensures { let known = first_in functions.now in
        let assigned = map (assign_says known) assigns.now in
        let said = map (word_says known) words.now in
        IfOk result (λ found. found ≡ soonest first (simple_forms known at assigned said place)) }
{
    let name = static_name(alloc, words)?;
    let operands = operands(words);
    let first = found_if(
        first,
        sets_option(alloc, &name, operands)?,
        Form::Option,
        at,
    );
    let first = found_if(first, sets_ifs(assigns), Form::Ifs, at);
    let first = found_if(
        first,
        is_prefix(functions, &name, assigns, words),
        Form::Prefix,
        at,
    );
    let first = found_if(first, exports_unquoted(&name, operands), Form::Export, at);
    let first = found_if(
        first,
        leaves_no_loop(&name, operands, place),
        Form::LoopExit,
        at,
    );
    let first = found_if(first, leaves_no_function(&name, place), Form::Return, at);
    let is_later = calls_later(functions, place.defined_at, &name);
    Ok(found_if(first, is_later, Form::CallOrder, at))
}

// Whether a command is `set` with other words than the one static `-e` or `+e`.
fn sets_option(alloc: Global, name: &Option<Bytes>, operands: &[Word]) -> Result<bool, Memory>
    ensures { IfOk result (λ is. is ≡ (is_name_of name.now (codes "set") && not (is_one_flag_in operands.now))) }
{
    if !is_name(name, b"set") {
        return Ok(false);
    }
    let is_flag = is_one_flag(alloc, operands)?;
    Ok(!is_flag)
}

// Whether a command is `export` with an unquoted expansion in an operand.
fn exports_unquoted(name: &Option<Bytes>, operands: &[Word]) -> bool
    ensures { result ≡ (is_name_of name.now (codes "export") && some_unquoted_in operands.now) }
{
    is_name(name, b"export") && some_unquoted(operands)
}

// Whether a command is `break` or `continue` with a further word, or outside a loop.
fn leaves_no_loop(name: &Option<Bytes>, operands: &[Word], place: Place) -> bool
    ensures { let exits = codes "break" ∷ codes "continue" ∷ [] in
        result ≡ (is_named name.now exits && (are_any operands.now || not place.in_loop)) }
{
    let is_exit = is_name(name, b"break") || is_name(name, b"continue");
    is_exit && (!operands.is_empty() || !place.in_loop)
}

// Whether a command is `return` outside a function's body.
fn leaves_no_function(name: &Option<Bytes>, place: Place) -> bool
    ensures { result ≡ (is_name_of name.now (codes "return") && not place.may_return) }
{
    is_name(name, b"return") && !place.may_return
}

// The words behind the first.
fn operands(words: &[Word]) -> &[Word]
    ensures { result.now ≡ operands_of words.now }
{
    match words {
        [] => words,
        [_, rest @ ..] => rest,
    }
}

// Whether assignments stand before a name that is not static, is a function's or a special built-in's, or with a
// substitution in a value.
fn is_prefix(
    functions: &Functions,
    name: &Option<Bytes>,
    assigns: &[Assign],
    words: &[Word],
) -> bool
    requires { name.now ≡ static_name_of words.now }
    ensures { result ≡ is_prefix_in (first_in functions.now) assigns.now words.now }
{
    if assigns.is_empty() || words.is_empty() {
        return false;
    }
    match name {
        None => true,
        Some(name) => functions.first(name.as_slice()).is_some()
            || is_special_name(name.as_slice())
            || some_runs(assigns),
    }
}

// In the body of a function that is defined at the offset, whether a name is that of a function which is not defined
// before it.
fn calls_later(functions: &Functions, defined_at: Option<u32>, name: &Option<Bytes>) -> bool
    ensures { result ≡ calls_later (first_in functions.now) defined_at name.now }
{
    match (defined_at, name) {
        (Some(at), Some(name)) => match functions.first(name.as_slice()) {
            None => false,
            Some(first) => first >= at,
        },
        _ => false,
    }
}

// The first of those so far and the forms that a definition itself is.
fn define_forms(
    functions: &Functions,
    at: u32,
    name: &Bytes,
    place: Place,
    first: Option<Found>,
) -> Option<Found>
    ensures { result ≡ soonest first (define_forms (first_in functions.now) at name.now place) }
{
    let first = found_if(first, !place.may_define(), Form::FunctionPlace, at);
    let first = found_if(
        first,
        is_earlier(functions, name, at),
        Form::FunctionTwice,
        at,
    );
    found_if(first, is_kept_name(name.as_slice()), Form::FunctionName, at)
}

// Whether a function of this name is defined before the offset.
fn is_earlier(functions: &Functions, name: &Bytes, at: u32) -> bool
    ensures { result ≡ is_earlier (first_in functions.now) name.now at }
{
    match functions.first(name.as_slice()) {
        None => false,
        Some(first) => first < at,
    }
}

// The first of those so far and the forms that stand in a command, and likewise in each part of one.
#[cycle(finding)]
fn in_command(
    alloc: Global,
    functions: &Functions,
    command: &Command,
    place: Place,
    first: Option<Found>,
) -> Result<Option<Found>, Memory>
    ensures { IfOk result (λ found. found ≡ soonest first (forms_of (first_in functions.now) command.now place)) }
{
    match command {
        Command::Simple { at, assigns, words } => {
            let assigns = assigns.as_slice();
            let words = words.as_slice();
            let first = simple_forms(alloc, functions, *at, assigns, words, place, first)?;
            let first = in_assigns(alloc, functions, assigns, place, first)?;
            in_words(alloc, functions, words, place, first)
        }
        Command::Redirected { body, .. } => in_command(
            alloc,
            functions,
            body.get(),
            place.within(),
            first,
        ),
        Command::Pipe { parts, .. } => in_commands(
            alloc,
            functions,
            parts.as_slice(),
            place.within(),
            first,
        ),
        Command::Not { body, .. } => in_command(
            alloc,
            functions,
            body.get(),
            place.within(),
            first,
        ),
        Command::Chain { first: head, rest } => {
            let first = in_command(alloc, functions, head.get(), place.within(), first)?;
            in_links(alloc, functions, rest.as_slice(), place.within(), first)
        }
        Command::Seq(parts) => in_commands(
            alloc,
            functions,
            parts.as_slice(),
            place.member(),
            first,
        ),
        Command::If {
            arms,
            otherwise,
            ..
        } => {
            let first = in_arms(alloc, functions, arms.as_slice(), place.within(), first)?;
            match otherwise {
                None => Ok(first),
                Some(body) => in_command(alloc, functions, body.get(), place.within(), first),
            }
        }
        Command::For {
            at,
            name,
            words,
            body,
        } => {
            let first = found_if(first, is(name.as_slice(), b"IFS"), Form::Ifs, *at);
            match words {
                None => in_command(alloc, functions, body.get(), place.looped(), first),
                Some(words) => {
                    let first = in_words(alloc, functions, words.as_slice(), place, first)?;
                    in_command(alloc, functions, body.get(), place.looped(), first)
                }
            }
        }
        Command::While { cond, body, .. } => {
            let first = in_command(alloc, functions, cond.get(), place.looped(), first)?;
            in_command(alloc, functions, body.get(), place.looped(), first)
        }
        Command::Case { subject, arms, .. } => {
            let first = in_pattern(alloc, functions, subject, place, first)?;
            in_case_arms(alloc, functions, arms.as_slice(), place.within(), first)
        }
        Command::Sub { body, .. } => in_command(alloc, functions, body.get(), place.apart(), first),
        Command::Define { at, name, body } => {
            let first = define_forms(functions, *at, name, place, first);
            in_command(
                alloc,
                functions,
                body.get(),
                Place::function_body(*at),
                first,
            )
        }
    }
}

#[cycle(finding)]
fn in_part(
    alloc: Global,
    functions: &Functions,
    part: &Part,
    place: Place,
    first: Option<Found>,
) -> Result<Option<Found>, Memory>
    ensures { IfOk result (λ found. found ≡ soonest first (in_part (first_in functions.now) part.now place)) }
{
    match part {
        Part::Run { body, .. } => in_command(alloc, functions, body.get(), place.apart(), first),
        Part::Plain(_) | Part::Quoted(_) | Part::Param { .. } | Part::All => Ok(first),
    }
}

#[cycle(finding)]
fn in_word(
    alloc: Global,
    functions: &Functions,
    word: &Word,
    place: Place,
    first: Option<Found>,
) -> Result<Option<Found>, Memory>
    ensures { let known = first_in functions.now in
        IfOk result (λ found. found ≡ soonest first (in_word (word_says known word.now) place)) }
{
    let mut first = first;
    for part in word.parts.as_slice() {
        first = in_part(alloc, functions, part, place, first)?;
    }
    Ok(first)
}

#[cycle(finding)]
fn in_pattern(
    alloc: Global,
    functions: &Functions,
    word: &Word,
    place: Place,
    first: Option<Found>,
) -> Result<Option<Found>, Memory>
    ensures { let known = first_in functions.now in
        IfOk result (λ found. found ≡ soonest first (in_pattern (word_says known word.now) place)) }
{
    let first = found_if(first, is_all_alone(word), Form::AllArgs, word.at);
    in_word(alloc, functions, word, place, first)
}

#[cycle(finding)]
fn in_words(
    alloc: Global,
    functions: &Functions,
    words: &[Word],
    place: Place,
    first: Option<Found>,
) -> Result<Option<Found>, Memory>
    ensures { let known = first_in functions.now in
        IfOk result (λ found. found ≡ soonest first (in_words (map (word_says known) words.now) place)) }
{
    let mut first = first;
    for word in words {
        first = in_word(alloc, functions, word, place, first)?;
    }
    Ok(first)
}

#[cycle(finding)]
fn in_assigns(
    alloc: Global,
    functions: &Functions,
    assigns: &[Assign],
    place: Place,
    first: Option<Found>,
) -> Result<Option<Found>, Memory>
    ensures { let known = first_in functions.now in
        IfOk result (λ found. found ≡ soonest first (in_assigns (map (assign_says known) assigns.now) place)) }
{
    let mut first = first;
    for assign in assigns {
        first = in_word(alloc, functions, &assign.value, place, first)?;
    }
    Ok(first)
}

#[cycle(finding)]
fn in_patterns(
    alloc: Global,
    functions: &Functions,
    words: &[Word],
    place: Place,
    first: Option<Found>,
) -> Result<Option<Found>, Memory>
    ensures { let known = first_in functions.now in
        IfOk result (λ found. found ≡ soonest first (in_patterns (map (word_says known) words.now) place)) }
{
    let mut first = first;
    for word in words {
        first = in_pattern(alloc, functions, word, place, first)?;
    }
    Ok(first)
}

#[cycle(finding)]
fn in_commands(
    alloc: Global,
    functions: &Functions,
    commands: &[Command],
    place: Place,
    first: Option<Found>,
) -> Result<Option<Found>, Memory>
    ensures { let known = first_in functions.now in
        IfOk result (λ found. found ≡ soonest first (all_of (map (forms_of known) commands.now) place)) }
{
    let mut first = first;
    for command in commands {
        first = in_command(alloc, functions, command, place, first)?;
    }
    Ok(first)
}

#[cycle(finding)]
fn in_links(
    alloc: Global,
    functions: &Functions,
    links: &[Link],
    place: Place,
    first: Option<Found>,
) -> Result<Option<Found>, Memory>
    ensures { let known = first_in functions.now in
        IfOk result (λ found. found ≡ soonest first (all_of (map (link_says known) links.now) place)) }
{
    let mut first = first;
    for link in links {
        first = in_command(alloc, functions, &link.command, place, first)?;
    }
    Ok(first)
}

#[cycle(finding)]
fn in_arms(
    alloc: Global,
    functions: &Functions,
    arms: &[IfArm],
    place: Place,
    first: Option<Found>,
) -> Result<Option<Found>, Memory>
    ensures { let known = first_in functions.now in
        IfOk result (λ found. found ≡ soonest first (in_arms (map (if_arm_says known) arms.now) place)) }
{
    let mut first = first;
    for arm in arms {
        first = in_command(alloc, functions, &arm.cond, place, first)?;
        first = in_command(alloc, functions, &arm.body, place, first)?;
    }
    Ok(first)
}

#[cycle(finding)]
fn in_case_arms(
    alloc: Global,
    functions: &Functions,
    arms: &[CaseArm],
    place: Place,
    first: Option<Found>,
) -> Result<Option<Found>, Memory>
    ensures { let known = first_in functions.now in
        IfOk result (λ found. found ≡ soonest first (in_case_arms (map (case_arm_says known) arms.now) place)) }
{
    let mut first = first;
    for arm in arms {
        first = in_patterns(alloc, functions, arm.patterns.as_slice(), place, first)?;
        first = in_command(alloc, functions, &arm.body, place, first)?;
    }
    Ok(first)
}
