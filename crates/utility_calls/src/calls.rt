ghost use Rattle.std.specs.Prelude.{◌≡◌, ◌<◌, ◌++◌, length, false, Some, None, IfOk};
ghost use Rattle.std.specs.List.{list_any};
ghost use Rattle.std.specs.Option.{option_copied};
ghost use Rattle.utility_calls.specs.Calls.{echo_text, echo_rest, is_deep, begins_with_dash};
ghost use Rattle.utility_calls.specs.Calls.{has_backslash, echo_call};
ghost use Rattle.utility_calls.specs.Calls.{each_call, act_call, each_behind, mkdir_each, mkdir_call, rmdir_call};
ghost use Rattle.utility_calls.specs.Calls.{rm_call, touch_call, ln_behind, ln_call, mv_behind, mv_call};
ghost use Rattle.utility_calls.specs.Calls.{copies_deep, cp_behind, cp_call, unlink_behind, unlink_call};
ghost use Rattle.utility_calls.specs.Calls.{install_behind, installed, install_call, setting_operands, setting_behind};
ghost use Rattle.utility_calls.specs.Calls.{setting_call, line_where, basename_operands, basename_behind};
ghost use Rattle.utility_calls.specs.Calls.{basename_call, dirname_operands, dirname_behind, dirname_call};
ghost use Rattle.utility_calls.specs.Calls.{utility_call, call};

use crate::acts::Act;
use crate::fault::CallFault;
use crate::modes::{Setting, is_octal_mode, says};
use crate::operands::{Each, one_act, read_all};
use crate::options::{has_option, is_end, is_option, options_fit, split_options, unended};
use crate::pairs::{read_copy, read_link, read_move, read_unlink};
use crate::path_strings::{base_name, dir_name, is_operand, is_path_string, without_suffix};
pub use crate::planned::Planned;
use crate::questions::{plan_bracket, plan_fault, plan_test};
use script_names::{Bytes, List, Memory, Reason, Utility, utility_named};
use std::alloc::Global;

// Whether the first word begins with `-`.
fn begins_with_dash(words: &[Bytes]) -> bool
    ensures { result ≡ begins_with_dash words.now }
{
    match words {
        [] => false,
        [word, ..] => match word.as_slice() {
            [] => false,
            [b, ..] => *b == b'-',
        },
    }
}

// Whether a word has a `\`.
fn has_backslash(word: &[u8]) -> bool
    ensures { result ≡ has_backslash word.now }
{
    word.iter().any(|b| *b == b'\\')
}

// Whether some word has a `\`.
fn some_backslash(words: &[Bytes]) -> bool
    ensures { result ≡ list_any has_backslash words.now }
{
    words.iter().any(|word| has_backslash(word.as_slice()))
}

// What `echo` writes.
fn echo_text(alloc: Global, words: &[Bytes]) -> Result<Bytes, Memory>
    ensures { IfOk result (λ text. text ≡ echo_text words.now) }
{
    let mut text = Bytes::new(alloc);
    match words {
        [] => {
            text.push(b'\n')?;
            Ok(text)
        }
        [word, rest @ ..] => {
            text.extend(word.as_slice())?;
            echo_rest(text, rest)
        }
    }
}

// The text, with the further words of `echo` behind it.
fn echo_rest(before: Bytes, words: &[Bytes]) -> Result<Bytes, Memory>
    ensures { IfOk result (λ text. text ≡ before ++ echo_rest words.now) }
{
    let mut text = before;
    let mut left = words;
    while let [word, rest @ ..] = left {
        text.push(b' ')?;
        text.extend(word.as_slice())?;
        left = rest;
    }
    text.push(b'\n')?;
    Ok(text)
}

// `echo`.
fn plan_echo(alloc: Global, words: &[Bytes]) -> Result<Planned, Memory>
    ensures { IfOk result (λ planned. planned ≡ echo_call words.now) }
{
    if begins_with_dash(words) || some_backslash(words) {
        return Ok(Planned::Unspecified(Reason::Echo));
    }
    let text = echo_text(alloc, words)?;
    Ok(Planned::Print(text))
}

// A utility that goes through its operands.
fn plan_operands(alloc: Global, each: Each, ended: bool, words: &[Bytes]) -> Result<Planned, Memory>
    ensures { IfOk result (λ planned. planned ≡ each_call each ended words.now) }
{
    if words.is_empty() {
        return Ok(Planned::Unspecified(Reason::Call));
    }
    match read_all(alloc, each, ended, words) {
        Ok(all) => Ok(Planned::Change(all)),
        Err(fault) => plan_fault(fault),
    }
}

// The words behind the options of a utility that goes through its operands.
fn plan_each(alloc: Global, each: Each, words: &[Bytes]) -> Result<Planned, Memory>
    ensures { IfOk result (λ planned. planned ≡ each_behind each words.now) }
{
    let (ended, operands) = unended(words);
    plan_operands(alloc, each, ended, operands)
}

// One act as the only one of a call.
fn plan_act(alloc: Global, act: Act) -> Result<Planned, Memory>
    ensures { IfOk result (λ planned. planned ≡ act_call None act) }
{
    let acts = one_act(alloc, act)?;
    let mut all = List::new(alloc);
    all.add(acts)?;
    Ok(Planned::Change(all))
}

// What `mkdir` does for each operand, by whether `-p` is among its options.
fn mkdir_each(parents: bool) -> Each
    ensures { result ≡ mkdir_each parents }
{
    if parents {
        Each::EnsureDirs
    } else {
        Each::MakeDir
    }
}

// `mkdir`.
fn plan_mkdir(alloc: Global, words: &[Bytes]) -> Result<Planned, Memory>
    ensures { IfOk result (λ planned. planned ≡ mkdir_call words.now) }
{
    let (options, behind) = split_options(words);
    if !options_fit(false, b"p", options) {
        return Ok(Planned::Unspecified(Reason::Call));
    }
    plan_each(alloc, mkdir_each(has_option(b'p', options)), behind)
}

// `rmdir`.
fn plan_rmdir(alloc: Global, words: &[Bytes]) -> Result<Planned, Memory>
    ensures { IfOk result (λ planned. planned ≡ rmdir_call words.now) }
{
    let (options, behind) = split_options(words);
    if !options_fit(false, b"", options) {
        return Ok(Planned::Unspecified(Reason::Call));
    }
    plan_each(alloc, Each::RemoveDir, behind)
}

// Whether `-r` or `-R` is among the options of `rm`.
fn is_deep(options: &[Bytes]) -> bool
    ensures { result ≡ is_deep options.now }
{
    has_option(b'r', options) || has_option(b'R', options)
}

// `rm`.
fn plan_rm(alloc: Global, words: &[Bytes]) -> Result<Planned, Memory>
    ensures { IfOk result (λ planned. planned ≡ rm_call words.now) }
{
    let (options, behind) = split_options(words);
    if !options_fit(true, b"frR", options) {
        return Ok(Planned::Unspecified(Reason::Call));
    }
    let force = has_option(b'f', options);
    let deep = is_deep(options);
    plan_each(alloc, Each::Remove { force, deep }, behind)
}

// `touch`.
fn plan_touch(alloc: Global, words: &[Bytes]) -> Result<Planned, Memory>
    ensures { IfOk result (λ planned. planned ≡ touch_call words.now) }
{
    let (options, behind) = split_options(words);
    if !options_fit(false, b"", options) {
        return Ok(Planned::Unspecified(Reason::Call));
    }
    plan_each(alloc, Each::Touch, behind)
}

// The words behind the options of `ln`.
fn plan_link(alloc: Global, symbolic: bool, force: bool, words: &[Bytes]) -> Result<Planned, Memory>
    ensures { IfOk result (λ planned. planned ≡ ln_behind symbolic force words.now) }
{
    let (ended, operands) = unended(words);
    match read_link(alloc, symbolic, force, ended, operands) {
        Ok(act) => plan_act(alloc, act),
        Err(fault) => plan_fault(fault),
    }
}

// `ln`.
fn plan_ln(alloc: Global, words: &[Bytes]) -> Result<Planned, Memory>
    ensures { IfOk result (λ planned. planned ≡ ln_call words.now) }
{
    let (options, behind) = split_options(words);
    if !options_fit(true, b"sf", options) {
        return Ok(Planned::Unspecified(Reason::Call));
    }
    let symbolic = has_option(b's', options);
    let force = has_option(b'f', options);
    plan_link(alloc, symbolic, force, behind)
}

// The words behind the options of `mv`.
fn plan_move(alloc: Global, words: &[Bytes]) -> Result<Planned, Memory>
    ensures { IfOk result (λ planned. planned ≡ mv_behind words.now) }
{
    let (ended, operands) = unended(words);
    match read_move(alloc, ended, operands) {
        Ok(act) => plan_act(alloc, act),
        Err(fault) => plan_fault(fault),
    }
}

// `mv`.
fn plan_mv(alloc: Global, words: &[Bytes]) -> Result<Planned, Memory>
    ensures { IfOk result (λ planned. planned ≡ mv_call words.now) }
{
    let (options, behind) = split_options(words);
    if !options_fit(false, b"f", options) {
        return Ok(Planned::Unspecified(Reason::Call));
    }
    plan_move(alloc, behind)
}

// Whether `-r`, `-R` or `-a` is among the options of `cp`.
fn copies_deep(options: &[Bytes]) -> bool
    ensures { result ≡ copies_deep options.now }
{
    is_deep(options) || has_option(b'a', options)
}

// The words behind the options of `cp`.
fn plan_copy(alloc: Global, deep: bool, words: &[Bytes]) -> Result<Planned, Memory>
    ensures { IfOk result (λ planned. planned ≡ cp_behind deep words.now) }
{
    let (ended, operands) = unended(words);
    match read_copy(alloc, deep, ended, operands) {
        Ok(act) => plan_act(alloc, act),
        Err(fault) => plan_fault(fault),
    }
}

// `cp`.
fn plan_cp(alloc: Global, words: &[Bytes]) -> Result<Planned, Memory>
    ensures { IfOk result (λ planned. planned ≡ cp_call words.now) }
{
    let (options, behind) = split_options(words);
    if !options_fit(true, b"fprRa", options) {
        return Ok(Planned::Unspecified(Reason::Call));
    }
    plan_copy(alloc, copies_deep(options), behind)
}

// The words behind the options of `unlink`.
fn plan_single(alloc: Global, words: &[Bytes]) -> Result<Planned, Memory>
    ensures { IfOk result (λ planned. planned ≡ unlink_behind words.now) }
{
    let (ended, operands) = unended(words);
    match read_unlink(alloc, ended, operands) {
        Ok(act) => plan_act(alloc, act),
        Err(fault) => plan_fault(fault),
    }
}

// `unlink`.
fn plan_unlink(alloc: Global, words: &[Bytes]) -> Result<Planned, Memory>
    ensures { IfOk result (λ planned. planned ≡ unlink_call words.now) }
{
    let (options, behind) = split_options(words);
    if !options_fit(false, b"", options) {
        return Ok(Planned::Unspecified(Reason::Call));
    }
    plan_single(alloc, behind)
}

// What stands behind the options of `install`, where these are `-d` and `-m` with a mode alone, and one is `-d`.
fn install_behind(words: &[Bytes]) -> Option<&[Bytes]>
    ensures { option_copied result ≡ install_behind false false words.now }
{
    let mut left = words;
    let mut made = false;
    let mut moded = false;
    while let [word, rest @ ..] = left {
        let word = word.as_slice();
        if moded {
            if !is_octal_mode(word) {
                return None;
            }
            moded = false;
        } else if word == b"-d".as_slice() {
            made = true;
        } else if word == b"-m".as_slice() {
            moded = true;
        } else if made && (is_end(word) || !is_option(word)) {
            return Some(left);
        } else {
            return None;
        }
        left = rest;
    }
    if made && !moded { Some(left) } else { None }
}

// `install`.
fn plan_install(alloc: Global, words: &[Bytes]) -> Result<Planned, Memory>
    ensures { IfOk result (λ planned. planned ≡ install_call words.now) }
{
    match install_behind(words) {
        None => Ok(Planned::Unspecified(Reason::Call)),
        Some(behind) => plan_each(alloc, Each::EnsureDirs, behind),
    }
}

// The operands of a utility that sets a mode, an owner or a group.
fn plan_set(
    alloc: Global,
    setting: Setting,
    ended: bool,
    words: &[Bytes],
) -> Result<Planned, Memory>
    ensures { IfOk result (λ planned. planned ≡ setting_operands setting ended words.now) }
{
    match words {
        [] => Ok(Planned::Unspecified(Reason::Call)),
        [word, rest @ ..] => {
            if !says(setting, word.as_slice()) {
                return Ok(Planned::Unspecified(Reason::Call));
            }
            plan_operands(alloc, Each::Attr, ended, rest)
        }
    }
}

// A utility that sets a mode, an owner or a group.
fn plan_setting(alloc: Global, setting: Setting, words: &[Bytes]) -> Result<Planned, Memory>
    ensures { IfOk result (λ planned. planned ≡ setting_call setting words.now) }
{
    let (options, behind) = split_options(words);
    if !options_fit(false, b"", options) {
        return Ok(Planned::Unspecified(Reason::Call));
    }
    let (ended, operands) = unended(behind);
    plan_set(alloc, setting, ended, operands)
}

// A line that is written, where it has a specified meaning.
fn plan_line(alloc: Global, specified: bool, line: &[u8]) -> Result<Planned, Memory>
    ensures { IfOk result (λ planned. planned ≡ line_where specified line.now) }
{
    if !specified {
        return Ok(Planned::Unspecified(Reason::Call));
    }
    let mut text = Bytes::from_slice(alloc, line)?;
    text.push(b'\n')?;
    Ok(Planned::Print(text))
}

// The operands of `basename`.
fn plan_base(alloc: Global, ended: bool, words: &[Bytes]) -> Result<Planned, Memory>
    ensures { IfOk result (λ planned. planned ≡ basename_operands ended words.now) }
{
    match words {
        [] => Ok(Planned::Unspecified(Reason::Call)),
        [word] => {
            let word = word.as_slice();
            plan_line(alloc, is_path_string(ended, word), base_name(word))
        }
        [word, suffix] => {
            let word = word.as_slice();
            let suffix = suffix.as_slice();
            let specified = is_path_string(ended, word) && is_operand(ended, suffix);
            plan_line(alloc, specified, without_suffix(suffix, base_name(word)))
        }
        [_, _, _, ..] => Ok(Planned::Unspecified(Reason::Call)),
    }
}

// `basename`.
fn plan_basename(alloc: Global, words: &[Bytes]) -> Result<Planned, Memory>
    ensures { IfOk result (λ planned. planned ≡ basename_call words.now) }
{
    let (options, behind) = split_options(words);
    if !options_fit(false, b"", options) {
        return Ok(Planned::Unspecified(Reason::Call));
    }
    let (ended, operands) = unended(behind);
    plan_base(alloc, ended, operands)
}

// The operand of `dirname`.
fn plan_dir(alloc: Global, ended: bool, words: &[Bytes]) -> Result<Planned, Memory>
    ensures { IfOk result (λ planned. planned ≡ dirname_operands ended words.now) }
{
    match words {
        [] => Ok(Planned::Unspecified(Reason::Call)),
        [word] => {
            let word = word.as_slice();
            plan_line(alloc, is_path_string(ended, word), dir_name(word))
        }
        [_, _, ..] => Ok(Planned::Unspecified(Reason::Call)),
    }
}

// `dirname`.
fn plan_dirname(alloc: Global, words: &[Bytes]) -> Result<Planned, Memory>
    ensures { IfOk result (λ planned. planned ≡ dirname_call words.now) }
{
    let (options, behind) = split_options(words);
    if !options_fit(false, b"", options) {
        return Ok(Planned::Unspecified(Reason::Call));
    }
    let (ended, operands) = unended(behind);
    plan_dir(alloc, ended, operands)
}

// The words of a utility.
fn plan_utility(alloc: Global, utility: Utility, words: &[Bytes]) -> Result<Planned, Memory>
    ensures { IfOk result (λ planned. planned ≡ utility_call (Some utility) words.now) }
{
    match utility {
        Utility::True => Ok(Planned::Known(true)),
        Utility::False => Ok(Planned::Known(false)),
        Utility::Echo => plan_echo(alloc, words),
        Utility::MakeDir => plan_mkdir(alloc, words),
        Utility::RemoveDir => plan_rmdir(alloc, words),
        Utility::Remove => plan_rm(alloc, words),
        Utility::Touch => plan_touch(alloc, words),
        Utility::Link => plan_ln(alloc, words),
        Utility::Move => plan_mv(alloc, words),
        Utility::Test => plan_test(alloc, words),
        Utility::Bracket => plan_bracket(alloc, words),
        Utility::Unlink => plan_unlink(alloc, words),
        Utility::Install => plan_install(alloc, words),
        Utility::ChangeMode => plan_setting(alloc, Setting::Mode, words),
        Utility::ChangeOwner => plan_setting(alloc, Setting::Owner, words),
        Utility::ChangeGroup => plan_setting(alloc, Setting::Group, words),
        Utility::Copy => plan_cp(alloc, words),
        Utility::BaseName => plan_basename(alloc, words),
        Utility::DirName => plan_dirname(alloc, words),
    }
}

/// What the words of a command come to, the first of them being a utility's name (POSIX.1-2017, XCU `true`, `:`,
/// `false`, `echo`, `mkdir`, `rmdir`, `rm`, `touch`, `ln`, `mv`, `test`, `unlink`, `chmod`, `chown`, `chgrp`, `cp`,
/// `basename`, `dirname`; and `install -d`, which is no utility of POSIX). The words are looked at in order, and the first
/// that has no specified meaning decides. No file is looked at.
pub fn plan(alloc: Global, words: &List<Bytes>) -> Result<Planned, Memory>
    requires { 0 < length words.now }
    ensures { IfOk result (λ planned. planned ≡ call words.now) }
{
    match words.as_slice() {
        [] => unreachable!(),
        [name, rest @ ..] => match utility_named(name.as_slice()) {
            Some(utility) => plan_utility(alloc, utility, rest),
            None => Ok(Planned::Unspecified(Reason::Call)),
        },
    }
}
