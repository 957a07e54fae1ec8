ghost use Rattle.std.specs.Prelude.{◌≡◌, Some, IfOk};
ghost use Rattle.std.specs.Str.{bytes_eq};
ghost use Rattle.std.specs.List.{list_any};
ghost use Rattle.utility_calls.specs.Questions.{negated, special_of, question_of, asking, ask, is_not, test_one};
ghost use Rattle.utility_calls.specs.Questions.{test_two, test_three, test_four, test_call, bracket_call};
ghost use Rattle.utility_calls.specs.Questions.{number_operators, file_operators, text_operators, is_other_operator};
ghost use Rattle.utility_calls.specs.Questions.{FaultPlan};

use crate::acts::Act;
use crate::fault::CallFault;
use crate::operands::call_fault;
use crate::planned::Planned;
use feature_trees::Special;
use script_names::{Bytes, Memory, Path, Reason};
use std::alloc::Global;

/// What `test` asks of a path.
#[derive(Clone, Copy, Debug, PartialEq, Eq)]
pub enum Question {
    Exists,
    IsReg,
    IsDir,
    IsLink,
    CanRun,
    IsSpecial(Special),
}

// The opposite answer.
fn negated(planned: Planned) -> Planned
    ensures { result ≡ negated planned }
{
    match planned {
        Planned::Known(status) => Planned::Known(!status),
        Planned::Ask { act, negate } => Planned::Ask {
            act,
            negate: !negate,
        },
        Planned::Print(text) => Planned::Print(text),
        Planned::Change(acts) => Planned::Change(acts),
        Planned::Unspecified(why) => Planned::Unspecified(why),
    }
}

// The special kind of which an operator asks.
fn special_of(op: &[u8]) -> Option<Special>
    ensures { result ≡ special_of op.now }
{
    if op == b"-p".as_slice() {
        return Some(Special::Fifo);
    }
    if op == b"-S".as_slice() {
        return Some(Special::Socket);
    }
    if op == b"-b".as_slice() {
        return Some(Special::Block);
    }
    if op == b"-c".as_slice() {
        return Some(Special::Char);
    }
    None
}

// What an operator of one path asks.
fn question_of(op: &[u8]) -> Option<Question>
    ensures { result ≡ question_of op.now }
{
    if op == b"-e".as_slice() || op == b"-r".as_slice() || op == b"-w".as_slice() {
        return Some(Question::Exists);
    }
    if op == b"-f".as_slice() {
        return Some(Question::IsReg);
    }
    if op == b"-d".as_slice() {
        return Some(Question::IsDir);
    }
    if op == b"-h".as_slice() || op == b"-L".as_slice() {
        return Some(Question::IsLink);
    }
    if op == b"-x".as_slice() {
        return Some(Question::CanRun);
    }
    match special_of(op) {
        Some(kind) => Some(Question::IsSpecial(kind)),
        None => None,
    }
}

// The act that asks it of a path.
fn asking(question: Question, path: Path) -> Act
    ensures { result ≡ asking question path }
{
    match question {
        Question::Exists => Act::Exists(path),
        Question::IsReg => Act::IsReg(path),
        Question::IsDir => Act::IsDir(path),
        Question::IsLink => Act::IsLink(path),
        Question::CanRun => Act::CanRun {
            p: path,
            runs: false,
        },
        Question::IsSpecial(kind) => Act::IsSpecial { p: path, kind },
    }
}

// The plan where a word spells no path.
pub(crate) fn plan_fault(fault: CallFault) -> Result<Planned, Memory>
    ensures { IfOk result (λ planned. FaultPlan fault planned) }
{
    match fault {
        CallFault::Because(why) => Ok(Planned::Unspecified(why)),
        CallFault::Memory => Err(Memory),
    }
}

// The question of a word; at an empty one nothing is.
fn ask(alloc: Global, question: Question, word: &[u8]) -> Result<Planned, Memory>
    ensures { IfOk result (λ planned. planned ≡ ask (Some question) word.now) }
{
    if word.is_empty() {
        return Ok(Planned::Known(false));
    }
    match Path::read(alloc, word) {
        Ok(path) => Ok(Planned::Ask {
            act: asking(question, path),
            negate: false,
        }),
        Err(fault) => plan_fault(call_fault(fault)),
    }
}

// Whether a word is `!`.
fn is_not(word: &[u8]) -> bool
    ensures { result ≡ is_not word.now }
{
    word == b"!".as_slice()
}

// `test` of one word.
fn test_one(a: &[u8]) -> Planned
    ensures { result ≡ test_one a.now }
{
    Planned::Known(!a.is_empty())
}

// `test` of two words.
fn test_two(alloc: Global, a: &[u8], b: &[u8]) -> Result<Planned, Memory>
    ensures { IfOk result (λ planned. planned ≡ test_two a.now b.now) }
{
    if is_not(a) {
        return Ok(negated(test_one(b)));
    }
    if a == b"-n".as_slice() {
        return Ok(Planned::Known(!b.is_empty()));
    }
    if a == b"-z".as_slice() {
        return Ok(Planned::Known(b.is_empty()));
    }
    match question_of(a) {
        Some(question) => ask(alloc, question, b),
        None => Ok(Planned::Unspecified(Reason::Call)),
    }
}

// Whether a word compares two numbers.
fn compares_numbers(op: &[u8]) -> bool
    ensures { result ≡ list_any (bytes_eq op.now) number_operators }
{
    op == b"-eq".as_slice()
        || op == b"-ne".as_slice()
        || op == b"-gt".as_slice()
        || op == b"-ge".as_slice()
        || op == b"-lt".as_slice()
        || op == b"-le".as_slice()
}

// Whether a word compares two files, or joins two tests.
fn compares_files(op: &[u8]) -> bool
    ensures { result ≡ list_any (bytes_eq op.now) file_operators }
{
    op == b"-nt".as_slice()
        || op == b"-ot".as_slice()
        || op == b"-ef".as_slice()
        || op == b"-a".as_slice()
        || op == b"-o".as_slice()
}

// Whether a word compares two texts as no standard says.
fn compares_texts(op: &[u8]) -> bool
    ensures { result ≡ list_any (bytes_eq op.now) text_operators }
{
    op == b"==".as_slice()
        || op == b"<".as_slice()
        || op == b">".as_slice()
        || op == b"=~".as_slice()
}

// Whether a word is an operator of two words that has no specified meaning here.
fn is_other_operator(op: &[u8]) -> bool
    ensures { result ≡ is_other_operator op.now }
{
    compares_numbers(op) || compares_files(op) || compares_texts(op)
}

// `test` of three words.
fn test_three(alloc: Global, a: &[u8], b: &[u8], c: &[u8]) -> Result<Planned, Memory>
    ensures { IfOk result (λ planned. planned ≡ test_three a.now b.now c.now) }
{
    if b == b"=".as_slice() {
        return Ok(Planned::Known(a == c));
    }
    if b == b"!=".as_slice() {
        return Ok(Planned::Known(a != c));
    }
    if is_other_operator(b) {
        return Ok(Planned::Unspecified(Reason::Call));
    }
    if is_not(a) {
        return Ok(negated(test_two(alloc, b, c)?));
    }
    Ok(Planned::Unspecified(Reason::Call))
}

// `test` of four words.
fn test_four(alloc: Global, a: &[u8], b: &[u8], c: &[u8], d: &[u8]) -> Result<Planned, Memory>
    ensures { IfOk result (λ planned. planned ≡ test_four a.now b.now c.now d.now) }
{
    if is_not(a) {
        return Ok(negated(test_three(alloc, b, c, d)?));
    }
    Ok(Planned::Unspecified(Reason::Call))
}

// The words of `test`.
pub(crate) fn plan_test(alloc: Global, words: &[Bytes]) -> Result<Planned, Memory>
    ensures { IfOk result (λ planned. planned ≡ test_call words.now) }
{
    match words {
        [] => Ok(Planned::Known(false)),
        [a] => Ok(test_one(a.as_slice())),
        [a, b] => test_two(alloc, a.as_slice(), b.as_slice()),
        [a, b, c] => test_three(alloc, a.as_slice(), b.as_slice(), c.as_slice()),
        [a, b, c, d] => test_four(
            alloc,
            a.as_slice(),
            b.as_slice(),
            c.as_slice(),
            d.as_slice(),
        ),
        [_, _, _, _, _, ..] => Ok(Planned::Unspecified(Reason::Call)),
    }
}

// The words of `[`, of which the last has to be `]`.
pub(crate) fn plan_bracket(alloc: Global, words: &[Bytes]) -> Result<Planned, Memory>
    ensures { IfOk result (λ planned. planned ≡ bracket_call words.now) }
{
    match words.last() {
        Some(last) => {
            if last.as_slice() == b"]".as_slice() {
                plan_test(alloc, &words[..words.len() - 1])
            } else {
                Ok(Planned::Unspecified(Reason::Call))
            }
        }
        None => Ok(Planned::Unspecified(Reason::Call)),
    }
}
