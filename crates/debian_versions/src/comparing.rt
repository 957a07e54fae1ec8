ghost use Rattle.std.specs.Prelude.{◌≡◌, IfOk, map, Option as Maybe};
ghost use Rattle.debian_versions.specs.Comparisons.{operator_by_sign, operator_by_end, operator_of, operand, order_of};
ghost use Rattle.debian_versions.specs.Comparisons.{holds, compares, comparison, answer_of};

use crate::version::{Version, read_version, version_cmp};
use script_names::{Bytes, Memory};
use std::alloc::Global;
use std::cmp::Ordering;

/// An operator of `dpkg --compare-versions`, by the orders that it holds of.
#[derive(Clone, Copy, Debug)]
pub struct Operator {
    /// It holds of an earlier version and a later one.
    pub less: bool,
    /// It holds of versions that are equal.
    pub equal: bool,
    /// It holds of a later version and an earlier one.
    pub greater: bool,
    /// No version is later than each version, and not earlier.
    pub later: bool,
}

// An operator that holds of such orders.
fn such_operator(less: bool, equal: bool, greater: bool, later: bool) -> Option<Operator>
    ensures { result ≡ Maybe.Some (record { less = less; equal = equal; greater = greater; later = later }) }
{
    Some(Operator {
        less,
        equal,
        greater,
        later,
    })
}

// The operator of a sign of Debian's relations.
fn operator_by_sign(word: &[u8]) -> Option<Operator>
    ensures { result ≡ operator_by_sign word.now }
{
    if word == b"<<".as_slice() {
        return such_operator(true, false, false, false);
    }
    if word == b"<=".as_slice() {
        return such_operator(true, true, false, false);
    }
    if word == b"=".as_slice() {
        return such_operator(false, true, false, false);
    }
    if word == b">=".as_slice() {
        return such_operator(false, true, true, false);
    }
    if word == b">>".as_slice() {
        return such_operator(false, false, true, false);
    }
    None
}

// The operator of a word with `-nl`, or of a sign.
fn operator_by_end(word: &[u8]) -> Option<Operator>
    ensures { result ≡ operator_by_end word.now }
{
    if word == b"lt-nl".as_slice() {
        return such_operator(true, false, false, true);
    }
    if word == b"le-nl".as_slice() {
        return such_operator(true, true, false, true);
    }
    if word == b"ge-nl".as_slice() {
        return such_operator(false, true, true, true);
    }
    if word == b"gt-nl".as_slice() {
        return such_operator(false, false, true, true);
    }
    operator_by_sign(word)
}

// The operator that a word names.
fn operator_of(word: &[u8]) -> Option<Operator>
    ensures { result ≡ operator_of word.now }
{
    if word == b"lt".as_slice() {
        return such_operator(true, false, false, false);
    }
    if word == b"le".as_slice() {
        return such_operator(true, true, false, false);
    }
    if word == b"eq".as_slice() {
        return such_operator(false, true, false, false);
    }
    if word == b"ne".as_slice() {
        return such_operator(true, false, true, false);
    }
    if word == b"ge".as_slice() {
        return such_operator(false, true, true, false);
    }
    if word == b"gt".as_slice() {
        return such_operator(false, false, true, false);
    }
    operator_by_end(word)
}

// An operand: a version, or none where it has no bytes; None where it is neither.
fn operand(alloc: Global, text: &[u8]) -> Result<Option<Option<Version>>, Memory>
    ensures { IfOk result (λ found. found ≡ operand text.now) }
{
    if text.is_empty() {
        return Ok(Some(None));
    }
    match read_version(alloc, text)? {
        None => Ok(None),
        Some(version) => Ok(Some(Some(version))),
    }
}

// The order of two operands.
fn order_of(later: bool, a: &Option<Version>, b: &Option<Version>) -> Ordering
    ensures { result ≡ order_of later a.now b.now }
{
    match (a, b) {
        (None, None) => Ordering::Equal,
        (None, Some(_)) => {
            if later {
                Ordering::Greater
            } else {
                Ordering::Less
            }
        }
        (Some(_), None) => {
            if later {
                Ordering::Less
            } else {
                Ordering::Greater
            }
        }
        (Some(a), Some(b)) => version_cmp(a, b),
    }
}

// Whether an operator holds of an order.
fn holds(operator: Operator, order: Ordering) -> bool
    ensures { result ≡ holds operator order }
{
    match order {
        Ordering::Less => operator.less,
        Ordering::Equal => operator.equal,
        Ordering::Greater => operator.greater,
    }
}

// The answer for two operands and an operator, where they are such.
fn answer(alloc: Global, a: &[u8], op: &[u8], b: &[u8]) -> Result<Option<bool>, Memory>
    ensures { IfOk result (λ found. found ≡ answer_of (operand a.now) (operator_of op.now) (operand b.now)) }
{
    let operator = match operator_of(op) {
        None => return Ok(None),
        Some(operator) => operator,
    };
    let a = match operand(alloc, a)? {
        None => return Ok(None),
        Some(a) => a,
    };
    let b = match operand(alloc, b)? {
        None => return Ok(None),
        Some(b) => b,
    };
    Ok(Some(holds(operator, order_of(operator.later, &a, &b))))
}

// Whether the first two fields are `dpkg --compare-versions`.
fn compares(name: &[u8], option: &[u8]) -> bool
    ensures { result ≡ compares name.now option.now }
{
    name == b"dpkg".as_slice() && option == b"--compare-versions".as_slice()
}

/// The answer of a command with these fields, where it is `dpkg --compare-versions A OP B` with versions, or no bytes,
/// for A and B and an operator OP (dpkg(1)): whether the order of the two versions is such. None for any other command.
pub fn comparison(alloc: Global, fields: &[Bytes]) -> Result<Option<bool>, Memory>
    ensures { IfOk result (λ found. found ≡ comparison fields.now) }
{
    match fields {
        [] | [_] | [_, _] | [_, _, _] | [_, _, _, _] => Ok(None),
        [name, option, a, op, b] => {
            if !compares(name.as_slice(), option.as_slice()) {
                return Ok(None);
            }
            answer(alloc, a.as_slice(), op.as_slice(), b.as_slice())
        }
        [_, _, _, _, _, _, ..] => Ok(None),
    }
}
