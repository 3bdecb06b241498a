//! The operators of both languages: for each pair of kinds of values a value or a fault.
ghost use Rattle.std.specs.Prelude.{◌≡◌, ◌+ℤ◌, ◌-ℤ◌, ◌*ℤ◌, neg_ℤ, ◌++◌, IfOk};
ghost use Rattle.std.specs.Cow.{cow_str_bytes};
ghost use Rattle.pd_values.specs.Operators as table;
ghost use Rattle.pd_values.specs.Answers.{IsNamed, IsTableAnswer};

use crate::stop::Stop;
use crate::text::Text;
use crate::value::{Cmp, Fault, Value};
use std::alloc::{AllocError, Global};
use std::borrow::CowStr;

/// The most bytes that a text made by [`add`] has: 2^16.
const LONGEST_TEXT: usize = 65_536;

/// The text that a value is printed as: digits with `-` before a negative number, `true` or `false`, the text
/// itself, `NULL`, or the name of a function. `names` are the names of the items.
pub fn show(alloc: Global, v: &Value, names: &[Text]) -> Result<Text, AllocError>
    requires { IsNamed names.now v.now }
    ensures { IfOk result (λ t. t ≡ table.show names.now v.now) }
{
    Ok(Text::of(shown(alloc, v, names)?.into_owned(alloc)?))
}

/// Two numbers added, or two texts joined, where a value beside a text is joined as it is printed. `Overflow` where
/// the sum leaves 64 bits, `TextLong` where the text has more than 65,536 bytes, `WrongKind` for any other pair.
pub fn add(alloc: Global, a: &Value, b: &Value, names: &[Text]) -> Result<Value, Stop<Fault>>
    requires left { IsNamed names.now a.now }
    requires right { IsNamed names.now b.now }
    ensures { IsTableAnswer (table.add names.now a.now b.now) result }
{
    match (a, b) {
        (Value::Number(x), Value::Number(y)) => sum(*x, *y).map_err(Stop::Refused),
        (Value::Text(_), _) | (_, Value::Text(_)) => {
            let left = shown(alloc, a, names)?;
            let right = shown(alloc, b, names)?;
            joined(alloc, left.as_str(), right.as_str())
        }
        _ => Err(Stop::Refused(Fault::WrongKind)),
    }
}

/// The difference of two numbers. `Overflow` where it leaves 64 bits, `WrongKind` for any other pair.
pub fn sub(a: &Value, b: &Value) -> Result<Value, Fault>
    ensures { result ≡ table.sub a.now b.now }
{
    match (a, b) {
        (Value::Number(x), Value::Number(y)) => difference(*x, *y),
        _ => Err(Fault::WrongKind),
    }
}

/// The product of two numbers. `Overflow` where it leaves 64 bits, `WrongKind` for any other pair.
pub fn mul(a: &Value, b: &Value) -> Result<Value, Fault>
    ensures { result ≡ table.mul a.now b.now }
{
    match (a, b) {
        (Value::Number(x), Value::Number(y)) => product(*x, *y),
        _ => Err(Fault::WrongKind),
    }
}

/// The quotient of two numbers, rounded toward zero. `DivZero` where the second is 0, `Overflow` where the quotient
/// leaves 64 bits, `WrongKind` for any other pair.
pub fn div(a: &Value, b: &Value) -> Result<Value, Fault>
    ensures { result ≡ table.div a.now b.now }
{
    match (a, b) {
        (Value::Number(x), Value::Number(y)) => quotient(*x, *y),
        _ => Err(Fault::WrongKind),
    }
}

/// Whether two numbers stand in this order. `WrongKind` for any other pair.
pub fn compare(op: Cmp, a: &Value, b: &Value) -> Result<bool, Fault>
    ensures { result ≡ table.compare op a.now b.now }
{
    match (a, b) {
        (Value::Number(x), Value::Number(y)) => Ok(match op {
            Cmp::Less => x < y,
            Cmp::LessEq => x <= y,
            Cmp::Greater => x > y,
            Cmp::GreaterEq => x >= y,
        }),
        _ => Err(Fault::WrongKind),
    }
}

/// Whether two values have the same kind and the same content.
pub fn equal(a: &Value, b: &Value) -> bool
    ensures { result ≡ table.equal a.now b.now }
{
    match (a, b) {
        (Value::Number(x), Value::Number(y)) => x == y,
        (Value::Bool(x), Value::Bool(y)) => x == y,
        (Value::Text(x), Value::Text(y)) => x.as_str() == y.as_str(),
        (Value::Null, Value::Null) => true,
        (Value::Func(x), Value::Func(y)) => x == y,
        _ => false,
    }
}

/// The number with a sign `+` before it. `WrongKind` for another value.
pub fn plus(a: &Value) -> Result<Value, Fault>
    ensures { result ≡ table.plus a.now }
{
    match a {
        Value::Number(x) => Ok(Value::Number(*x)),
        _ => Err(Fault::WrongKind),
    }
}

/// The number with a sign `-` before it: 0 minus the number. `Overflow` where that leaves 64 bits, `WrongKind` for
/// another value.
pub fn minus(a: &Value) -> Result<Value, Fault>
    ensures { result ≡ table.minus a.now }
{
    match a {
        Value::Number(x) => negated(*x),
        _ => Err(Fault::WrongKind),
    }
}

/// Whether a number is odd, as a truth value. `WrongKind` for another value.
pub fn odd(a: &Value) -> Result<Value, Fault>
    ensures { result ≡ table.odd a.now }
{
    match a {
        Value::Number(x) => Ok(Value::Bool(x.unsigned_abs() % 2 == 1)),
        _ => Err(Fault::WrongKind),
    }
}

/// The shown text, lent where the value or the names have it already.
fn shown<'a>(
    alloc: Global,
    v: &'a Value,
    names: &'a [Text],
) -> Result<CowStr<'a, Global>, AllocError>
    requires { IsNamed names.now v.now }
    ensures { IfOk result (λ t. cow_str_bytes t ≡ table.show names.now v.now) }
{
    Ok(match v {
        Value::Number(n) => CowStr::Owned(n.to_string(alloc)?),
        Value::Bool(true) => CowStr::Borrowed("true"),
        Value::Bool(false) => CowStr::Borrowed("false"),
        Value::Text(t) => CowStr::Borrowed(t.as_str()),
        Value::Null => CowStr::Borrowed("NULL"),
        Value::Func(i) => CowStr::Borrowed(names[*i as usize].as_str()),
    })
}

/// One text after another, where both together aren't too long.
fn joined(alloc: Global, left: &str, right: &str) -> Result<Value, Stop<Fault>>
    ensures { IsTableAnswer (table.joined (left.now ++ right.now)) result }
{
    if left.len() > LONGEST_TEXT || right.len() > LONGEST_TEXT - left.len() {
        return Err(Stop::Refused(Fault::TextLong));
    }
    let mut chars = String::with_capacity(alloc, left.len() + right.len())?;
    chars.push_str(left)?;
    chars.push_str(right)?;
    Ok(Value::Text(Text::of(chars)))
}

fn sum(x: i64, y: i64) -> Result<Value, Fault>
    ensures { result ≡ table.number (x +ℤ y) }
{
    x.checked_add(y).map(Value::Number).ok_or(Fault::Overflow)
}

fn difference(x: i64, y: i64) -> Result<Value, Fault>
    ensures { result ≡ table.number (x -ℤ y) }
{
    x.checked_sub(y).map(Value::Number).ok_or(Fault::Overflow)
}

fn product(x: i64, y: i64) -> Result<Value, Fault>
    ensures { result ≡ table.number (x *ℤ y) }
{
    x.checked_mul(y).map(Value::Number).ok_or(Fault::Overflow)
}

fn quotient(x: i64, y: i64) -> Result<Value, Fault>
    ensures { result ≡ table.quotient x y }
{
    if y == 0 {
        return Err(Fault::DivZero);
    }
    x.checked_div(y).map(Value::Number).ok_or(Fault::Overflow)
}

fn negated(x: i64) -> Result<Value, Fault>
    ensures { result ≡ table.number (neg_ℤ x) }
{
    x.checked_neg().map(Value::Number).ok_or(Fault::Overflow)
}
