//! `pd_values`: lists of names, and texts at the edges, worked out by hand. Numbers, orders and equality are cases of
//! `run_cases`.
ghost use Rattle.pd_values.specs.Answers.{IsNamed};

use pd_values::{Fault, Items, NodeId, Stop, Text, Value, add, show};
use std::alloc::Global;
use std::process::Abort;
use std::test::Fail;

#[test]
fn items(rt: HostRuntime) -> Result<(), Fail> {
    let alloc = rt.alloc();
    let mut held = Vec::new(alloc);
    held.push(Text::of("println".to_string(alloc)?))?;
    held.push(Text::of("main".to_string(alloc)?))?;
    let names = Items::of(held);
    assert!(rt; !names.is_empty() && names.get(2).is_none());
    assert_eq!(rt; names.as_slice().len(), 2);
    expect_shown(&rt, alloc, &Value::Func(1), names.as_slice(), "main")
}

fn expect_shown(
    rt: &impl Abort,
    alloc: Global,
    value: &Value,
    names: &[Text],
    expected: &str,
) -> Result<(), Fail>
    requires { IsNamed names.now value.now }
{
    let text = show(alloc, value, names)?;
    assert_eq!(rt; text.as_str(), expected);
    Ok(())
}

#[test]
fn texts(rt: HostRuntime) -> Result<(), Fail> {
    let least = Value::Number(i64::MIN);
    expect_shown(&rt, rt.alloc(), &least, &[], "-9223372036854775808")?;
    expect_shown(&rt, rt.alloc(), &Value::Bool(true), &[], "true")?;
    expect_shown(&rt, rt.alloc(), &Value::Bool(false), &[], "false")?;
    expect_shown(&rt, rt.alloc(), &Value::Null, &[], "NULL")?;
    assert_eq!(rt; NodeId(3).0, 3);
    Ok(())
}

#[test]
fn long_texts(rt: HostRuntime) -> Result<(), Fail> {
    let alloc = rt.alloc();
    let long = Value::Text(Text::of("x".repeat(alloc, 65_535)?));
    match add(alloc, &long, &Value::Number(1), &[]) {
        Ok(Value::Text(joined)) => assert_eq!(rt; joined.as_str().len(), 65_536),
        _ => assert!(rt; false, "65,536 bytes are not too many"),
    }
    let answer = add(alloc, &Value::Number(-1), &long, &[]);
    assert!(rt; matches!(answer, Err(Stop::Refused(Fault::TextLong))));
    Ok(())
}

#[test]
fn a_sum_of_no_numbers(rt: HostRuntime) {
    let answer = add(rt.alloc(), &Value::Null, &Value::Bool(true), &[]);
    assert!(rt; matches!(answer, Err(Stop::Refused(Fault::WrongKind))));
}
