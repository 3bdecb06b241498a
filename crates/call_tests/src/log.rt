//! `pd_log`: the log of nested activations.
ghost use Rattle.std.specs.Prelude.{◌≡◌};

use pd_log::{Entry, partner};
use pd_machine::{Cause, EventKind};
use pd_values::{NodeId, Value};
use std::test::Fail;

fn entry(event: u32, opened: u32, kind: EventKind) -> Entry
    ensures { result.event ≡ event }
{
    Entry {
        context: 0,
        event,
        opened,
        place: 0,
        kind,
        node: NodeId(2),
    }
}

#[test]
fn an_end_finds_its_enter_among_nested_ones(rt: HostRuntime) -> Result<(), Fail> {
    let log = [
        entry(2, 2, EventKind::Enter),
        entry(5, 5, EventKind::Enter),
        entry(8, 5, EventKind::Return(Value::Null)),
        entry(9, 2, EventKind::Leave(Cause::Returning)),
        entry(12, 11, EventKind::Return(Value::Null)),
    ];
    assert_eq!(rt; partner(&log, 0), None);
    assert_eq!(rt; partner(&log, 2), Some(1));
    assert_eq!(rt; partner(&log, 3), Some(0));
    assert_eq!(rt; partner(&log, 4), None);
    Ok(())
}
