//! `pd_suspend`: where steps end, and what scripts answer.
use pd_plan::{Act, Answer, Plan, Resume, Script};
use pd_suspend::{
    Anchor, Answerer, ScriptAnswerer, Stepper, Suspension, copy_answer, copy_resume, goes_on,
    script_law, scripted_answer, stepping_law,
};
use pd_values::{Items, NodeId, Value};
use std::alloc::{AllocError, Global};
use std::test::Fail;

/// In each line: the depth of the event at which a step is left, the events after it (`b` stands before a statement, `a`
/// after a call, `n` does neither; each with its depth), and at which of them, counted from 0, `into 1`, `into 2`,
/// `into 3`, `over 1` to `over 3` and `out 1` to `out 3` end. A separate model of the rule gave the numbers.
const STEPS: &str = "\
1 b1 n2 b2 n3 b3 n4 b4 b4 n4 a3 b3 n3 a2 b2 n2 a1 b1 = 0 2 4 0 16 - - - -\n\
2 b3 n4 b4 n5 b5 b5 n5 a4 b4 n4 a3 b3 n3 a2 b2 n2 a1 b1 = 0 2 4 14 16 17 16 - -\n\
3 a2 b2 a1 b1 = 0 1 2 0 1 2 0 2 -\n\
1 b1 b1 b1 b1 = 0 1 2 0 1 2 - - -\n\
4 n4 a3 n3 a2 n2 a1 = 1 3 5 1 3 5 1 3 5\n\
2 a2 a2 b2 = 2 - - 2 - - - - -\n\
2 b3 b3 a2 b2 = 0 1 3 3 - - - - -\n\
2 a1 n2 b2 a1 b1 = 0 2 4 0 4 - 0 - -\n\
3 n1 b2 b1 a0 = 1 2 3 2 3 - 3 3 3\n\
1 = - - - - - - - - -\n\
3 b3 b3 a2 = 0 1 2 0 1 2 2 - -\n\
1 n2 n2 b2 b2 b2 b2 = 2 3 4 - - - - - -\n\
5 b5 n6 n6 a5 n6 b6 a5 = 0 5 - 0 - - - - -\n\
1 b1 n1 b1 b1 = 0 2 3 0 2 3 - - -\n\
1 n2 a1 b1 n2 b2 = 2 4 - 2 - - - - -\n\
1 n1 n2 n3 n4 n5 a4 n5 n5 b5 = 8 - - - - - - - -\n\
2 a1 b1 n2 = 0 1 - 0 1 - 0 - -\n\
5 n5 a4 b4 n4 b4 b4 a3 b3 = 1 2 4 1 2 4 1 6 -\n\
4 b4 a3 a2 n3 n3 b3 a2 = 0 1 2 0 1 2 1 2 -\n\
5 n6 a5 a4 n4 n5 a4 b4 a3 = 2 6 7 2 6 7 2 7 -\n\
5 b5 b5 a4 b4 n5 b5 b5 b5 = 0 1 2 0 1 2 2 - -\n\
3 a2 b2 n2 = 0 1 - 0 1 - 0 - -\n\
4 b4 b4 = 0 1 - 0 1 - - - -\n\
3 a2 n2 b2 = 0 2 - 0 2 - 0 - -\n\
4 a3 b3 b3 b3 b3 a2 = 0 1 2 0 1 2 0 5 -\n\
1 n1 b1 b1 b1 n2 n3 b3 b3 = 1 2 3 1 2 3 - - -\n\
5 n6 = - - - - - - - - -\n\
5 b5 b5 n6 b6 b6 n6 b6 = 0 1 3 0 1 - - - -\n\
1 n2 b2 n3 n4 n4 n5 = 1 - - - - - - - -\n\
1 n2 b2 b2 b2 = 1 2 3 - - - - - -\n\
3 b3 a2 n2 n3 n4 b4 b4 b4 = 0 1 5 0 1 - 1 - -\n\
3 a2 b2 b2 n2 n3 b3 n4 b4 = 0 1 2 0 1 2 0 - -\n\
5 n5 n5 a4 b4 b4 = 2 3 4 2 3 4 2 - -\n\
2 a1 n2 a1 b1 b1 n1 = 0 3 4 0 3 4 0 - -\n\
2 a1 n1 b1 n2 = 0 2 - 0 2 - 0 - -\n\
3 n3 = - - - - - - - - -\n\
3 b3 a2 n2 b2 n2 n2 n2 b2 = 0 1 3 0 1 3 1 - -\n\
2 b2 b2 = 0 1 - 0 1 - - - -\n\
2 a1 n1 n1 n2 a1 n1 b1 n1 = 0 6 - 0 6 - 0 - -\n\
4 n5 b5 a4 b4 = 1 3 - 3 - - - - -\n\
4 b4 n4 a3 b3 b3 b3 n3 a2 = 0 2 3 0 2 3 2 7 -\n\
2 a1 b1 n2 b2 b2 n2 a1 n2 = 0 1 3 0 1 - 0 - -\n\
2 n2 b2 n2 b2 b2 n3 a2 = 1 3 4 1 3 4 - - -\n\
3 n4 a3 b3 a2 n2 = 2 3 - 2 3 - 3 - -\n\
5 b5 n5 n6 a5 n6 b6 b6 b6 b6 = 0 5 6 0 - - - - -\n\
2 b2 n3 b3 = 0 2 - 0 - - - - -\n\
1 n1 n2 n3 a2 n2 b2 = 5 - - - - - - - -\n\
2 b2 b2 n3 b3 n3 = 0 1 3 0 1 - - - -\n\
1 b1 n1 n2 b2 b2 n3 a2 n3 = 0 3 4 0 - - - - -\n\
2 n2 n2 b2 n3 n3 a2 b2 b2 b2 = 2 6 7 2 6 7 - - -\n\
1 b1 b1 b1 b1 = 0 1 2 0 1 2 - - -\n\
2 b2 n2 n2 b2 n2 b2 = 0 3 5 0 3 5 - - -\n\
4 n4 a3 b3 = 1 2 - 1 2 - 1 - -\n\
4 b4 b4 b4 b4 b4 b4 n5 a4 b4 = 0 1 2 0 1 2 - - -\n\
5 n6 b6 n6 a5 n5 = 1 - - - - - - - -\n\
1 b1 b1 = 0 1 - 0 1 - - - -\n\
2 a1 n1 n1 n1 n1 = 0 - - 0 - - 0 - -\n\
4 n5 n6 a5 = - - - - - - - - -\n\
3 b3 a2 = 0 1 - 0 1 - 1 - -\n\
2 n2 b2 b2 b2 b2 n3 b3 = 1 2 3 1 2 3 - - -\n\
3 n4 b4 = 1 - - - - - - - -\n\
5 n5 b5 b5 n6 b6 b6 b6 = 1 2 4 1 2 - - - -\n\
1 b1 b1 b1 = 0 1 2 0 1 2 - - -\n\
2 b2 a1 b1 n1 n1 = 0 1 2 0 1 2 1 - -\n\
1 b1 = 0 - - 0 - - - - -\n\
5 n5 n6 b6 b6 a5 a4 a3 n4 n4 = 2 3 5 5 6 - 5 6 -\n\
5 a4 n4 b4 a3 a2 = 0 2 3 0 2 3 0 3 4\n\
2 n2 n2 a1 b1 n1 n1 b1 = 2 3 6 2 3 6 2 - -\n\
1 n1 b1 = 1 - - 1 - - - - -\n\
5 n6 a5 b5 b5 b5 = 2 3 4 2 3 4 - - -\n\
1 b1 b1 n1 b1 b1 = 0 1 3 0 1 3 - - -\n\
3 b3 b3 b3 n4 = 0 1 2 0 1 2 - - -\n\
5 b5 a4 b4 a3 = 0 1 2 0 1 2 1 3 -\n\
2 n3 b3 b3 a2 b2 n2 n2 = 1 2 4 4 - - - - -\n\
2 a1 n1 n2 b2 n3 b3 a2 = 0 3 5 0 - - 0 - -\n\
5 a4 a3 b3 n4 n5 a4 a3 = 0 1 2 0 1 2 0 1 -\n\
5 b5 b5 a4 n4 = 0 1 2 0 1 2 2 - -\n\
4 n5 a4 a3 a2 n3 b3 a2 a1 = 2 3 5 2 3 7 2 3 7\n\
5 b5 n6 a5 n6 a5 a4 b4 a3 b3 = 0 5 6 0 5 6 5 7 -\n\
4 a3 b3 n3 b3 b3 a2 b2 n3 = 0 1 3 0 1 3 0 5 -\n\
3 a2 a1 n1 b1 n2 = 0 1 3 0 1 3 0 1 -\n\
4 n4 b4 b4 n5 a4 = 1 2 - 1 2 - - - -\n\
3 n4 a3 n3 n4 b4 b4 n5 b5 = 4 5 7 - - - - - -\n\
1 n1 b1 b1 b1 n1 b1 n2 b2 n3 = 1 2 3 1 2 3 - - -\n\
3 n4 a3 b3 = 2 - - 2 - - - - -\n\
1 b1 n1 n2 b2 b2 n3 = 0 3 4 0 - - - - -\n\
4 b4 b4 b4 b4 a3 b3 a2 = 0 1 2 0 1 2 4 6 -\n\
4 n4 b4 = 1 - - 1 - - - - -\n\
1 b1 b1 b1 n1 b1 = 0 1 2 0 1 2 - - -\n\
4 n4 b4 b4 a3 a2 = 1 2 3 1 2 3 3 4 -\n\
2 n2 b2 b2 a1 = 1 2 3 1 2 3 3 - -\n\
4 a3 = 0 - - 0 - - 0 - -\n\
4 n5 a4 b4 a3 n4 a3 a2 b2 b2 = 2 3 6 2 3 6 3 6 -\n\
5 b5 b5 b5 = 0 1 2 0 1 2 - - -\n\
3 b3 b3 n4 a3 b3 = 0 1 4 0 1 4 - - -\n\
2 b2 n2 = 0 - - 0 - - - - -\n\
4 b4 n4 n4 b4 b4 b4 b4 b4 b4 = 0 3 4 0 3 4 - - -\n\
2 b2 n3 n3 a2 b2 b2 = 0 4 5 0 4 5 - - -\n\
5 b5 b5 b5 b5 = 0 1 2 0 1 2 - - -\n\
3 a2 n3 a2 = 0 - - 0 - - 0 - -\n\
2 b2 b2 = 0 1 - 0 1 - - - -\n\
4 b4 b4 a3 n3 b3 b3 a2 a1 = 0 1 2 0 1 2 2 6 7\n\
5 b5 b5 n5 a4 n4 n4 b4 b4 = 0 1 3 0 1 3 3 - -\n\
2 n3 a2 n2 = - - - - - - - - -\n\
4 n5 b5 = 1 - - - - - - - -\n\
2 n3 b3 a2 n2 = 1 - - - - - - - -\n\
3 a2 a1 b1 b1 n2 n3 b3 b3 n4 = 0 1 2 0 1 2 0 1 -\n\
1 b1 n2 n2 a1 n1 n2 b2 b2 n2 = 0 6 7 0 - - - - -\n\
3 b3 = 0 - - 0 - - - - -\n\
4 b4 b4 b4 b4 n5 a4 a3 = 0 1 2 0 1 2 6 - -\n\
3 b3 a2 a1 n2 b2 n2 b2 = 0 1 2 0 1 2 1 2 -\n\
2 n3 b3 n3 b3 = 1 3 - - - - - - -\n\
5 n6 n6 a5 n5 b5 n6 n6 b6 = 4 7 - 4 - - - - -\n\
1 b1 n1 b1 = 0 2 - 0 2 - - - -\n\
4 a3 n3 n3 b3 b3 n3 = 0 3 4 0 3 4 0 - -\n\
4 b4 = 0 - - 0 - - - - -\n\
4 n4 b4 b4 b4 b4 b4 = 1 2 3 1 2 3 - - -\n\
1 n1 b1 b1 n1 n1 b1 b1 n2 b2 = 1 2 5 1 2 5 - - -\n\
4 b4 a3 n4 a3 = 0 1 - 0 1 - 1 - -\n\
2 b2 b2 b2 n2 b2 a1 n1 = 0 1 2 0 1 2 5 - -";

/// An event: whether it stands before a statement, whether after a call, and its depth.
#[derive(Drop)]
struct Placed {
    before: bool,
    after: bool,
    depth: u32,
}

/// The event of a word of the table.
fn event_of(word: &str) -> Option<Placed> {
    let before = word.strip_prefix('b');
    let after = word.strip_prefix('a');
    let depth = before.or(after).or(word.strip_prefix('n'))?;
    Some(Placed {
        before: before.is_some(),
        after: after.is_some(),
        depth: depth.parse::<u32>().ok()?,
    })
}

/// The event at which a step ends, counted from 0.
fn place_of(resume: &Resume, depth: u32, events: &str) -> Option<usize> {
    let mut stepper = Stepper::new();
    stepper.arm(resume, depth);
    for (i, word) in events.split(' ').enumerate() {
        let Some(event) = event_of(word) else {
            continue;
        };
        if stepper.see(event.before, event.after, event.depth) {
            return Some(i);
        }
    }
    None
}

/// The nine steps of a line.
fn resume_of(i: usize) -> Resume {
    match i {
        0 => Resume::Into(1),
        1 => Resume::Into(2),
        2 => Resume::Into(3),
        3 => Resume::Over(1),
        4 => Resume::Over(2),
        5 => Resume::Over(3),
        6 => Resume::Out(1),
        7 => Resume::Out(2),
        _ => Resume::Out(3),
    }
}

#[test]
fn steps_end_where_the_rule_says(rt: HostRuntime) -> Result<(), Fail> {
    let mut lines = 0u32;
    for line in STEPS.lines() {
        let (depth, rest) = line.split_once(' ').unwrap_or(("", ""));
        let (events, ends) = rest.split_once("= ").unwrap_or(("", ""));
        let depth = depth.parse::<u32>().unwrap_or(0);
        let mut steps = 0u32;
        for (i, end) in ends.split(' ').enumerate() {
            let place = place_of(&resume_of(i), depth, events);
            assert_eq!(rt; place, end.parse::<usize>().ok());
            steps = steps.saturating_add(1);
        }
        assert_eq!(rt; steps, 9);
        lines = lines.saturating_add(1);
    }
    assert_eq!(rt; lines, 120);
    stepping_law();
    script_law();
    Ok(())
}

/// A plan of one session, whose one answer disposes binding 4 and makes the call of frame 1 give 7.
fn plan(alloc: Global) -> Result<Plan, AllocError> {
    let mut acts = Vec::new(alloc);
    acts.push(Act::Dispose(4))?;
    let mut answers = Vec::new(alloc);
    answers.push(Answer {
        first: Items::of(acts),
        resume: Resume::Return(1, Value::Number(7)),
    })?;
    let mut sessions = Vec::new(alloc);
    sessions.push(Script {
        before: Items::of(Vec::new(alloc)),
        actions: Items::of(Vec::new(alloc)),
        answers: Items::of(answers),
    })?;
    Ok(Plan {
        sources: Items::of(Vec::new(alloc)),
        exports: Items::of(Vec::new(alloc)),
        contexts: Items::of(Vec::new(alloc)),
        bindings: Items::of(Vec::new(alloc)),
        sessions: Items::of(sessions),
    })
}

/// A suspension of a session, which is to be given this answer.
fn suspension(alloc: Global, session: u32, answer: u32) -> Suspension {
    Suspension {
        context: 0,
        session,
        number: 0,
        event: 8,
        anchor: Anchor::Before,
        node: NodeId(5),
        reasons: Items::of(Vec::new(alloc)),
        frames: Items::of(Vec::new(alloc)),
        answer,
        acts: Items::of(Vec::new(alloc)),
        resume: Resume::Continue,
    }
}

/// Whether it is the answer of the plan.
fn is_scripted(answer: &Answer) -> bool {
    let acts = answer.first.as_slice();
    acts.len() == 1
        && acts.first() == Some(&Act::Dispose(4))
        && matches!(answer.resume, Resume::Return(1, Value::Number(7)))
}

/// Whether it has no acts and the context goes on.
fn is_going_on(answer: &Answer) -> bool {
    answer.first.is_empty() && matches!(answer.resume, Resume::Continue)
}

#[test]
fn a_script_answers_and_then_goes_on(rt: HostRuntime) -> Result<(), Fail> {
    let alloc = rt.alloc();
    let plan = plan(alloc)?;
    let mut script = ScriptAnswerer::new(&plan);
    let first = script.answer(alloc, &suspension(alloc, 0, 0))?;
    assert!(rt; is_scripted(&first));
    assert!(rt; is_scripted(&copy_answer(alloc, &first)?));
    assert!(rt;
        matches!(
            copy_resume(&first.resume)?,
            Resume::Return(1, Value::Number(7))
        )
    );
    assert!(rt; is_scripted(&scripted_answer(alloc, &plan, 0, 0)?));
    // Past the script, and for a session that the plan doesn't have.
    assert!(rt; is_going_on(&script.answer(alloc, &suspension(alloc, 0, 1))?));
    assert!(rt; is_going_on(&script.answer(alloc, &suspension(alloc, 1, 0))?));
    assert!(rt; is_going_on(&goes_on(alloc)));
    Ok(())
}
