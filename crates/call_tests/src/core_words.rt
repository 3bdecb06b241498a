//! `pd_core`: the steps on the shared words, alone and in threads.
ghost use Rattle.std.specs.Prelude.{◌≡◌, ◌<◌, ◌≤◌, true, IfOk, IfSome};
ghost use Rattle.pd_core.specs.Layout.{bindings, layout_of};
ghost use Rattle.pd_core.specs.Views.{first_view, known, found_attached};
ghost use Rattle.pd_core.specs.Examples.{one_binding, IsAttached};

use pd_core::hub::{Core, Pass, bits_come_by_set_bit, every_run_is_good};
use pd_core::word::{has_bit, is_attached, is_disposed, is_live, is_off, sum_of};
use std::alloc::{AllocError, Global};
use std::process::Abort;
use std::thread;
use std::thread::Threads;

// One binding, which matches node 3 of 8.
fn one_row(alloc: Global) -> Result<Vec<Vec<u32>>, AllocError>
    ensures { IfOk result (λ rows. layout_of 8 rows.items 1 2 ≡ one_binding) }
{
    let mut row = Vec::new(alloc);
    row.push(3u32)?;
    let mut rows = Vec::new(alloc);
    rows.push(row)?;
    Ok(rows)
}

fn fixture(alloc: Global) -> Result<(Core, Pass), AllocError>
    ensures { IfOk result (λ r. (r.0.layout ≡ one_binding) × (r.1.id ≡ r.0.id) × (r.1.view ≡ first_view)) }
{
    Core::new(alloc, one_row(alloc)?, 8, 1, 2)
}

// Each kind of step once, some twice, and the words that they found. `None` where one found what rules out the next.
fn steps(core: &Core, p: &mut Pass) -> Option<[u64; 17]>
    requires { (p.old.id ≡ core.now.id) × (core.now.layout ≡ one_binding) × (p.old.view ≡ first_view) }
    ensures { p.new.id ≡ p.old.id }
{
    let mut q = core.split(p);
    let loaded = core.load_node(p, 3);
    let bit = core.set_bit(p, 3, 0);
    let summary = core.set_summary(p, 3, 0);
    let made = core.set_attached(p, 0);
    if is_disposed(made) {
        return None;
    }
    let on = core.add_draw(p, 4, 0);
    if !is_live(on) {
        return None;
    }
    let off = core.set_off(p, 0);
    if is_disposed(off) {
        return None;
    }
    let missed = core.add_draw(p, 5, 0);
    let back = core.clear_off(p, 0);
    let again = core.load_node(p, 3);
    if !has_bit(again, 0) {
        return None;
    }
    let row = core.load_row(p, 3, 0);
    let gone = core.set_disposed(p, 0);
    let looked = core.load_binding(&mut q, 6, 0);
    if !is_disposed(looked) {
        return None;
    }
    let cleared = core.clear_bit(&mut q, 3, 0);
    let answer = core.add_answer(&mut q, 0);
    let answers = core.load_answers(p, 0);
    let end = core.add_end(&mut q);
    let ends = core.load_ends(p);
    core.join(p, q);
    Some([
        loaded, bit, summary, made, on, off, missed, back, again, row, gone, looked, cleared,
        answer, answers, end, ends,
    ])
}

// How many contexts there are, the words that the steps found, and the words at the end.
fn played(alloc: Global) -> Result<(u32, Option<[u64; 17]>, Vec<u64>), AllocError> {
    let (core, mut p) = fixture(alloc)?;
    let contexts = core.contexts();
    let found = steps(&core, &mut p);
    let words = core.close(alloc, p)?;
    Ok((contexts, found, words))
}

// attached is 1, disposed 2, off 4, and a draw adds 8
const FOUND: [u64; 17] = [0, 0, 0, 0, 1, 9, 13, 21, 1, 1, 17, 19, 1, 0, 1, 0, 1];

const WORDS: [u64; 19] = [0, 0, 0, 1, 0, 0, 0, 0, 0, 0, 0, 0, 0, 0, 0, 0, 19, 1, 1];

#[test]
fn each_kind_once(rt: HostRuntime) -> Result<(), AllocError> {
    let (contexts, found, words) = played(rt.alloc())?;
    assert_eq!(rt; contexts, 2);
    match found {
        Some(found) => assert_eq!(rt; found.as_slice(), FOUND.as_slice()),
        None => assert!(rt; false, "each step may be taken"),
    }
    assert_eq!(rt; words.as_slice(), WORDS.as_slice());
    Ok(())
}

#[test]
fn laws_are_called() {
    every_run_is_good();
    bits_come_by_set_bit();
}

// What a word says: attached, disposed, off, live; and its sum.
fn expect_word(rt: &impl Abort, word: u64, expected: [bool; 4], sum: u64) {
    let found = [
        is_attached(word),
        is_disposed(word),
        is_off(word),
        is_live(word),
    ];
    assert_eq!(rt; found.as_slice(), expected.as_slice(), "at {word}");
    assert_eq!(rt; sum_of(word), sum, "at {word}");
}

#[test]
fn reads_words(rt: HostRuntime) {
    expect_word(&rt, 0, [false, false, false, false], 0);
    expect_word(&rt, 1, [true, false, false, true], 0);
    expect_word(&rt, 2, [false, true, false, false], 0);
    expect_word(&rt, 3, [true, true, false, false], 0);
    expect_word(&rt, 21, [true, false, true, true], 2);
    expect_word(&rt, 8 * 5 + 4, [false, false, true, false], 5);
    assert!(rt; has_bit(1 << 63, 63));
    assert!(rt; !has_bit(1 << 63, 62));
}

// Switches a binding off and on, and disposes of it: how often this found it not disposed yet.
fn dispose(core: &Core, mut p: Pass, b: u32) -> (Pass, u64)
    requires { (p.id ≡ core.now.id) × (b < bindings core.now.layout) }
    ensures { result.0.id ≡ p.id }
{
    core.set_off(&mut p, b);
    core.clear_off(&mut p, b);
    let old = core.set_disposed(&mut p, b);
    (p, if is_disposed(old) { 0 } else { 1 })
}

// Two threads dispose of one binding, and the passes come together again.
fn dispose_twice<R: Threads + Sync>(
    rt: &R,
    core: &Core,
    first: Pass,
    second: Pass,
    b: u32,
) -> (Pass, u64)
    requires { (first.id ≡ core.now.id) × (second.id ≡ core.now.id) × (b < bindings core.now.layout) }
    ensures { result.0.id ≡ core.now.id }
{
    let ((mut one, m), (other, n)) = thread::join(
        rt,
        move || -> (Pass, u64)
            requires { (first.id ≡ core.now.id) × (b < bindings core.now.layout) }
            ensures { result.0.id ≡ core.entry.now.id }
        { dispose(core, first, b) },
        move || -> (Pass, u64)
            requires { (second.id ≡ core.now.id) × (b < bindings core.now.layout) }
            ensures { result.0.id ≡ core.entry.now.id }
        { dispose(core, second, b) },
    );
    core.join(&mut one, other);
    (one, m.wrapping_add(n))
}

// Splits a fresh pass.
fn halved(core: &Core, p: &mut Pass) -> Pass
    requires { (p.old.id ≡ core.now.id) × (core.now.layout ≡ one_binding) × (p.old.view ≡ first_view) }
    ensures { (p.new.id ≡ core.now.id) × (result.id ≡ core.now.id) }
{
    core.split(p)
}

// How often two threads found the one binding not disposed yet, and the words at the end.
fn disposals<R: Threads + Sync>(rt: &R, alloc: Global) -> Result<(u64, Vec<u64>), AllocError> {
    let (core, mut p) = fixture(alloc)?;
    let q = halved(&core, &mut p);
    let (last, firsts) = dispose_twice(rt, &core, p, q, 0);
    let words = core.close(alloc, last)?;
    Ok((firsts, words))
}

const DISPOSED: [u64; 19] = [0, 0, 0, 0, 0, 0, 0, 0, 0, 0, 0, 0, 0, 0, 0, 0, 2, 0, 0];

#[test]
fn one_thread_disposes(rt: HostRuntime) -> Result<(), AllocError> {
    for _ in 0..200 {
        let (firsts, words) = disposals(&rt, rt.alloc())?;
        assert_eq!(rt; firsts, 1);
        assert_eq!(rt; words.as_slice(), DISPOSED.as_slice());
    }
    Ok(())
}

// Attaches the binding, and tells whether it was not disposed.
fn attach(core: &Core, p: &mut Pass) -> bool
    requires { (p.old.id ≡ core.now.id) × (core.now.layout ≡ one_binding) × (p.old.view ≡ first_view) }
    ensures id { p.new.id ≡ p.old.id }
    ensures attached { result ≡ true → IsAttached p.new.view }
{
    core.set_bit(p, 3, 0);
    core.set_summary(p, 3, 0);
    let made = core.set_attached(p, 0);
    !is_disposed(made)
}

const NONE: u64 = 63;

// Draws twice from the binding: the numbers drawn, below `NONE`, where it was live.
fn draw_twice(core: &Core, mut p: Pass) -> (Pass, [u64; 2])
    requires { (p.id ≡ core.now.id) × (core.now.layout ≡ one_binding) × (known p.view 0 ≡ found_attached) × (2 ≤ p.view.draw_share) }
    ensures { result.0.id ≡ p.id }
{
    let one = core.add_draw(&mut p, 0, 0);
    if !is_live(one) {
        return (p, [NONE, NONE]);
    }
    let two = core.add_draw(&mut p, 1, 0);
    (
        p,
        [sum_of(one), if is_live(two) { sum_of(two) } else { NONE }],
    )
}

// Draws, switches the binding off and on, draws again and disposes of it: the numbers, and the count that was found.
fn draw_and_dispose(core: &Core, mut p: Pass) -> (Pass, [u64; 2], u64)
    requires { (p.id ≡ core.now.id) × (core.now.layout ≡ one_binding) × (known p.view 0 ≡ found_attached) × (2 ≤ p.view.draw_share) }
    ensures { result.0.id ≡ p.id }
{
    let (mut p, drawn) = draw_twice(core, p);
    core.set_off(&mut p, 0);
    core.clear_off(&mut p, 0);
    let old = core.set_disposed(&mut p, 0);
    (p, drawn, sum_of(old))
}

// Three threads draw beside one that draws, toggles and disposes: the numbers that they got, as bits, how many, and the count.
fn draw_beside<R: Threads + Sync>(
    rt: &R,
    core: &Core,
    first: Pass,
    second: Pass,
    third: Pass,
    fourth: Pass,
) -> (Pass, u64, u64, u64)
    requires { (core.now.layout ≡ one_binding) × ((first.id ≡ core.now.id) × (known first.view 0 ≡ found_attached) × (2 ≤ first.view.draw_share)) × ((second.id ≡ core.now.id) × (known second.view 0 ≡ found_attached) × (2 ≤ second.view.draw_share)) × ((third.id ≡ core.now.id) × (known third.view 0 ≡ found_attached) × (2 ≤ third.view.draw_share)) × ((fourth.id ≡ core.now.id) × (known fourth.view 0 ≡ found_attached) × (2 ≤ fourth.view.draw_share)) }
    ensures { result.0.id ≡ core.now.id }
{
    let (one, others) = thread::join(
        rt,
        move || -> (Pass, [u64; 2], u64)
            requires { (first.id ≡ core.now.id) × (core.now.layout ≡ one_binding) × (known first.view 0 ≡ found_attached) × (2 ≤ first.view.draw_share) }
            ensures { result.0.id ≡ core.entry.now.id }
        { draw_and_dispose(core, first) },
        move || -> ((Pass, [u64; 2]), ((Pass, [u64; 2]), (Pass, [u64; 2])))
            requires { ((second.id ≡ core.now.id) × (core.now.layout ≡ one_binding) × (known second.view 0 ≡ found_attached) × (2 ≤ second.view.draw_share)) × ((third.id ≡ core.now.id) × (known third.view 0 ≡ found_attached) × (2 ≤ third.view.draw_share)) × ((fourth.id ≡ core.now.id) × (known fourth.view 0 ≡ found_attached) × (2 ≤ fourth.view.draw_share)) }
            ensures { (result.0.0.id ≡ core.entry.now.id) × (result.1.0.0.id ≡ core.entry.now.id) × (result.1.1.0.id ≡ core.entry.now.id) }
        {
            thread::join(
                rt,
                move || -> (Pass, [u64; 2])
                    requires { (second.id ≡ core.now.id) × (core.now.layout ≡ one_binding) × (known second.view 0 ≡ found_attached) × (2 ≤ second.view.draw_share) }
                    ensures { result.0.id ≡ core.entry.now.id }
                { draw_twice(core, second) },
                move || -> ((Pass, [u64; 2]), (Pass, [u64; 2]))
                    requires { (core.now.layout ≡ one_binding) × ((third.id ≡ core.now.id) × (known third.view 0 ≡ found_attached) × (2 ≤ third.view.draw_share)) × ((fourth.id ≡ core.now.id) × (known fourth.view 0 ≡ found_attached) × (2 ≤ fourth.view.draw_share)) }
                    ensures { (result.0.0.id ≡ core.entry.now.id) × (result.1.0.id ≡ core.entry.now.id) }
                {
                    thread::join(
                        rt,
                        move || -> (Pass, [u64; 2])
                            requires { (third.id ≡ core.now.id) × (core.now.layout ≡ one_binding) × (known third.view 0 ≡ found_attached) × (2 ≤ third.view.draw_share) }
                            ensures { result.0.id ≡ core.entry.now.id }
                        { draw_twice(core, third) },
                        move || -> (Pass, [u64; 2])
                            requires { (fourth.id ≡ core.now.id) × (core.now.layout ≡ one_binding) × (known fourth.view 0 ≡ found_attached) × (2 ≤ fourth.view.draw_share) }
                            ensures { result.0.id ≡ core.entry.now.id }
                        { draw_twice(core, fourth) },
                    )
                },
            )
        },
    );
    let (mut p, a, count) = one;
    let (two, rest) = others;
    let (q, b) = two;
    let (three, four) = rest;
    let (r, c) = three;
    let (s, d) = four;
    core.join(&mut p, q);
    core.join(&mut p, r);
    core.join(&mut p, s);
    let (seen, got) = tally(&[a, b, c, d]);
    (p, seen, got, count)
}

// One round: attaches, splits in four, and draws beside the disposal.
fn round<R: Threads + Sync>(rt: &R, core: &Core, mut p: Pass) -> Option<(Pass, u64, u64, u64)>
    requires { (p.id ≡ core.now.id) × (core.now.layout ≡ one_binding) × (p.view ≡ first_view) }
    ensures { IfSome result (λ r. r.0.id ≡ core.now.id) }
{
    let ready = attach(core, &mut p);
    if !ready {
        return None;
    }
    let q = core.split(&mut p);
    let r = core.split(&mut p);
    let s = core.split(&mut p);
    Some(draw_beside(rt, core, p, q, r, s))
}

// Which numbers were drawn, as bits, and how many.
fn tally(drawn: &[[u64; 2]; 4]) -> (u64, u64) {
    let mut seen = 0u64;
    let mut got = 0u64;
    for pair in drawn {
        for n in pair {
            if *n < NONE {
                seen |= 1 << *n;
                got = got.wrapping_add(1);
            }
        }
    }
    (seen, got)
}

#[test]
fn numbers_once_each(rt: HostRuntime) -> Result<(), AllocError> {
    for _ in 0..100 {
        let (core, p) = fixture(rt.alloc())?;
        match round(&rt, &core, p) {
            None => assert!(rt; false, "the binding is attached"),
            Some((last, seen, got, count)) => {
                // the numbers below the count, each once
                assert_eq!(rt; got, count);
                assert!(rt; count < NONE);
                assert_eq!(rt; seen, (1 << count) - 1);
                core.close(rt.alloc(), last)?;
            }
        }
    }
    Ok(())
}
