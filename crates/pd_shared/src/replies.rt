//! What a word that an act found says of it.
ghost use Rattle.std.specs.Prelude.{◌≡◌, ◌<◌, vec_len};
ghost use Rattle.pd_shared.specs.Tied.{attach_of, dispose_of, toggle_of, known_set, known_switched};
ghost use Rattle.pd_shared.specs.Held.{counted_by};

use pd_board::{Attach, Dispose, Known, Toggle};
use pd_core::word::{is_attached, is_disposed, is_off, sum_of};

/// The answer of an attach that found this word.
pub(crate) fn attach_answer(word: u64) -> Attach
    ensures { result ≡ attach_of word }
{
    if is_attached(word) {
        Attach::Already
    } else if is_disposed(word) {
        Attach::Gone
    } else {
        Attach::Attached
    }
}

/// What is known of a binding after an attach that found this word.
pub(crate) fn known_attached(known: Known, word: u64) -> Known
    ensures { result ≡ known_set known word }
{
    if known == Known::Disposed || is_disposed(word) {
        Known::Disposed
    } else {
        Known::Attached
    }
}

/// The answer of a dispose that found this word.
pub(crate) fn dispose_answer(word: u64) -> Dispose
    ensures { result ≡ dispose_of word }
{
    if is_disposed(word) {
        Dispose::Already
    } else {
        Dispose::Disposed {
            count: sum_of(word),
        }
    }
}

/// Puts down the count that the answer of a dispose of the binding has.
pub(crate) fn put_count(counts: &mut Vec<u64>, b: u32, answer: Dispose)
    requires { b < vec_len counts.old }
    ensures { counts.new.items ≡ counted_by b answer counts.old.items }
{
    if let Dispose::Disposed { count } = answer {
        counts[b as usize] = count;
    }
}

/// The answer of a disable, or of an enable, that found this word.
pub(crate) fn toggle_answer(disables: bool, word: u64) -> Toggle
    ensures { result ≡ toggle_of disables word }
{
    if is_disposed(word) {
        Toggle::Gone
    } else if is_off(word) == disables {
        Toggle::Already
    } else {
        Toggle::At {
            count: sum_of(word),
        }
    }
}

/// What is known of a binding after a disable or an enable that found this word.
pub(crate) fn known_toggled(known: Known, word: u64) -> Known
    ensures { result ≡ known_switched known word }
{
    if is_disposed(word) {
        Known::Disposed
    } else {
        known
    }
}
