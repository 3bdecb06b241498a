//! What a seat makes of the lists of one that it takes in.
ghost use Rattle.std.specs.Prelude.{◌≡◌, max, length, vec_len};
ghost use Rattle.pd_board.specs.declared.answers.Known.{Known};
ghost use Rattle.pd_shared.specs.Book.{unread};
ghost use Rattle.pd_shared.specs.Merged.{later, with_last, IsMerged};

use crate::token::Reads;
use pd_board::Known;

/// The later of what both know.
fn later_of(own: Known, other: Known) -> Known
    ensures { result ≡ later own other }
{
    match (own, other) {
        (Known::Fresh, known) => known,
        (Known::Attached, Known::Disposed) => Known::Disposed,
        (Known::Attached, _) => Known::Attached,
        (Known::Disposed, _) => Known::Disposed,
    }
}

/// Of each binding the later of what both know.
pub(crate) fn merge_known(own: &mut Vec<Known>, other: &[Known])
    requires { length other.now ≡ vec_len own.old }
    ensures { IsMerged later Known.Fresh (vec_len own.old) own.old.items other.now own.new.items }
{
    for i in 0..own.len() {
        own[i] = later_of(own[i], other[i]);
    }
}

/// Of each binding the greater count.
pub(crate) fn merge_counts(own: &mut Vec<u64>, other: &[u64])
    requires { length other.now ≡ vec_len own.old }
    ensures { IsMerged max 0 (vec_len own.old) own.old.items other.now own.new.items }
{
    for i in 0..own.len() {
        own[i] = own[i].max(other[i]);
    }
}

/// Of two reads the own number of loads, and the greater last number.
pub(crate) fn merge_last(own: Reads, other: Reads) -> Reads
    ensures { result ≡ with_last own other }
{
    Reads {
        loads: own.loads,
        last: own.last.max(other.last),
    }
}

/// Of each session the own number of loads, and the greater last number.
pub(crate) fn merge_reads(own: &mut Vec<Reads>, other: &[Reads])
    requires { length other.now ≡ vec_len own.old }
    ensures { IsMerged with_last unread (vec_len own.old) own.old.items other.now own.new.items }
{
    for i in 0..own.len() {
        own[i] = merge_last(own[i], other[i]);
    }
}
