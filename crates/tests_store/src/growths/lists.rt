//! Growths of a list of submissions, to a store whose device takes its memory from the same allocator.

use crate::expecting::{expect_opened, expect_replies, expect_reply, expect_rows, expect_same};
use crate::hills::{created_on, new_in};
use hill_store::{Reply, Store};
use std::process::Abort;
use tests_stores::{EMPTY, FIRST, REPLIES, SECOND, SOURCES, TestMemory, close, placed, submit_all};

/// The sources are submitted to an empty hill, and this growth is refused, or none is: these are the replies. Each
/// warrior that was placed is on the hill, and on the one that is opened on its device, and no other.
fn expect_list<M: TestMemory>(
    rt: &impl Abort,
    memory: M,
    growth: (u64, u64),
    due: (&[Reply], usize),
) {
    let ((k, refused), (replies, placed)) = (growth, due);
    let mut store = created_on(rt, memory, new_in(rt, memory));
    memory.refuse(k, 1);
    expect_replies(rt, &mut store, &SOURCES, replies);
    expect_same(
        rt,
        &(k, memory.refused()),
        &(k, refused),
        "growths of a list refused",
    );
    memory.refuse(0, 0);
    expect_rows(rt, &store, placed);
    expect_opened(rt, memory, close(store), placed);
}

/// Whether there is no memory for the list of the replies.
fn is_refused<M: TestMemory>(store: &mut Store<M::Device, M>) -> bool {
    submit_all(store, &SOURCES).is_err()
}

/// The first growth is that of the list of the replies: without it nothing is submitted.
fn expect_no_list<M: TestMemory>(rt: &impl Abort, memory: M) {
    let mut store = created_on(rt, memory, new_in(rt, memory));
    memory.refuse(0, 1);
    let found = (is_refused(&mut store), memory.refused());
    expect_same(rt, &found, &(true, 1), "no list");
    expect_rows(rt, &store, 0);
    expect_reply(rt, &mut store, b"MOV 0,1", FIRST);
    drop(store);
}

/// The reply to a second warrior that loses both rounds.
const LOSES: Reply = placed!(2, 2, 0);

/// Numbers of growths of the list, in their order, and the replies if one of them is refused, with the number of
/// warriors placed: growths of the first source, of the device's writes for it, and so on. The third, without a line,
/// takes none, and the fourth writes to a sector that was written before. A warrior that finds no memory leaves its
/// entry and its place to the next. Nothing follows `Disk`.
static GROWTHS: [(u64, &[Reply], usize); 5] = [
    (10, &[Reply::Memory, FIRST, EMPTY, LOSES], 2),
    (5, &[Reply::Disk], 0),
    (10, &[FIRST, Reply::Memory, EMPTY, LOSES], 2),
    (4, &[FIRST, Reply::Disk], 1),
    (10, &[FIRST, SECOND, EMPTY, Reply::Memory], 2),
];

/// Each of `count` growths from growth `from` on is refused, and these are the replies. The growth after them is the
/// answer.
fn expect_each<M: TestMemory>(
    rt: &impl Abort,
    memory: M,
    from: u64,
    count: u64,
    due: (&[Reply], usize),
) -> u64 {
    let end = from.saturating_add(count);
    for k in from..end {
        expect_list(rt, memory, (k, 1), due);
    }
    end
}

/// The growth of the list of the replies, each growth after it, and then none.
pub(super) fn expect_list_growths<M: TestMemory>(rt: &impl Abort, memory: M) {
    expect_no_list(rt, memory);
    let mut k: u64 = 1;
    for (growths, replies, placed) in &GROWTHS {
        k = expect_each(rt, memory, k, *growths, (*replies, *placed));
    }
    expect_list(rt, memory, (k, 0), (&REPLIES, 2));
}
