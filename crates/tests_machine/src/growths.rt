//! Growths that are refused, one by one: which calls take memory, and how often.

use crate::expecting::expect_same;
use crate::making::{hill_of_two, settings_of};
use crate::replays::replayed;
use koth_hill::Hill;
use koth_page::{Address, Links, Origin, RANKING, Ranked, Sign, TITLE, hill_page, ranking_page};
use koth_text::Tally;
use koth_views::hill_view;
use mars_core::{Arena, Outcome};
use std::alloc::{AllocError, Global};
use std::process::Abort;
use tests_fixtures::{MOST_RUNS, Refusing, SMALL};
use war_types::Settings;

/// What the page of a hill says that the hill doesn't know.
const SIGN: Sign<'static> = Sign {
    title: TITLE,
    address: Some(Address {
        joined: b"a.example:80",
        apart: b"a.example 80",
    }),
};

/// A row of a ranking.
const ROW: Ranked<'static> = Ranked {
    number: 1,
    name: b"One",
    author: b"A.",
    points: 3,
    rounds: Tally {
        won: 1,
        lost: 0,
        tied: 0,
    },
    origin: Origin::File(b"one.red"),
};

/// Calls that take memory.
#[derive(Clone, Copy)]
enum Call {
    Arena,
    Hill,
    Rows,
    Table,
    Page(Links),
    Ranking,
    Replay,
}

/// Whether a round in a new arena is tied, if there is memory for one.
fn ties_in(memory: &Refusing<Global>, settings: &Settings) -> Option<bool> {
    match Arena::new(memory, settings) {
        Ok(mut arena) => {
            let outcome = arena.play();
            drop(arena);
            Some(outcome == Outcome::Tie)
        }
        Err(AllocError) => None,
    }
}

/// Whether a new hill has the counter that it is given, if there is memory for one.
fn counts_in(memory: &Refusing<Global>, settings: &Settings) -> Option<bool> {
    match Hill::with_counter(memory, *settings, 7) {
        Ok(hill) => {
            let counter = hill.counter();
            drop(hill);
            Some(counter == 7)
        }
        Err(AllocError) => None,
    }
}

/// Whether the table of a hill of two has two rows, if there is memory for it.
fn rows_in(memory: &Refusing<Global>, hill: &Hill<&Refusing<Global>>) -> Option<bool> {
    match hill.rows(memory) {
        Ok(rows) => {
            let count = rows.len();
            drop(rows);
            Some(count == 2)
        }
        Err(AllocError) => None,
    }
}

/// Whether a text has a byte, if there is memory for it.
fn has_text(text: Result<Vec<u8, &Refusing<Global>>, AllocError>) -> Option<bool> {
    match text {
        Ok(text) => {
            let is_empty = text.is_empty();
            drop(text);
            Some(!is_empty)
        }
        Err(AllocError) => None,
    }
}

/// The page of a ranking of two, by the results of a hill.
fn ranked_page<'m>(
    memory: &'m Refusing<Global>,
    hill: &Hill<&Refusing<Global>>,
) -> Result<Vec<u8, &'m Refusing<Global>>, AllocError> {
    let two = [ROW, Ranked { number: 2, ..ROW }];
    ranking_page(memory, RANKING, hill.settings(), false, &two, hill)
}

/// Whether a replay has the one turn of its round, if there is memory for it.
fn turns_in(rt: &impl Abort, calm: &Refusing<Global>, memory: &Refusing<Global>) -> Option<bool> {
    match replayed(rt, calm, memory, 0, 9) {
        Some((turns, _, _)) => Some(turns == 1),
        None => None,
    }
}

/// Whether a call gives what is due, if there is memory for it. All that it is lent is in `calm`.
fn is_given(
    rt: &impl Abort,
    calm: &Refusing<Global>,
    memory: &Refusing<Global>,
    hill: &Hill<&Refusing<Global>>,
    call: Call,
) -> Option<bool> {
    match call {
        Call::Arena => ties_in(memory, hill.settings()),
        Call::Hill => counts_in(memory, hill.settings()),
        Call::Rows => rows_in(memory, hill),
        Call::Table => has_text(hill_view(memory, hill)),
        Call::Page(links) => has_text(hill_page(memory, hill, &SIGN, links)),
        Call::Ranking => has_text(ranked_page(memory, hill)),
        Call::Replay => turns_in(rt, calm, memory),
    }
}

/// How many growths a call of this name has. Each of them is refused in turn, and then the call gives nothing. With
/// memory it gives what is due.
fn growths_of(
    rt: &impl Abort,
    calm: &Refusing<Global>,
    memory: &Refusing<Global>,
    hill: &Hill<&Refusing<Global>>,
    name: &str,
    call: Call,
) -> u64 {
    for k in 0..MOST_RUNS {
        memory.refuse(k, 1);
        let found = is_given(rt, calm, memory, hill, call);
        if memory.refused() == 0 {
            expect_same(rt, &found, &Some(true), name);
            return k;
        }
        expect_same(rt, &found, &None, name);
    }
    panic!(rt; "it has more growths")
}

/// A call, its least number of growths, and its greatest.
static CALLS: [(&str, Call, u64, u64); 8] = [
    // its cells, the list of those that were written, and two queues
    ("an arena", Call::Arena, 4, 4),
    ("a hill", Call::Hill, 1, 1),
    ("rows", Call::Rows, 1, 1),
    ("a table", Call::Table, 1, MOST_RUNS),
    ("a page", Call::Page(Links::None), 1, MOST_RUNS),
    ("a page with links", Call::Page(Links::Rounds), 1, MOST_RUNS),
    ("a page of a ranking", Call::Ranking, 1, MOST_RUNS),
    // what is loaded, the turn's events, and the list of turns
    ("a replay", Call::Replay, 3, 3),
];

/// Each of these calls has as many growths as it is to have.
fn check_calls(rt: &impl Abort, calm: &Refusing<Global>, memory: &Refusing<Global>) {
    let hill = hill_of_two(rt, calm, settings_of(rt, SMALL));
    for row in &CALLS {
        let (name, call, least, most) = *row;
        let count = growths_of(rt, calm, memory, &hill, name, call);
        let is_due = least <= count && count <= most;
        expect_same(rt, &is_due, &true, format_args!("{name}: {count} growths"));
    }
    drop(hill);
}

#[test]
fn each_growth_of_a_call(rt: HostRuntime) {
    let calm = Refusing::new(rt.alloc());
    let memory = Refusing::new(rt.alloc());
    check_calls(&rt, &calm, &memory);
    drop(memory);
    drop(calm);
}
