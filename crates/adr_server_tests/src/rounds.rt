//! When the rounds come in which the utility is asked, and that none is the last.
use crate::loopback::{GET, NONE, ask, getting, replied, start_under};
use crate::standin::{Answer, Answers, Asked, EVENTS, MORE_PROGRAMS, PROGRAMS, StandIn};
use std::net::TcpListener;
use std::test::Fail;
use std::time::{Duration, Instant};

const EMPTY: &[Answer] = &[Answer::Page("[]")];

/// A utility that has nothing.
const NOTHING: &[Answers] = &[
    Answers {
        target: PROGRAMS,
        each: EMPTY,
    },
    Answers {
        target: EVENTS,
        each: EMPTY,
    },
];

/// A utility that is out of order at first.
const BROKEN_FIRST: &[Answers] = &[
    Answers {
        target: PROGRAMS,
        each: &[Answer::Fault, Answer::Page("[]")],
    },
    Answers {
        target: EVENTS,
        each: EMPTY,
    },
];

/// A utility that is out of order for three rounds.
const BROKEN_THRICE: &[Answers] = &[
    Answers {
        target: PROGRAMS,
        each: &[
            Answer::Fault,
            Answer::Fault,
            Answer::Fault,
            Answer::Page("[]"),
        ],
    },
    Answers {
        target: EVENTS,
        each: EMPTY,
    },
];

/// A utility that has two programs at first, and then one other.
const TWO_FIRST: &[Answers] = &[
    Answers {
        target: PROGRAMS,
        each: &[
            Answer::Page(
                "[{\"id\":\"p2\",\"modificationDateTime\":\"2024-07-01T09:00:00Z\",\"programName\":\"two\"},{\"id\":\"p3\",\"modificationDateTime\":\"2024-07-01T09:00:00Z\",\"programName\":\"three\"}]",
            ),
            Answer::Page(
                "[{\"id\":\"p1\",\"modificationDateTime\":\"2024-07-01T09:00:00Z\",\"programName\":\"one\"}]",
            ),
        ],
    },
    Answers {
        target: MORE_PROGRAMS,
        each: EMPTY,
    },
    Answers {
        target: EVENTS,
        each: EMPTY,
    },
];

/// The one program that fits, as it is listed.
const ONE: &str =
    "[{\"createdDateTime\":\"2024-07-01T10:00:00Z\",\"id\":\"p1\",\"modificationDateTime\":\"2024-07-01T10:00:00Z\",\"objectType\":\"PROGRAM\",\"programName\":\"one\"}]";

/// How many rounds began, and whether each began so long after the one before.
fn began(asked: &[Asked], least: Duration, most: Duration) -> (u32, bool) {
    let mut count = 0u32;
    let mut in_time = true;
    let mut last: Option<Instant> = None;
    for one in asked.iter().filter(|one| one.target() == PROGRAMS) {
        if let Some(last) = last {
            in_time &= match one.at.checked_duration_since(last) {
                Some(after) => least <= after && after <= most,
                None => false,
            };
        }
        last = Some(one.at);
        count = count.saturating_add(1);
    }
    (count, in_time)
}

/// Whether each round began at least so long after the one before, from a second on and twice as long each time. The
/// clock of a round that is looked at here begins a little later than its own.
fn rest_twice_as_long(asked: &[Asked]) -> bool {
    let mut least = Duration::from_millis(900);
    let mut in_time = true;
    let mut last: Option<Instant> = None;
    for one in asked.iter().filter(|one| one.target() == PROGRAMS) {
        if let Some(last) = last {
            in_time &= match one.at.checked_duration_since(last) {
                Some(after) => least <= after,
                None => false,
            };
            least = least.saturating_add(least);
        }
        last = Some(one.at);
    }
    in_time
}

/// Whether what came first asked for these targets, in this order.
fn begins_with(asked: &[Asked], targets: &[&str]) -> bool {
    targets.len() <= asked.len()
        && asked
            .iter()
            .zip(targets.iter())
            .all(|(one, target)| one.target() == *target)
}

/// With one worker, and two seconds between two rounds, so that the one number is not taken for the other.
#[test]
fn rounds_are_as_far_apart_as_is_said(rt: HostRuntime) -> Result<(), Fail> {
    let alloc = rt.alloc();
    let utility = StandIn::start(rt, alloc, TcpListener::bind(&rt, "127.0.0.1:0")?, NOTHING)?;
    let node = start_under(
        rt,
        alloc,
        utility.at,
        "\"poll\":2,\"workers\":1,\"stopAfter\":1",
    )?;
    // Two rounds of two requests, and the first of the third.
    let came = utility.wait(&rt, 5);
    let listed = ask(&rt, alloc, node.at, GET)?;
    assert!(rt; node.handle.join(&rt).is_ok());
    let asked = utility.stop(&rt)?;
    assert!(rt; came, "three rounds begin");
    let (count, in_time) = began(
        asked.as_slice(),
        Duration::from_millis(1_500),
        Duration::from_secs(6),
    );
    assert!(rt; 3 <= count);
    assert!(rt; in_time, "a round is too early, or too late");
    assert_eq!(rt; listed.as_str(), NONE);
    Ok(())
}

/// A page fails, and the round with it. The next round asks again, from the first page on.
#[test]
fn a_round_that_breaks_is_not_the_last(rt: HostRuntime) -> Result<(), Fail> {
    let alloc = rt.alloc();
    let utility = StandIn::start(
        rt,
        alloc,
        TcpListener::bind(&rt, "127.0.0.1:0")?,
        BROKEN_FIRST,
    )?;
    let node = start_under(
        rt,
        alloc,
        utility.at,
        "\"poll\":1,\"workers\":1,\"stopAfter\":1",
    )?;
    let came = utility.wait(&rt, 3);
    let listed = ask(&rt, alloc, node.at, GET)?;
    assert!(rt; node.handle.join(&rt).is_ok());
    let asked = utility.stop(&rt)?;
    assert!(rt; came, "a round comes behind the broken one");
    assert!(rt; begins_with(asked.as_slice(), &[PROGRAMS, PROGRAMS, EVENTS]));
    assert_eq!(rt; listed.as_str(), NONE);
    Ok(())
}

/// Three rounds break off, one after another: the next ones come after 1, 2 and 4 seconds, long before the rest of a
/// round that is whole.
#[test]
fn rounds_that_break_are_made_again_soon(rt: HostRuntime) -> Result<(), Fail> {
    let alloc = rt.alloc();
    let utility = StandIn::start(
        rt,
        alloc,
        TcpListener::bind(&rt, "127.0.0.1:0")?,
        BROKEN_THRICE,
    )?;
    let node = start_under(
        rt,
        alloc,
        utility.at,
        "\"poll\":60,\"workers\":1,\"stopAfter\":1",
    )?;
    // Three rounds of one request, and one of two, within ten seconds or a little more.
    let came = utility.wait(&rt, 3) && utility.wait(&rt, 5);
    let listed = ask(&rt, alloc, node.at, GET)?;
    assert!(rt; node.handle.join(&rt).is_ok());
    let asked = utility.stop(&rt)?;
    assert!(rt; came, "a whole round comes behind the broken ones");
    assert!(rt;
        begins_with(
            asked.as_slice(),
            &[PROGRAMS, PROGRAMS, PROGRAMS, PROGRAMS, EVENTS]
        )
    );
    assert!(rt;
        rest_twice_as_long(asked.as_slice()),
        "a round is too early"
    );
    assert_eq!(rt; listed.as_str(), NONE);
    Ok(())
}

/// A page has more programs than the node may keep: it is refused whole, and the round ends with it. The next round is
/// taken, of which the page has one that fits.
#[test]
fn a_round_that_is_refused_is_not_the_last(rt: HostRuntime) -> Result<(), Fail> {
    let alloc = rt.alloc();
    let utility = StandIn::start(rt, alloc, TcpListener::bind(&rt, "127.0.0.1:0")?, TWO_FIRST)?;
    let node = start_under(
        rt,
        alloc,
        utility.at,
        "\"poll\":1,\"workers\":1,\"limits\":{\"keys\":1},\"stopAfter\":1",
    )?;
    let came = utility.wait(&rt, 4);
    let listed = ask(&rt, alloc, node.at, getting(alloc, "/programs")?.as_bytes())?;
    assert!(rt; node.handle.join(&rt).is_ok());
    let asked = utility.stop(&rt)?;
    assert!(rt; came, "a round comes behind the refused one");
    assert!(rt;
        begins_with(
            asked.as_slice(),
            &[PROGRAMS, PROGRAMS, MORE_PROGRAMS, EVENTS]
        )
    );
    let one = replied(alloc, "200 OK", ONE)?;
    assert_eq!(rt; listed.as_str(), one.as_str());
    Ok(())
}
