//! A utility that has nothing any more, of what it had: whether it is asked for each object by its id.
use crate::loopback::{NONE, ask, getting, start_under};
use crate::standin::{Answer, Answers, Asked, EVENTS, PROGRAMS, StandIn};
use std::net::TcpListener;
use std::test::Fail;

const EMPTY: &[Answer] = &[Answer::Page("[]")];

/// Where the programs end.
const END: &str = "/openadr3/programs?skip=11&limit=50";

/// The first of them by its id.
const FIRST: &str = "/openadr3/programs/p00";

/// A utility that has eleven programs at first, and then nothing.
const ELEVEN_FIRST: &[Answers] = &[
    Answers {
        target: PROGRAMS,
        each: &[
            Answer::Page(
                "[{\"id\":\"p00\",\"modificationDateTime\":\"2024-07-01T09:00:00Z\",\"programName\":\"n\"},{\"id\":\"p01\",\"modificationDateTime\":\"2024-07-01T09:00:00Z\",\"programName\":\"n\"},{\"id\":\"p02\",\"modificationDateTime\":\"2024-07-01T09:00:00Z\",\"programName\":\"n\"},{\"id\":\"p03\",\"modificationDateTime\":\"2024-07-01T09:00:00Z\",\"programName\":\"n\"},{\"id\":\"p04\",\"modificationDateTime\":\"2024-07-01T09:00:00Z\",\"programName\":\"n\"},{\"id\":\"p05\",\"modificationDateTime\":\"2024-07-01T09:00:00Z\",\"programName\":\"n\"},{\"id\":\"p06\",\"modificationDateTime\":\"2024-07-01T09:00:00Z\",\"programName\":\"n\"},{\"id\":\"p07\",\"modificationDateTime\":\"2024-07-01T09:00:00Z\",\"programName\":\"n\"},{\"id\":\"p08\",\"modificationDateTime\":\"2024-07-01T09:00:00Z\",\"programName\":\"n\"},{\"id\":\"p09\",\"modificationDateTime\":\"2024-07-01T09:00:00Z\",\"programName\":\"n\"},{\"id\":\"p10\",\"modificationDateTime\":\"2024-07-01T09:00:00Z\",\"programName\":\"n\"}]",
            ),
            Answer::Page("[]"),
        ],
    },
    Answers {
        target: END,
        each: EMPTY,
    },
    Answers {
        target: EVENTS,
        each: EMPTY,
    },
];

/// How many of these requests are for one program by its id.
fn probes(asked: &[Asked]) -> usize {
    asked
        .iter()
        .filter(|one| one.target().starts_with("/openadr3/programs/"))
        .count()
}

/// Whether a request for one program came behind so many rounds, and not before.
fn come_behind(asked: &[Asked], rounds: usize) -> bool {
    let mut begun = 0usize;
    for one in asked {
        if one.target() == PROGRAMS {
            begun = begun.saturating_add(1);
        }
        if one.target() == FIRST {
            return begun == rounds;
        }
    }
    false
}

/// A round finds no page with any of them: it asks for none, since the utility may be out of order. The next one finds
/// the same, and asks for each; all are gone.
#[test]
fn most_that_is_missed_is_asked_for_by_the_second_round(rt: HostRuntime) -> Result<(), Fail> {
    let alloc = rt.alloc();
    let utility = StandIn::start(
        rt,
        alloc,
        TcpListener::bind(&rt, "127.0.0.1:0")?,
        ELEVEN_FIRST,
    )?;
    let members = "\"poll\":1,\"workers\":1,\"stopAfter\":1";
    let node = start_under(rt, alloc, utility.at, members)?;
    // Three requests, then two, then two and one for each of the eleven, and the first of the next round.
    let came = utility.wait(&rt, 19);
    let listed = ask(&rt, alloc, node.at, getting(alloc, "/programs")?.as_bytes())?;
    assert!(rt; node.handle.join(&rt).is_ok());
    let asked = utility.stop(&rt)?;
    assert!(rt; came, "each is asked for");
    assert_eq!(rt; probes(asked.as_slice()), 11);
    assert!(rt; come_behind(asked.as_slice(), 3));
    assert_eq!(rt; listed.as_str(), NONE);
    Ok(())
}

/// Where that is wanted, the first round asks for each.
#[test]
fn most_that_is_missed_is_asked_for_at_once(rt: HostRuntime) -> Result<(), Fail> {
    let alloc = rt.alloc();
    let utility = StandIn::start(
        rt,
        alloc,
        TcpListener::bind(&rt, "127.0.0.1:0")?,
        ELEVEN_FIRST,
    )?;
    let members = "\"poll\":1,\"workers\":1,\"massDeletion\":\"at once\",\"stopAfter\":1";
    let node = start_under(rt, alloc, utility.at, members)?;
    let came = utility.wait(&rt, 17);
    let listed = ask(&rt, alloc, node.at, getting(alloc, "/programs")?.as_bytes())?;
    assert!(rt; node.handle.join(&rt).is_ok());
    let asked = utility.stop(&rt)?;
    assert!(rt; came, "each is asked for");
    assert_eq!(rt; probes(asked.as_slice()), 11);
    assert!(rt; come_behind(asked.as_slice(), 2));
    assert_eq!(rt; listed.as_str(), NONE);
    Ok(())
}
