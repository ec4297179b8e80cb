//! That the node keeps to the limits that its configuration says.
use crate::loopback::{CREATED, GET, LISTED, POST, ask, free, posting, replied, start_under};
use std::test::Fail;

/// There may be one ven: the second one is refused, and is not there.
#[test]
fn a_second_ven_is_one_too_many(rt: HostRuntime) -> Result<(), Fail> {
    let alloc = rt.alloc();
    let nobody = free(&rt)?;
    let node = start_under(
        rt,
        alloc,
        nobody,
        "\"poll\":1,\"workers\":1,\"limits\":{\"vens\":1},\"stopAfter\":3",
    )?;
    let first = ask(&rt, alloc, node.at, POST)?;
    let second = ask(
        &rt,
        alloc,
        node.at,
        posting(alloc, "/vens", "{\"venName\":\"beta\"}")?.as_bytes(),
    )?;
    let listed = ask(&rt, alloc, node.at, GET)?;
    assert!(rt; node.handle.join(&rt).is_ok());
    assert_eq!(rt; first.as_str(), CREATED);
    let refused = replied(
        alloc,
        "409 Conflict",
        "{\"detail\":\"too many objects\",\"status\":409,\"title\":\"LimitReached\"}",
    )?;
    assert_eq!(rt; second.as_str(), refused.as_str());
    assert_eq!(rt; listed.as_str(), LISTED);
    Ok(())
}
