//! The queue alone: how much it holds, and that it counts what is put and taken.
use adr_delivery::{Job, JobMethod};
use adr_objects::Number;
use adr_subscription::FreeText;
use adr_work::JobQueue;
use std::alloc::Global;
use std::test::Fail;

fn job(alloc: Global, entry: u64) -> Result<Job, Fail> {
    Ok(Job {
        entry: Number::new(entry),
        lease: 1,
        destination: Number::new(1),
        method: JobMethod::Post,
        target: FreeText::new(alloc, "http://127.0.0.1:9001/n")?,
        token: None,
        body: FreeText::new(alloc, "{}")?,
    })
}

/// A queue for two jobs takes two, and a third where one was taken. Whoever waits for a move sees each.
#[test]
fn a_queue_of_two(rt: HostRuntime) -> Result<(), Fail> {
    let alloc = rt.alloc();
    let (queue, mut seat) = JobQueue::new(alloc, 2)?;
    let puts = queue.puts(&rt);
    let ends = queue.ends(&rt);
    assert!(rt; puts.is_some() && ends.is_some());
    assert!(rt; queue.put(&rt, &mut seat, job(alloc, 3)?).is_ok());
    assert!(rt; queue.put(&rt, &mut seat, job(alloc, 4)?).is_ok());
    assert!(rt; queue.puts(&rt) != puts);
    assert!(rt; queue.ends(&rt) == ends);
    assert!(rt; queue.is_full(&mut seat));
    assert!(rt; queue.put(&rt, &mut seat, job(alloc, 5)?).is_err());
    let first = queue.take(&rt, &mut seat).ok_or("no job")?;
    assert_eq!(rt; first.entry.get(), 3);
    assert!(rt; queue.ends(&rt) != ends);
    assert!(rt; !queue.is_full(&mut seat));
    assert!(rt; queue.put(&rt, &mut seat, job(alloc, 6)?).is_ok());
    queue.close(&rt);
    assert!(rt; queue.is_closed(&rt));
    assert!(rt; queue.puts(&rt).is_none() && queue.ends(&rt).is_none());
    Ok(())
}
