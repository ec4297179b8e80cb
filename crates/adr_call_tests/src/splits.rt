//! Splits.
use adr_split::split;
use std::alloc::{AllocError, Global};
use std::process::Abort;
use std::test::Fail;

/// Splits after a test of the ranges, so that a table may hold any case.
fn parts_of(
    rt: &impl Abort,
    alloc: Global,
    setpoint: i64,
    shares: &[u32],
) -> Result<Vec<i64>, AllocError> {
    assert!(rt; setpoint.unsigned_abs() <= 1_000_000_000_000);
    assert!(rt; !shares.is_empty() && shares.len() <= 10_000);
    assert!(rt;
        shares
            .iter()
            .all(|share| 1 <= *share && *share <= 1_000_000)
    );
    split(alloc, setpoint, shares)
}

/// Row 6: `split(7, [2, 3, 5])` is 1, 2, 4.
/// Row 7: `split(10^12, [1000000, 999999])` is 500000250000, 499999750000.
/// Row 8: `split(2, [1, 1, 1, 1, 1])` is 1, 1, 0, 0, 0; `split(0, ..)` is zeros.
#[test]
fn worked_splits(rt: HostRuntime) -> Result<(), Fail> {
    let cases: [(i64, &[u32], &[i64]); 10] = [
        (7, &[2, 3, 5], &[1, 2, 4]),
        (
            1_000_000_000_000,
            &[1_000_000, 999_999],
            &[500_000_250_000, 499_999_750_000],
        ),
        (
            -1_000_000_000_000,
            &[1_000_000, 999_999],
            &[-500_000_250_000, -499_999_750_000],
        ),
        (2, &[1, 1, 1, 1, 1], &[1, 1, 0, 0, 0]),
        (0, &[4, 1, 9], &[0, 0, 0]),
        (100, &[1, 1, 1], &[34, 33, 33]),
        (-100, &[1, 1, 1], &[-34, -33, -33]),
        (-7, &[2, 3, 5], &[-1, -2, -4]),
        (1, &[1, 2], &[0, 1]),
        (12, &[1], &[12]),
    ];
    for (setpoint, shares, parts) in cases {
        let found = parts_of(&rt, rt.alloc(), setpoint, shares)?;
        assert!(rt; found.as_slice() == parts, "at {setpoint}");
    }
    Ok(())
}

#[test]
fn many_shares(rt: HostRuntime) -> Result<(), Fail> {
    let mut shares = Vec::new(rt.alloc());
    for place in 0..10_000u32 {
        shares.push(place * 97 % 1_000_000 + 1)?;
    }
    for setpoint in [1_000_000_000_000, -1_000_000_000_000] {
        let found = parts_of(&rt, rt.alloc(), setpoint, &shares)?;
        assert_eq!(rt; found.len(), 10_000);
        let total = found.iter().fold(0i64, |sum, part| sum.wrapping_add(*part));
        assert_eq!(rt; total, setpoint);
    }
    Ok(())
}
