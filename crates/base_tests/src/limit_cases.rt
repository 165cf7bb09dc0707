// Limits: sums, order, and one more condition on a matrix.
#[cfg(test)]
mod tests {
    use crate::written::{Written, refusal, written};
    use limits::Mark::{AtMost, Less};
    use limits::{DifferenceBound, Fault, FineLimit, Limit, Ticks, WholeLimit, tighten};
    use std::test::Fail;

    fn fine(written: Written) -> Result<FineLimit, Fault> {
        match written {
            None => Ok(FineLimit::none()),
            Some((Less, ticks)) => FineLimit::below(Ticks::new(ticks)?),
            Some((AtMost, ticks)) => Ok(FineLimit::up_to(Ticks::new(ticks)?)),
        }
    }

    // Two limits, whether the first is at most the second, and their sum, or the refusal's number.
    const SUMS: [(Written, Written, bool, Result<Written, u8>); 12] = [
        (
            Some((AtMost, 2)),
            Some((Less, 3)),
            true,
            Ok(Some((Less, 5))),
        ),
        (Some((Less, 2)), Some((Less, 3)), true, Ok(Some((Less, 5)))),
        (
            Some((AtMost, 2)),
            Some((AtMost, -3)),
            false,
            Ok(Some((AtMost, -1))),
        ),
        (
            Some((Less, 5)),
            Some((AtMost, 5)),
            true,
            Ok(Some((Less, 10))),
        ),
        (
            Some((AtMost, 5)),
            Some((Less, 5)),
            false,
            Ok(Some((Less, 10))),
        ),
        (Some((Less, 5)), Some((Less, 5)), true, Ok(Some((Less, 10)))),
        (None, Some((AtMost, 4_000_000_000)), false, Ok(None)),
        (Some((Less, -7)), None, true, Ok(None)),
        (None, None, true, Ok(None)),
        (
            Some((AtMost, 4_000_000_000)),
            Some((Less, 0)),
            false,
            Ok(Some((Less, 4_000_000_000))),
        ),
        (
            Some((AtMost, 4_000_000_000)),
            Some((AtMost, 1)),
            false,
            Err(16),
        ),
        (
            Some((AtMost, -4_000_000_000)),
            Some((AtMost, -1)),
            true,
            Err(16),
        ),
    ];

    #[test]
    fn sums_and_order(rt: HostRuntime) -> Result<(), Fail> {
        for (first, second, at_most, sum) in SUMS {
            let a = fine(first)?;
            let b = fine(second)?;
            assert_eq!(rt; a.at_most(b), at_most);
            assert_eq!(rt; a.sum(b).map(written).map_err(|fault| fault.number()), sum);
        }
        Ok(())
    }

    // A number of ticks, and the refusals that a limit up to it and a whole limit below it get.
    const ENDS: [(i64, Option<u8>, Option<u8>); 6] = [
        (4_000_000_000, None, None),
        (4_000_000_001, Some(16), Some(16)),
        (-3_999_999_999, None, None),
        (-4_000_000_000, None, Some(16)),
        (-4_000_000_001, Some(16), Some(16)),
        (i64::MIN, Some(16), Some(16)),
    ];

    fn whole_below(ticks: i64) -> Result<WholeLimit, Fault> {
        WholeLimit::below(Ticks::new(ticks)?)
    }

    #[test]
    fn numbers_that_fit(rt: HostRuntime) -> Result<(), Fail> {
        for (ticks, up_to, below) in ENDS {
            assert_eq!(rt; refusal(Ticks::new(ticks)), up_to);
            assert_eq!(rt; refusal(whole_below(ticks)), below);
        }
        assert_eq!(rt; whole_below(5)?.ticks(), Some(4));
        Ok(())
    }

    // A condition on the one clock, its refusal, and the limits (1, 0) and (0, 1) that are left.
    const CONDITIONS: [(usize, usize, usize, Written, Option<u8>, Written, Written); 10] = [
        (1, 2, 0, Some((Less, 5)), Some(20), None, Some((AtMost, 0))),
        (1, 0, 2, Some((Less, 5)), Some(20), None, Some((AtMost, 0))),
        (8, 1, 0, Some((Less, 5)), Some(20), None, Some((AtMost, 0))),
        (
            1,
            1,
            0,
            Some((AtMost, 4_000_000_000)),
            None,
            Some((AtMost, 4_000_000_000)),
            Some((AtMost, 0)),
        ),
        (
            1,
            0,
            1,
            Some((AtMost, 1)),
            Some(16),
            Some((AtMost, 4_000_000_000)),
            Some((AtMost, 0)),
        ),
        (
            1,
            1,
            0,
            Some((Less, 5)),
            None,
            Some((Less, 5)),
            Some((AtMost, 0)),
        ),
        (
            1,
            0,
            1,
            Some((AtMost, -5)),
            Some(15),
            Some((Less, 5)),
            Some((AtMost, 0)),
        ),
        (
            1,
            0,
            1,
            Some((Less, -4)),
            None,
            Some((Less, 5)),
            Some((Less, -4)),
        ),
        (
            1,
            1,
            0,
            Some((Less, 7)),
            None,
            Some((Less, 5)),
            Some((Less, -4)),
        ),
        (
            1,
            1,
            0,
            Some((AtMost, 4)),
            Some(15),
            Some((Less, 5)),
            Some((Less, -4)),
        ),
    ];

    #[test]
    fn one_condition_after_another(rt: HostRuntime) -> Result<(), Fail> {
        let mut limits = [FineLimit::zero(); 64];
        limits[8] = FineLimit::none();
        for (clocks, row, column, condition, refused, upper, lower) in CONDITIONS {
            let limit = fine(condition)?;
            assert_eq!(rt;
                refusal(tighten(&mut limits, clocks, DifferenceBound { row, column, limit })),
                refused
            );
            assert_eq!(rt; written(limits[8]), upper);
            assert_eq!(rt; written(limits[1]), lower);
        }
        Ok(())
    }

    #[test]
    fn a_matrix_of_another_size(rt: HostRuntime) {
        let mut limits = [FineLimit::zero(); 63];
        let bound = DifferenceBound {
            row: 1,
            column: 0,
            limit: FineLimit::zero(),
        };
        assert_eq!(rt; refusal(tighten(&mut limits, 1, bound)), Some(20));
    }
}
