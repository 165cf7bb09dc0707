// Tables of readings: each refusal at its bounds and in its order, and what a call leaves.
#[cfg(test)]
mod tests {
    use crate::written::{Written, refusal, written};
    use limits::Mark::{AtMost, Less};
    use limits::{Comparison, Fault, Limit};
    use std::process::Abort;
    use std::test::Fail;
    use tables::{FineTable, Table, WholeTable};

    // A call, as data and not as a closure, so that a table of them stays a constant.
    #[derive(Clone, Copy)]
    enum Step {
        Start(usize),
        Pass,
        Narrow(usize, Comparison, i64),
        Reset(usize),
        Ask(usize, usize),
        // rounds of waiting 16,000 seconds on clock 2, which is reset then
        Rounds(u8),
        // go on with a copy, which is taken over a table of no clocks
        Copy,
    }

    // A limit that is told: its row and column, and its mark and ticks if there is a limit.
    type Told = (usize, usize, Written);

    // Steps with the number of the refusal that each gets, if any, and limits that are told then.
    #[derive(Clone, Copy)]
    struct Trial {
        steps: &'static [(Step, Option<u8>)],
        told: &'static [Told],
    }

    fn rounds<T: Table>(table: &mut T, count: u8) -> Result<(), Fault> {
        for _ in 0..count {
            table.pass();
            table.narrow(2, Comparison::AtLeast, 16_000_000)?;
            table.reset(2)?;
        }
        Ok(())
    }

    fn take<T: Table>(table: &mut T, step: Step) -> Result<(), Fault> {
        match step {
            Step::Start(clocks) => *table = T::start(clocks)?,
            Step::Pass => table.pass(),
            Step::Narrow(clock, comparison, constant) => table.narrow(clock, comparison, constant)?,
            Step::Reset(clock) => table.reset(clock)?,
            Step::Ask(row, column) => {
                let _ = table.tell(row, column)?;
            }
            Step::Rounds(count) => rounds(table, count)?,
            Step::Copy => {
                let mut other = T::start(0)?;
                other.copy_from(table);
                *table = other;
            }
        }
        Ok(())
    }

    fn run<T: Table>(rt: &impl Abort, mut table: T, trial: Trial) -> Result<(), Fail> {
        for (step, refused) in trial.steps {
            assert_eq!(rt; refusal(take(&mut table, *step)), *refused);
        }
        for (row, column, told) in trial.told {
            let limit = table.tell(*row, *column);
            assert_eq!(rt;
                limit.is_ok_and(|l| l.is_strict()),
                matches!(told, Some((Less, _)))
            );
            assert_eq!(rt; limit.ok().map(written), Some(*told));
        }
        Ok(())
    }

    // In both kinds of time.
    const BOTH: [Trial; 8] = [
        // each refusal at its bounds, and the first of two
        Trial {
            steps: &[
                (Step::Start(8), Some(20)),
                (Step::Start(7), None),
                (Step::Start(usize::MAX), Some(20)),
                (Step::Reset(0), Some(20)),
                (Step::Reset(8), Some(20)),
                (Step::Reset(7), None),
                (Step::Ask(8, 0), Some(20)),
                (Step::Ask(0, 8), Some(20)),
                (Step::Ask(7, 7), None),
                (Step::Narrow(8, Comparison::AtMost, -1), Some(20)),
                (Step::Narrow(0, Comparison::AtMost, -1), Some(20)),
                (Step::Narrow(7, Comparison::AtMost, -1), Some(5)),
                (Step::Narrow(7, Comparison::Greater, 16_000_001), Some(5)),
                (Step::Narrow(7, Comparison::Greater, 16_000_000), Some(15)),
                (Step::Narrow(7, Comparison::AtMost, i64::MIN), Some(5)),
                (Step::Narrow(7, Comparison::AtMost, i64::MAX), Some(5)),
                (Step::Narrow(7, Comparison::AtMost, 16_000_000), None),
            ],
            told: &[(7, 0, Some((AtMost, 0))), (0, 7, Some((AtMost, 0)))],
        },
        // no clocks at all
        Trial {
            steps: &[
                (Step::Start(0), None),
                (Step::Pass, None),
                (Step::Reset(1), Some(20)),
                (Step::Narrow(1, Comparison::AtMost, 0), Some(20)),
                (Step::Ask(0, 1), Some(20)),
            ],
            told: &[(0, 0, Some((AtMost, 0)))],
        },
        // a clock at zero
        Trial {
            steps: &[
                (Step::Narrow(1, Comparison::Less, 0), Some(15)),
                (Step::Narrow(1, Comparison::Greater, 0), Some(15)),
                (Step::Narrow(1, Comparison::AtLeast, 1), Some(15)),
                (Step::Narrow(1, Comparison::AtMost, 0), None),
                (Step::Narrow(1, Comparison::AtLeast, 0), None),
                (Step::Narrow(1, Comparison::Less, 1), None),
            ],
            told: &[(1, 2, Some((AtMost, 0))), (1, 0, Some((AtMost, 0)))],
        },
        // from 0 to 5 seconds: what meets nothing is refused, and nothing changes
        Trial {
            steps: &[
                (Step::Pass, None),
                (Step::Narrow(1, Comparison::AtMost, 5_000), None),
                (Step::Narrow(2, Comparison::Greater, 5_000), Some(15)),
                (Step::Narrow(2, Comparison::AtLeast, 5_001), Some(15)),
                (Step::Narrow(2, Comparison::AtLeast, 16_000_000), Some(15)),
            ],
            told: &[
                (1, 0, Some((AtMost, 5_000))),
                (2, 0, Some((AtMost, 5_000))),
                (0, 2, Some((AtMost, 0))),
            ],
        },
        // exactly 5 seconds
        Trial {
            steps: &[
                (Step::Pass, None),
                (Step::Narrow(1, Comparison::AtMost, 5_000), None),
                (Step::Narrow(2, Comparison::AtLeast, 5_000), None),
            ],
            told: &[
                (1, 0, Some((AtMost, 5_000))),
                (0, 1, Some((AtMost, -5_000))),
                (2, 1, Some((AtMost, 0))),
            ],
        },
        // a clock that is reset and one that is not, through a copy
        Trial {
            steps: &[
                (Step::Pass, None),
                (Step::Narrow(1, Comparison::AtMost, 5_000), None),
                (Step::Narrow(1, Comparison::AtLeast, 2_000), None),
                (Step::Reset(2), None),
                (Step::Pass, None),
                (Step::Copy, None),
            ],
            told: &[
                (1, 2, Some((AtMost, 5_000))),
                (2, 1, Some((AtMost, -2_000))),
                (0, 2, Some((AtMost, 0))),
                (0, 1, Some((AtMost, -2_000))),
                (1, 0, None),
                (2, 0, None),
            ],
        },
        // the reach: 62 rounds of 16,000,000 ticks, and 8,000,000 more, and not one more
        Trial {
            steps: &[
                (Step::Rounds(62), None),
                (Step::Pass, None),
                (Step::Narrow(2, Comparison::AtLeast, 16_000_000), Some(16)),
                (Step::Narrow(2, Comparison::AtLeast, 8_000_001), Some(16)),
                (Step::Narrow(2, Comparison::AtLeast, 8_000_000), None),
            ],
            told: &[
                (0, 1, Some((AtMost, -1_000_000_000))),
                (2, 1, Some((AtMost, -992_000_000))),
            ],
        },
        // what no reading meets is refused as such, however far it is
        Trial {
            steps: &[
                (Step::Rounds(62), None),
                (Step::Rounds(1), Some(16)),
                (Step::Narrow(2, Comparison::AtMost, 8_000_000), None),
                (Step::Narrow(2, Comparison::AtLeast, 16_000_000), Some(15)),
            ],
            told: &[
                (0, 1, Some((AtMost, -992_000_000))),
                (2, 0, Some((AtMost, 8_000_000))),
            ],
        },
    ];

    // Above 1 second and below 1.001 seconds.
    const FINE: Trial = Trial {
        steps: &[
            (Step::Pass, None),
            (Step::Narrow(2, Comparison::Greater, 1_000), None),
            (Step::Narrow(2, Comparison::Less, 1_001), None),
            (Step::Narrow(1, Comparison::AtLeast, 1_001), Some(15)),
        ],
        told: &[
            (1, 0, Some((Less, 1_001))),
            (0, 1, Some((Less, -1_000))),
            (1, 2, Some((AtMost, 0))),
        ],
    };

    const WHOLE: Trial = Trial {
        steps: &[
            (Step::Pass, None),
            (Step::Narrow(2, Comparison::Greater, 1_000), None),
            (Step::Narrow(2, Comparison::Less, 1_001), Some(15)),
        ],
        told: &[(0, 1, Some((AtMost, -1_001))), (1, 0, None)],
    };

    #[test]
    fn fine_tables(rt: HostRuntime) -> Result<(), Fail> {
        let Ok(table) = FineTable::start(2) else {
            return Err(Fail::new("two clocks"));
        };
        for trial in BOTH {
            run(&rt, table, trial)?;
        }
        run(&rt, table, FINE)
    }

    #[test]
    fn whole_tables(rt: HostRuntime) -> Result<(), Fail> {
        let Ok(table) = WholeTable::start(2) else {
            return Err(Fail::new("two clocks"));
        };
        for trial in BOTH {
            run(&rt, table, trial)?;
        }
        run(&rt, table, WHOLE)
    }
}
