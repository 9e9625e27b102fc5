// Long mixed runs of the counters against a table that an independent simulation of the published rule made.
#![tactic(auto)]

#[cfg(test)]
mod tests {
    use pairing::Counters;
    use std::test::Fail;
    use words::Drawn;

    // A call, as the simulation made it.
    #[derive(Clone, Copy)]
    enum Step {
        Store { width: u16, draw: u16 },
        TakeSampled,
        TakeOther,
    }

    // With capacity 3: each call, then N, k, c1 and c2.
    const RUN: [(Step, u16, u16, u16, u16); 44] = [
        (Step::Store { width: 1, draw: 0 }, 1, 1, 0, 0),
        (Step::Store { width: 1, draw: 0 }, 2, 2, 0, 0),
        (Step::Store { width: 1, draw: 0 }, 3, 3, 0, 0),
        (Step::Store { width: 4, draw: 3 }, 4, 3, 0, 0),
        (Step::Store { width: 5, draw: 1 }, 5, 3, 0, 0),
        (Step::TakeSampled, 4, 2, 1, 0),
        (Step::Store { width: 1, draw: 0 }, 5, 3, 0, 0),
        (Step::TakeSampled, 4, 2, 1, 0),
        (Step::Store { width: 1, draw: 0 }, 5, 3, 0, 0),
        (Step::Store { width: 6, draw: 0 }, 6, 3, 0, 0),
        (Step::Store { width: 7, draw: 1 }, 7, 3, 0, 0),
        (Step::Store { width: 8, draw: 5 }, 8, 3, 0, 0),
        (Step::Store { width: 9, draw: 0 }, 9, 3, 0, 0),
        (Step::Store { width: 10, draw: 8 }, 10, 3, 0, 0),
        (Step::Store { width: 11, draw: 7 }, 11, 3, 0, 0),
        (Step::TakeSampled, 10, 2, 1, 0),
        (Step::Store { width: 1, draw: 0 }, 11, 3, 0, 0),
        (Step::TakeOther, 10, 3, 0, 1),
        (Step::Store { width: 1, draw: 0 }, 11, 3, 0, 0),
        (Step::Store { width: 12, draw: 3 }, 12, 3, 0, 0),
        (Step::Store { width: 13, draw: 0 }, 13, 3, 0, 0),
        (Step::Store { width: 14, draw: 2 }, 14, 3, 0, 0),
        (Step::TakeOther, 13, 3, 0, 1),
        (Step::Store { width: 1, draw: 0 }, 14, 3, 0, 0),
        (Step::Store { width: 15, draw: 6 }, 15, 3, 0, 0),
        (
            Step::Store {
                width: 16,
                draw: 10,
            },
            16,
            3,
            0,
            0,
        ),
        (Step::TakeOther, 15, 3, 0, 1),
        (Step::Store { width: 1, draw: 0 }, 16, 3, 0, 0),
        (Step::TakeOther, 15, 3, 0, 1),
        (Step::TakeOther, 14, 3, 0, 2),
        (Step::TakeSampled, 13, 2, 1, 2),
        (Step::Store { width: 3, draw: 0 }, 14, 3, 0, 2),
        (Step::TakeOther, 13, 3, 0, 3),
        (Step::TakeOther, 12, 3, 0, 4),
        (Step::Store { width: 4, draw: 1 }, 13, 3, 0, 3),
        (Step::TakeOther, 12, 3, 0, 4),
        (Step::TakeSampled, 11, 2, 1, 4),
        (Step::TakeOther, 10, 2, 1, 5),
        (Step::Store { width: 6, draw: 5 }, 11, 2, 1, 4),
        (Step::Store { width: 5, draw: 4 }, 12, 2, 1, 3),
        (Step::TakeOther, 11, 2, 1, 4),
        (Step::Store { width: 5, draw: 1 }, 12, 2, 1, 3),
        (Step::TakeOther, 11, 2, 1, 4),
        (Step::Store { width: 5, draw: 4 }, 12, 2, 1, 3),
    ];

    // The counters after the call, if it can be made and the width is the one expected.
    fn after(counters: Counters, step: Step) -> Option<Counters> {
        match step {
            Step::Store { width, draw } => {
                if counters.width()?.get() != width {
                    return None;
                }
                counters.after_store(Drawn {
                    value: draw,
                    used: 1,
                })
            }
            Step::TakeSampled => counters.after_take(true),
            Step::TakeOther => counters.after_take(false),
        }
    }

    #[test]
    fn mixed_run(rt: HostRuntime) -> Result<(), Fail> {
        let mut counters = Counters::new(3).ok_or("capacity 3")?;
        for (step, size, sampled, c1, c2) in RUN {
            counters = after(counters, step).ok_or("a call that can be made")?;
            let found = counters.get();
            assert_eq!(rt; found.size, size);
            assert_eq!(rt; found.sampled, sampled);
            assert_eq!(rt; found.c1, c1);
            assert_eq!(rt; found.c2, c2);
        }
        assert_eq!(rt; counters.get().calls, 44);
        Ok(())
    }

    // Calls that cannot be made.
    #[test]
    fn refused(rt: HostRuntime) -> Result<(), Fail> {
        assert!(rt; Counters::new(0).is_none());
        assert!(rt; Counters::new(513).is_none());
        let empty = Counters::new(2).ok_or("capacity 2")?;
        assert!(rt; empty.after_take(true).is_none());
        assert!(rt; empty.after_take(false).is_none());
        assert!(rt; empty.after_store(Drawn { value: 1, used: 0 }).is_none());
        assert!(rt; empty.after_store(Drawn { value: 0, used: 65 }).is_none());
        assert!(rt; empty.after_store(Drawn { value: 0, used: 0 }).is_some());
        Ok(())
    }
}
