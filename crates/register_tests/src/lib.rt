// Tests of the register: damaged images, and a power failure at every write. What is expected is worked out by hand from docs/RULES.md.
#![tactic(auto)]

#[cfg(test)]
mod tests {
    use device::{Entry, Failing, Image, Remains};
    use fault::{Damage, Fault, Place};
    use items::{Label, WardBox};
    use pairing::Counts;
    use plans::Opened;
    use register::{SideFault, same, store, take};
    use startup::{make, open};
    use std::process::Abort;
    use std::test::Fail;
    use words::Tape;

    const BYTES: usize = 78 * 512;

    const LEAVES: [Remains; 3] = [Remains::Old, Remains::New, Remains::Unreadable];

    fn label() -> Result<Label, Fault> {
        Label::new(b"12345670", b"AB12", b"280229")
    }

    // A tape of one word.
    fn word(n: u8) -> [u8; 4] {
        [n, 0, 0, 0]
    }

    // Capacity 2; packs 10 and 11 in slots 0 and 1, and 12, whose draw is 2 of 3, in none.
    fn three_packs(rt: &impl Abort, bytes: &mut [u8]) -> Result<(), Fail> {
        let mut image = Image::new(bytes);
        let tape = word(2);
        let source = Tape { bytes: &tape };
        let label = label()?;
        make::<Label, Image>(&mut image, 2)?;
        store(&mut image, 10, &label, &source)?;
        store(&mut image, 11, &label, &source)?;
        let (calls, width, draw, slot) = store(&mut image, 12, &label, &source)?;
        assert_eq!(rt; calls, 3);
        assert_eq!(rt; width, 3);
        assert_eq!(rt; draw, 2);
        assert!(rt; slot.is_none());
        Ok(())
    }

    // The refusal's number and block, and its cause, 0 where it has none.
    fn told(fault: Fault) -> (u8, u16, u8) {
        let block = match fault.place() {
            Place::Block(b) => b,
            _ => 999,
        };
        let cause = fault.damage().map_or(0, |damage| damage.number());
        (fault.number(), block, cause)
    }

    // The numbers of the refusals that these tests expect: of two that are equal they are the same.
    #[test]
    fn refusals_have_their_numbers(rt: HostRuntime) -> Result<(), Fail> {
        for (damage, cause) in [
            (Damage::Unreadable, 1),
            (Damage::Mark, 2),
            (Damage::Range, 3),
            (Damage::Disagreement, 4),
            (Damage::OtherKind, 5),
        ] {
            for block in [0, 1, 6, 13, 14, 15, 77] {
                let fault = Fault::not_register(block, damage);
                assert_eq!(rt; told(fault), (3, block, cause));
            }
        }
        for block in 0..78 {
            assert_eq!(rt; told(Fault::offline(block)), (1, block, 0));
        }
        assert_eq!(rt; told(Fault::NOT_FREE), (4, 1, 0));
        assert_eq!(rt; Fault::BAD_CAPACITY.number(), 11);
        let too_few = Fault::too_few_blocks(77);
        assert_eq!(rt; too_few.number(), 2);
        assert_eq!(rt; too_few.place(), Place::Count(77));
        Ok(())
    }

    // How a register of labels in these bytes is refused, read as both of the two compared.
    fn refusal(bytes: &mut [u8]) -> Option<SideFault> {
        let image = Image::new(bytes);
        same::<Label, Image, Image>(&image, &image).err()
    }

    // a byte, what is put there, and the block that is refused with its damage
    const DAMAGES: [(usize, u8, (u16, Damage)); 34] = [
        // the mark, and bytes that should be zero
        (0, b'X', (0, Damage::Mark)),
        (5, 1, (0, Damage::Mark)),
        (20, 1, (0, Damage::Mark)),
        (40, 1, (0, Damage::Mark)),
        (511, 1, (0, Damage::Mark)),
        // the kind: none, and another
        (4, 3, (0, Damage::Range)),
        (4, 0, (0, Damage::Range)),
        (4, 2, (0, Damage::OtherKind)),
        // M: 0, 1 (below k), 258 (the sum)
        (8, 0, (0, Damage::Range)),
        (8, 1, (0, Damage::Range)),
        (9, 1, (0, Damage::Disagreement)),
        // M above 512
        (9, 4, (0, Damage::Range)),
        // k: above M; the sum
        (10, 3, (0, Damage::Range)),
        (10, 1, (0, Damage::Disagreement)),
        // N: below k; not the number of ones
        (12, 1, (0, Damage::Range)),
        (12, 4, (6, Damage::Disagreement)),
        // c1: the sum; c2: N + D above 32,768
        (14, 1, (0, Damage::Disagreement)),
        (17, 128, (0, Damage::Range)),
        // q: too few for w; from 2^32 on; w above 64 q
        (24, 0, (0, Damage::Range)),
        (28, 1, (0, Damage::Range)),
        (32, 255, (0, Damage::Range)),
        // the journal header: another mark, a wrong zero
        (512, b'G', (1, Damage::Mark)),
        (700, 1, (1, Damage::Mark)),
        // the stock: one more; 13 for 11, which slot 1 has
        (3073, 60, (6, Damage::Disagreement)),
        (6656, 1, (6, Damage::Disagreement)),
        (3073, 52, (14, Damage::Disagreement)),
        // slot 0: the number of slot 1, a number from 32,768 on, a wrong zero, forms
        (7168, 11, (14, Damage::Disagreement)),
        (7169, 128, (14, Damage::Range)),
        (7170, 1, (14, Damage::Mark)),
        (7172, 9, (14, Damage::Range)),
        (7231, 1, (14, Damage::Range)),
        // slots that are not in use
        (7296, 1, (14, Damage::Mark)),
        (7680, 1, (15, Damage::Mark)),
        (39935, 1, (77, Damage::Mark)),
    ];

    #[test]
    fn damages_are_told(rt: HostRuntime) -> Result<(), Fail> {
        let mut good = [0u8; BYTES];
        three_packs(&rt, &mut good)?;
        assert_eq!(rt; refusal(&mut good), None);
        for (at, byte, (block, damage)) in DAMAGES {
            let mut bytes = good;
            assert!(rt; at < BYTES);
            if at < BYTES {
                bytes[at] = byte;
            }
            let fault = Fault::not_register(block, damage);
            assert_eq!(rt; refusal(&mut bytes), Some(SideFault::Left(fault)));
        }
        Ok(())
    }

    // Blocks that cannot be read: the head, a stock block, a slot block, and the journal header, which is not free then.
    #[test]
    fn unreadable_blocks_are_told(rt: HostRuntime) -> Result<(), Fail> {
        let good = two_packs(2)?;
        for (block, expected) in [
            (0, Fault::not_register(0, Damage::Unreadable)),
            (6, Fault::not_register(6, Damage::Unreadable)),
            (13, Fault::not_register(13, Damage::Unreadable)),
            (14, Fault::not_register(14, Damage::Unreadable)),
            (77, Fault::not_register(77, Damage::Unreadable)),
            (1, Fault::NOT_FREE),
        ] {
            let mut entries = good;
            entries[block] = None;
            let device = Failing::new(&mut entries, 0, Remains::Old);
            let answer = same::<Label, Failing, Failing>(&device, &device);
            assert_eq!(rt; answer, Err(SideFault::Left(expected)));
        }
        Ok(())
    }

    // Registers of one kind are none of the other, and too small a device is told by its count.
    #[test]
    fn other_kinds_and_sizes(rt: HostRuntime) -> Result<(), Fail> {
        let mut bytes = [0u8; BYTES];
        three_packs(&rt, &mut bytes)?;
        let mut image = Image::new(&mut bytes);
        let other_kind = Fault::not_register(0, Damage::OtherKind);
        assert_eq!(rt; open::<WardBox, Image>(&mut image), Err(other_kind));
        let mut short = [0u8; 77 * 512];
        let mut image = Image::new(&mut short);
        assert_eq!(rt;
            open::<Label, Image>(&mut image),
            Err(Fault::too_few_blocks(77))
        );
        assert_eq!(rt;
            make::<Label, Image>(&mut image, 513),
            Err(Fault::BAD_CAPACITY)
        );
        Ok(())
    }

    // ---- power failures

    // A register with capacity 2 and packs 10 and 11, or only 10.
    fn two_packs(packs: u16) -> Result<[Entry; 78], Fail> {
        let mut entries = [Some([0; 512]); 78];
        let mut device = Failing::new(&mut entries, 1000, Remains::Old);
        let tape = word(0);
        let source = Tape { bytes: &tape };
        let label = label()?;
        make::<Label, Failing>(&mut device, 2)?;
        for i in 0..packs.min(2) {
            store(&mut device, 10 + i, &label, &source)?;
        }
        Ok(entries)
    }

    // The calls that are interrupted. As closures they would want invariants written for the loops that call them.
    #[derive(Clone, Copy)]
    enum Tried {
        // Store 5000, drawing from a tape with this word
        Store(u8),
        Take(u16),
    }

    // How the call is refused.
    fn interrupt(device: &mut Failing, tried: Tried) -> Result<Option<Fault>, Fail> {
        match tried {
            Tried::Store(n) => {
                let tape = word(n);
                Ok(store(device, 5000, &label()?, &Tape { bytes: &tape }).err())
            }
            Tried::Take(number) => Ok(take::<Label, Failing>(device, number).err()),
        }
    }

    // The counters of a register with capacity 2: N, k, c1, c2, q and w.
    fn counted(size: u16, sampled: u16, c1: u16, c2: u16, calls: u32, words: u64) -> Counts {
        Counts {
            capacity: 2,
            size,
            sampled,
            c1,
            c2,
            calls,
            words,
        }
    }

    fn reopened(entries: &mut [Entry]) -> Result<Opened, Fail> {
        let mut device = Failing::new(entries, 1000, Remains::Old);
        Ok(open::<Label, Failing>(&mut device)?)
    }

    // Fails the call at each of its ten writes in each of three ways, and opens: the call is committed from the fifth write on.
    fn fail_everywhere(
        rt: &impl Abort,
        start: &[Entry; 78],
        tried: Tried,
        blocks: [u16; 10],
        before: Counts,
        after: Counts,
    ) -> Result<(), Fail> {
        for (n, block) in blocks.iter().enumerate() {
            for leaves in LEAVES {
                let mut entries = *start;
                let mut device = Failing::new(&mut entries, n as u16, leaves);
                assert_eq!(rt;
                    interrupt(&mut device, tried)?,
                    Some(Fault::offline(*block))
                );
                let committed = n >= 5 || n == 4 && leaves == Remains::New;
                let opened = reopened(&mut entries)?;
                assert_eq!(rt; opened.counts, if committed { after } else { before });
                // Open finishes what is pending: not where the free header is there already, or where the header is unreadable
                let pending = committed && (n < 9 || leaves == Remains::Old);
                assert!(rt; opened.finished.is_some() == pending);
                let again = reopened(&mut entries)?;
                assert_eq!(rt; again.counts, opened.counts);
                assert!(rt; again.finished.is_none());
            }
        }
        Ok(())
    }

    // Pack 5000 lies in stock block 7.
    const STORE_BLOCKS: [u16; 10] = [2, 3, 4, 5, 1, 14, 14, 7, 0, 1];

    #[test]
    fn store_that_fills(rt: HostRuntime) -> Result<(), Fail> {
        let start = two_packs(1)?;
        fail_everywhere(
            &rt,
            &start,
            Tried::Store(0),
            STORE_BLOCKS,
            counted(1, 1, 0, 0, 1, 0),
            counted(2, 2, 0, 0, 2, 0),
        )
    }

    #[test]
    fn store_that_replaces(rt: HostRuntime) -> Result<(), Fail> {
        let start = two_packs(2)?;
        fail_everywhere(
            &rt,
            &start,
            Tried::Store(0),
            STORE_BLOCKS,
            counted(2, 2, 0, 0, 2, 0),
            counted(3, 2, 0, 0, 3, 1),
        )
    }

    #[test]
    fn store_that_stays_out(rt: HostRuntime) -> Result<(), Fail> {
        let start = two_packs(2)?;
        fail_everywhere(
            &rt,
            &start,
            Tried::Store(2),
            STORE_BLOCKS,
            counted(2, 2, 0, 0, 2, 0),
            counted(3, 2, 0, 0, 3, 1),
        )
    }

    const TAKE_BLOCKS: [u16; 10] = [2, 3, 4, 5, 1, 14, 14, 6, 0, 1];

    #[test]
    fn take_in_the_sample(rt: HostRuntime) -> Result<(), Fail> {
        let start = two_packs(2)?;
        fail_everywhere(
            &rt,
            &start,
            Tried::Take(10),
            TAKE_BLOCKS,
            counted(2, 2, 0, 0, 2, 0),
            counted(1, 1, 1, 0, 3, 0),
        )
    }

    #[test]
    fn take_out_of_the_sample(rt: HostRuntime) -> Result<(), Fail> {
        let mut start = two_packs(2)?;
        let tape = word(2);
        let mut device = Failing::new(&mut start, 1000, Remains::Old);
        store(&mut device, 12, &label()?, &Tape { bytes: &tape })?;
        fail_everywhere(
            &rt,
            &start,
            Tried::Take(12),
            TAKE_BLOCKS,
            counted(3, 2, 0, 0, 3, 1),
            counted(2, 2, 0, 1, 4, 1),
        )
    }

    // The worked example: capacity 2, words 2 and 0; Store 10, 11, 12, 13, Take 11, Take 10 leave 13 in slot 0.
    #[test]
    fn example_on_an_image(rt: HostRuntime) -> Result<(), Fail> {
        let mut bytes = [0u8; BYTES];
        three_packs(&rt, &mut bytes)?;
        let mut image = Image::new(&mut bytes);
        let tape = [2, 0, 0, 0, 0, 0, 0, 0];
        let source = Tape { bytes: &tape };
        let (_, width, draw, slot) = store(&mut image, 13, &label()?, &source)?;
        assert!(rt; width == 4 && draw == 0);
        assert_eq!(rt; slot, Some(0));
        let (_, slot) = take::<Label, Image>(&mut image, 11)?;
        assert_eq!(rt; slot, Some(1));
        let (calls, slot) = take::<Label, Image>(&mut image, 10)?;
        assert!(rt; calls == 6 && slot.is_none());
        let opened = open::<Label, Image>(&mut image)?;
        assert_eq!(rt; opened.counts, counted(2, 1, 1, 1, 6, 2));
        assert!(rt; bytes[7168] == 13 && bytes[7169] == 0);
        Ok(())
    }
}
