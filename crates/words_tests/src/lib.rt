// Draws at chosen widths and at the ends of tapes, the values worked out by hand.
#![tactic(auto)]

#[cfg(test)]
mod tests {
    use fault::Fault;
    use words::{Drawn, Fallback, Source, Tape, Width};

    // Whether a draw of the width from the place gives the value, and uses so many words.
    fn draws<S: Source>(source: &S, width: u16, place: u64, value: u16, used: u8) -> bool {
        Width::new(width).is_some_and(|width| {
            words::draw(source, width, place) == Ok(Drawn { value, used })
        })
    }

    // Whether it is refused with number 10, as no draw is given.
    fn refuses<S: Source>(source: &S, width: u16, place: u64) -> bool {
        Width::new(width).is_some_and(|width| {
            words::draw(source, width, place) == Err(Fault::NO_DRAW)
                && Fault::NO_DRAW.number() == 10
        })
    }

    #[test]
    fn widths(rt: HostRuntime) {
        assert!(rt; Width::new(0).is_none());
        assert!(rt; Width::new(32_769).is_none());
        let none = Tape { bytes: &[] };
        assert!(rt; draws(&none, 1, 0, 0, 0));
        assert!(rt; draws(&none, 1, u64::MAX, 0, 0));
        // 65543 is odd, and 7 more than twice 32768
        let one = Tape {
            bytes: &[7, 0, 1, 0],
        };
        assert!(rt; draws(&one, 2, 0, 1, 1));
        assert!(rt; draws(&one, 32_768, 0, 7, 1));
    }

    // 3 divides 4294967295, and 32767 divides 4294967292
    #[test]
    fn limits(rt: HostRuntime) {
        let below = Tape {
            bytes: &[254, 255, 255, 255],
        };
        assert!(rt; draws(&below, 3, 0, 2, 1));
        let above = Tape {
            bytes: &[255, 255, 255, 255, 4, 0, 0, 0],
        };
        assert!(rt; draws(&above, 3, 0, 1, 2));
        assert!(rt; draws(&above, 32_768, 0, 32_767, 1));
        let near = Tape {
            bytes: &[252, 255, 255, 255, 251, 255, 255, 255],
        };
        assert!(rt; draws(&near, 32_767, 0, 32_766, 2));
    }

    // A tape ends at its last whole word, a fallback goes on.
    #[test]
    fn ends(rt: HostRuntime) {
        let short = Tape {
            bytes: &[255, 255, 255, 255, 4, 0, 0],
        };
        assert!(rt; refuses(&short, 3, 0));
        assert!(rt; refuses(&short, 3, 1));
        assert!(rt; refuses(&short, 3, u64::MAX));
        let long = Tape {
            bytes: &[6, 0, 0, 0, 5, 0, 0, 0],
        };
        let both = Fallback {
            first: short,
            second: long,
        };
        assert!(rt; draws(&both, 3, 0, 2, 2));
    }

    // 63 words above the limit leave one to draw from, and 64 leave none.
    #[test]
    fn sixty_four(rt: HostRuntime) {
        let mut bytes = [255; 260];
        bytes[256] = 4;
        bytes[257] = 0;
        bytes[258] = 0;
        bytes[259] = 0;
        let tape = Tape { bytes: &bytes };
        assert!(rt; refuses(&tape, 3, 0));
        assert!(rt; draws(&tape, 3, 1, 1, 64));
    }
}
