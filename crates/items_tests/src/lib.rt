// Tests of the items on examples: published GTINs, days of the calendar, alphabets, forms.
#![tactic(auto)]

#[cfg(test)]
mod tests {
    use fault::Fault;
    use items::{ItemKind, Kind, Label, UnknownCode, WardBox};
    use std::alloc::{AllocError, Global};
    use std::test::Fail;

    // The label, or the refusal, as text.
    fn label(heap: Global, code: &str, batch: &str, expiry: &str) -> Result<String, AllocError> {
        match Label::new(code.as_bytes(), batch.as_bytes(), expiry.as_bytes()) {
            Ok(label) => format!(in heap; "{label}"),
            Err(fault) => format!(in heap; "{fault}"),
        }
    }

    // Published GTINs of 8, 13 and 14 digits, and each with one digit or the length changed.
    #[test]
    fn codes(rt: HostRuntime) -> Result<(), Fail> {
        let heap = rt.alloc();
        let cases = [
            ("96385074", true),
            ("73513537", true),
            ("4006381333931", true),
            ("6291041500213", true),
            ("5901234123457", true),
            ("9780201379624", true),
            ("00614141999996", true),
            ("00012345678905", true),
            ("96385075", false),
            ("4006381333932", false),
            ("6291041500231", false),
            ("00614141999969", false),
            ("614141999996", false),
            ("9638507", false),
            ("9638507A", false),
            ("", false),
        ];
        for (code, lawful) in cases {
            let shown = label(heap, code, "", "")?;
            // by its text, as the cases of a label's other sections
            let refused = shown.as_str() == "refusal 8 (item), section 1: the item is unlawful";
            assert_eq!(rt; refused, !lawful, "{}", code);
        }
        Ok(())
    }

    #[test]
    fn expiries(rt: HostRuntime) -> Result<(), Fail> {
        let heap = rt.alloc();
        let cases = [
            ("", true),
            ("280229", true),
            ("000229", true),
            ("270228", true),
            ("991231", true),
            ("260430", true),
            ("261130", true),
            ("270229", false),
            ("260431", false),
            ("261131", false),
            ("260001", false),
            ("261301", false),
            ("260100", false),
            ("260132", false),
            ("26011", false),
            ("2601011", false),
            ("26o101", false),
        ];
        for (expiry, lawful) in cases {
            let shown = label(heap, "12345670", "", expiry)?;
            let refused = shown.as_str() == "refusal 8 (item), section 3: the item is unlawful";
            assert_eq!(rt; refused, !lawful, "{}", expiry);
        }
        Ok(())
    }

    // Forms by hand: sections after their count bytes, and a difference of -250, which is FF06 in two's complement.
    #[test]
    fn forms(rt: HostRuntime) -> Result<(), Fail> {
        let label = Label::new(b"12345670", b"AB12", b"280229")?;
        let form = label.to_form();
        assert!(rt; form[0] == 8 && form[1] == b'1' && form[8] == b'0');
        assert!(rt; form[9] == 4 && form[10] == b'A' && form[13] == b'2');
        assert!(rt; form[14] == 6 && form[15] == b'2' && form[20] == b'9' && form[21] == 0);
        let ward = WardBox::new(b"A12", Some(-250))?;
        let form = ward.to_form();
        assert!(rt; form[0] == 3 && form[1] == b'A' && form[3] == b'2');
        assert!(rt; form[4] == 1 && form[5] == 6 && form[6] == 255 && form[7] == 0);
        Ok(())
    }

    // Each kind by its word and its code, and a code that no kind has.
    #[test]
    fn kinds(rt: HostRuntime) -> Result<(), Fail> {
        let heap = rt.alloc();
        for (word, code) in [("label", 1), ("box", 2)] {
            let kind = word.parse::<ItemKind>()?;
            let shown = format!(in heap; "{kind}")?;
            assert!(rt; u8::from(kind) == code && ItemKind::try_from(code) == Ok(kind));
            assert!(rt; shown.as_str() == word, "{shown}");
        }
        assert!(rt; ItemKind::try_from(3) == Err(UnknownCode(3)));
        Ok(())
    }

    #[test]
    fn boxes(rt: HostRuntime) -> Result<(), Fail> {
        let heap = rt.alloc();
        let cases = [
            ("A12", Some(30000), "ward A12, difference 30000 g"),
            (
                "ABCDEFGHIJ12",
                Some(-30000),
                "ward ABCDEFGHIJ12, difference -30000 g",
            ),
            ("7", None, "ward 7, difference -"),
            (
                "",
                None,
                "refusal 8 (item), section 1: the item is unlawful",
            ),
            (
                "ABCDEFGHIJ123",
                None,
                "refusal 8 (item), section 1: the item is unlawful",
            ),
            (
                "a12",
                None,
                "refusal 8 (item), section 1: the item is unlawful",
            ),
            (
                "A12",
                Some(30001),
                "refusal 8 (item), section 2: the item is unlawful",
            ),
            (
                "A12",
                Some(-30001),
                "refusal 8 (item), section 2: the item is unlawful",
            ),
        ];
        for (ward, difference, expected) in cases {
            let shown = match WardBox::new(ward.as_bytes(), difference) {
                Ok(ward) => format!(in heap; "{ward}")?,
                Err(fault) => format!(in heap; "{fault}")?,
            };
            assert!(rt; shown.as_str() == expected, "{shown}");
        }
        Ok(())
    }
}
