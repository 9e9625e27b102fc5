// Tests of the intake on examples: which lines are confirmed, what each refusal of a line is, and what is left in the buffer
// and the table.
#![tactic(auto)]

#[cfg(test)]
mod tests {
    use fault::{Fault, Place};
    use intake::{Entry, intake};
    use std::alloc::{AllocError, Global};
    use std::test::Fail;

    // An entry that no line fills.
    fn untouched() -> Entry {
        Err(Fault::LAST_CALL)
    }

    // The entries as text, each after a space.
    fn shown(heap: Global, table: &[Entry]) -> Result<String, AllocError> {
        let mut text = String::new(heap);
        for entry in table {
            let one = match entry {
                Ok(transaction) => format!(in heap; " {transaction}")?,
                Err(fault) => {
                    let number = fault.number();
                    format!(in heap; " {number}")?
                }
            };
            text.push_str(one.as_str())?;
        }
        Ok(text)
    }

    // What a table of three entries shows after the input.
    fn three(heap: Global, input: &str) -> Result<String, AllocError> {
        let mut table = [untouched(), untouched(), untouched()];
        let mut buffer = [7; 100];
        match intake(input.as_bytes(), &mut buffer, &mut table) {
            Ok(_) => shown(heap, &table),
            Err(fault) => format!(in heap; "{fault}"),
        }
    }

    // Which lines are confirmed. Entries that are not filled still show their 9.
    #[test]
    fn confirmed(rt: HostRuntime) -> Result<(), Fail> {
        let heap = rt.alloc();
        let cases = [
            ("", " 9 9 9"),
            ("\n\n\n\n", " 9 9 9"),
            ("\x18\x18", " 9 9 9"),
            ("T 1", " 9 9 9"),
            ("T 1\n", " take 1 9 9"),
            ("T 1\x18\n", " 9 9 9"),
            ("T 1\x18T 2\n", " take 2 9 9"),
            ("T 1\n\nT 2\nT 3\n", " take 1 take 2 take 3"),
            (
                "T 1\nT 2\nT 3\nT 4\n",
                "refusal 14 (register): the buffer or the table is too short",
            ),
            ("T 1\nT 2\nT 3\nT 4\x18", " take 1 take 2 take 3"),
            (
                "0000000000000000000000000000000000000000000000000000000000000000000000000000000000000000000000000000\n",
                " 13 9 9",
            ),
            (
                "00000000000000000000000000000000000000000000000000000000000000000000000000000000000000000000000000000\n",
                " 12 9 9",
            ),
            (
                "00000000000000000000000000000000000000000000000000000000000000000000000000000000000000000000000000000\x18T 7\n",
                " take 7 9 9",
            ),
            (
                "00000000000000000000000000000000000000000000000000000000000000000000000000000000000000000000000000000\nT 7\n",
                " 12 take 7 9",
            ),
        ];
        for (input, expected) in cases {
            let found = three(heap, input)?;
            assert!(rt; found.as_str() == expected, "{}", input);
        }
        Ok(())
    }

    // A refusal's number and its place in the line or the item.
    fn number_and_place(heap: Global, fault: &Fault) -> Result<String, AllocError> {
        let number = fault.number();
        match fault.place() {
            Place::Byte(at) | Place::Section(at) => format!(in heap; "{number} at {at}"),
            _ => format!(in heap; "{number}"),
        }
    }

    // The last of the entries, as text.
    fn last(heap: Global, table: &[Entry]) -> Result<String, AllocError> {
        let Some(entry) = table.last() else {
            return Ok(String::new(heap));
        };
        match entry {
            Ok(transaction) => format!(in heap; "{transaction}"),
            Err(fault) => number_and_place(heap, fault),
        }
    }

    // What the line comes to, as text.
    fn refusal(heap: Global, line: &str) -> Result<String, AllocError> {
        let mut table = [untouched()];
        let mut buffer = [7; 100];
        match intake(line.as_bytes(), &mut buffer, &mut table) {
            Ok(_) => last(heap, &table),
            Err(fault) => format!(in heap; "{fault}"),
        }
    }

    // Each refusal at each field, and the longest and shortest lines.
    #[test]
    fn refusals(rt: HostRuntime) -> Result<(), Fail> {
        let heap = rt.alloc();
        let cases = [
            ("x\n", "13 at 0"),
            ("s 1\n", "13 at 0"),
            ("T\n", "13 at 1"),
            ("S\n", "13 at 1"),
            ("Tx\n", "13 at 1"),
            ("T \n", "13 at 2"),
            ("T  1\n", "13 at 2"),
            ("T 1 \n", "13 at 3"),
            ("T -\n", "13 at 2"),
            ("T 123456\n", "13 at 7"),
            ("T 00017\n", "take 17"),
            ("T 32767\n", "take 32767"),
            ("T 32768\n", "5"),
            ("T 99999\n", "5"),
            ("S 1\n", "13 at 3"),
            ("S 1 -\n", "13 at 4"),
            ("S 1 123456789012345 - -\n", "13 at 18"),
            ("S 1 12345670\n", "13 at 12"),
            ("S 1 12345670 \n", "13 at 13"),
            ("S 1 12345670 A_ -\n", "13 at 14"),
            ("S 1 12345670 ABCDEFGHIJKLMNOPQRSTU -\n", "13 at 33"),
            ("S 1 12345670 -- -\n", "13 at 14"),
            ("S 1 12345670 - \n", "13 at 15"),
            ("S 1 12345670 - 28022\n", "13 at 20"),
            ("S 1 12345670 - 2802290\n", "13 at 21"),
            ("S 1 12345670 - --\n", "13 at 16"),
            ("S 1 12345670 - - \n", "13 at 16"),
            ("S 40000 1 - -\n", "5"),
            ("S 1 1 - -\n", "8 at 1"),
            ("S 1 12345670 - 000000\n", "8 at 3"),
            (
                "S 1 12345670 - -\n",
                "store 1: code 12345670, batch -, expiry -",
            ),
            (
                "S 32767 00614141999996 ABCDEFGHIJKLMNOPQRST 991231\n",
                "store 32767: code 00614141999996, batch ABCDEFGHIJKLMNOPQRST, expiry 991231",
            ),
        ];
        for (line, expected) in cases {
            let found = refusal(heap, line)?;
            assert!(rt; found.as_str() == expected, "{}", line);
        }
        Ok(())
    }

    // How many bytes have this value.
    fn count(bytes: &[u8], value: u8) -> usize {
        bytes.iter().filter(|byte| **byte == value).count()
    }

    // The field is zeros after a call, and the rest of the buffer is as it was; a buffer under 100 bytes is left alone.
    #[test]
    fn wiped(rt: HostRuntime) {
        let mut table = [untouched()];
        let mut buffer = [7; 102];
        assert!(rt; intake(b"T 1\nT 2", &mut buffer, &mut table).is_ok());
        assert_eq!(rt; count(&buffer, 0), 100);
        assert_eq!(rt; count(&buffer, 7), 2);
        let mut none: [Entry; 0] = [];
        let mut other = [7; 102];
        assert!(rt; intake(b"T 1\n", &mut other, &mut none).is_err());
        assert_eq!(rt; count(&other, 0), 100);
        let mut short = [7; 99];
        assert!(rt; intake(b"T 1\n", &mut short, &mut table).is_err());
        assert_eq!(rt; count(&short, 7), 99);
    }
}
