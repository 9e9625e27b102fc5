// What the confirmed lines of a scan say.
use crate::files::{read_file, read_input};
use fault::Fault;
use intake::{Entry, count_lines, intake};
use std::io::{BufWriter, Write};

// Prints what each line of the file means, or of standard input where no file is named.
pub(crate) fn intake_lines(rt: &HostRuntime, path: Option<&str>) -> anyhow::Result<()> {
    let input = match path {
        Some(path) => read_file(rt, path)?,
        None => read_input(rt)?,
    };
    print(rt, entries(rt, input.as_slice())?.as_slice())
}

// The entries of the confirmed lines.
pub(crate) fn entries(rt: &HostRuntime, input: &[u8]) -> anyhow::Result<Vec<Entry>> {
    let mut table = vec![in rt.alloc(); Err(Fault::TOO_SHORT); count_lines(input)]?;
    let mut field = [0; 100];
    intake(input, &mut field, table.as_mut_slice())?;
    Ok(table)
}

// A line for each entry, and at the end how many there are of each sort.
fn print(rt: &HostRuntime, table: &[Entry]) -> anyhow::Result<()> {
    let mut out = BufWriter::new(rt.alloc(), rt.stdout())?;
    for (i, entry) in table.iter().enumerate() {
        let number = i + 1;
        match entry {
            Ok(transaction) => writeln!(out, "{number}: {transaction}")?,
            Err(fault) => writeln!(out, "{number}: {fault}")?,
        }
    }
    let lines = table.len();
    let transactions = table.iter().filter(|entry| entry.is_ok()).count();
    let refused = table.iter().filter(|entry| entry.is_err()).count();
    writeln!(
        out,
        "{lines} lines: {transactions} transactions, {refused} refused"
    )?;
    out.flush()?;
    Ok(())
}
