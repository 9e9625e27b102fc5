// One story in memory: a register is made, packs are scanned, the power fails in the middle of a store, and Open finishes it.
use crate::replies::{call_of, number_of, print_reply};
use crate::reports::{blank_page, print_early, print_sample};
use crate::scans::entries;
use crate::windows::Window;
use device::{Entry, Failing, Remains};
use fault::Fault;
use items::{Label, WardBox};
use plans::Finished;
use session::{Answer, Call, Reply, Request, resume, run};
use std::io::{BufWriter, Write};
use words::Tape;

// What the scanners send: in the second line a scan is cancelled and made again.
const SCANS: &str = "S 10 12345670 A1 280229
S 99 1234\u{18}S 11 12345670 A2 270131
S 12 12345670 A3 -
T 11
S 13 12345670 A4 260630
T 10
";

// The words 2, 0 and 1.
const WORDS: [u8; 12] = [2, 0, 0, 0, 0, 0, 0, 0, 1, 0, 0, 0];

// Make has 75 writes and each call ten: the seventh write of the fifth call is lost.
const GOOD_WRITES: u16 = 75 + 4 * 10 + 6;

pub(crate) fn demo(rt: &HostRuntime) -> anyhow::Result<()> {
    let mut entries = [Some([0; 512]); 78];
    let mut out = BufWriter::new(rt.alloc(), rt.stdout())?;
    scan_until_failure(rt, &mut out, &mut entries)?;
    open_and_report(rt, &mut out, &mut entries)?;
    out.flush()?;
    Ok(())
}

// Makes a register with capacity 2 and does the scans, until the power fails.
fn scan_until_failure<W: Write>(
    rt: &HostRuntime,
    out: &mut W,
    blocks: &mut [Entry],
) -> anyhow::Result<()> {
    let table = entries(rt, SCANS.as_bytes())?;
    let words = Window::on(Tape { bytes: &WORDS }, 0);
    let mut calls = Vec::with_capacity(rt.alloc(), table.len())?;
    for entry in table.as_slice() {
        if let Ok(transaction) = *entry {
            calls.push(call_of(transaction, words))?;
        }
    }
    let mut replies = vec![in rt.alloc(); Err(Fault::TOO_SHORT); calls.len()]?;
    let mut failing = Failing::new(blocks, GOOD_WRITES, Remains::Unreadable);
    writeln!(
        out,
        "capacity 2; after {GOOD_WRITES} writes the power fails"
    )?;
    run(
        &mut failing,
        2,
        calls.as_slice(),
        &mut [],
        replies.as_mut_slice(),
    )?;
    print_replies(out, table.as_slice(), replies.as_slice())
}

// A line for each transaction, with its answer. A scan of a file prints its refused lines too, in a loop of its own.
fn print_replies<W: Write>(
    out: &mut W,
    table: &[intake::Entry],
    replies: &[Reply],
) -> anyhow::Result<()> {
    let transactions = table.iter().enumerate().filter_map(|(i, entry)| entry
        .ok()
        .map(|transaction| (i, transaction)));
    for ((i, transaction), reply) in transactions.zip(replies) {
        let line = i + 1;
        write!(out, "{line}: ")?;
        print_reply(out, reply.map(|answer| (number_of(transaction), answer)))?;
    }
    Ok(())
}

// Opens the register and reports it.
fn open_and_report<W: Write>(
    rt: &HostRuntime,
    out: &mut W,
    blocks: &mut [Entry],
) -> anyhow::Result<()> {
    let mut page = blank_page(rt.alloc())?;
    let mut sound = Failing::new(blocks, 1000, Remains::Unreadable);
    let calls: [Call<Label, WardBox, Window>; 1] = [Call::Own(Request::Report)];
    let mut replies = [Err(Fault::TOO_SHORT)];
    let opened = resume(&mut sound, &calls, page.as_mut_slice(), &mut replies)?;
    print_finished(out, opened.finished)?;
    if let Ok(Answer::Reported(counts)) = replies[0] {
        print_sample::<Label, W>(out, counts, page.as_slice())?;
        print_early(out, counts, page.as_slice(), "270101")?;
    }
    Ok(())
}

// What Open did, in the words of the story.
fn print_finished<W: Write>(out: &mut W, finished: Option<Finished>) -> anyhow::Result<()> {
    match finished {
        Some(Finished::Store { number, draw }) => writeln!(
            out,
            "opened: the store of {number} was finished, draw {draw}"
        )?,
        Some(Finished::Take { number }) => writeln!(
            out,
            "opened: the take of {number} was finished"
        )?,
        None => writeln!(out, "opened: nothing was pending")?,
    }
    Ok(())
}
