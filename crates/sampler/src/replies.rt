// What is asked of a register by a transaction, and its answer in words. The words are the program's and not a `Display` of
// the session's answers: other programs say them otherwise.
use crate::windows::Window;
use fault::Fault;
use items::{Label, WardBox};
use lines::Transaction;
use session::{Answer, Call, Request};
use std::io::Write;

// The call of a transaction, drawing from these words.
pub(crate) fn call_of(transaction: Transaction, words: Window) -> Call<Label, WardBox, Window> {
    match transaction {
        Transaction::Store { number, label } => Call::Own(Request::Store {
            number,
            item: label,
            source: words,
        }),
        Transaction::Take { number } => Call::Own(Request::Take { number }),
    }
}

pub(crate) fn number_of(transaction: Transaction) -> u16 {
    match transaction {
        Transaction::Store { number, label: _ } | Transaction::Take { number } => number,
    }
}

// The answer of a call about the pack with this number, or why it was refused.
pub(crate) fn print_reply<W: Write>(
    out: &mut W,
    reply: Result<(u16, Answer), Fault>,
) -> anyhow::Result<()> {
    match reply {
        Ok((number, answer)) => print_answer(out, number, answer),
        Err(fault) => {
            writeln!(out, "{fault}")?;
            Ok(())
        }
    }
}

fn print_answer<W: Write>(out: &mut W, number: u16, answer: Answer) -> anyhow::Result<()> {
    match answer {
        Answer::Stored(calls, width, draw, slot) => {
            write!(
                out,
                "stored {number}: call {calls}, width {width}, draw {draw}"
            )?;
            print_slot(out, slot)
        }
        Answer::Taken(calls, slot) => {
            write!(out, "taken {number}: call {calls}")?;
            print_slot(out, slot)
        }
        Answer::Reported(_) => {
            writeln!(out, "reported")?;
            Ok(())
        }
        Answer::Opened(_) => {
            writeln!(out, "opened")?;
            Ok(())
        }
    }
}

// The slot that a call filled or freed, after a comma.
fn print_slot<W: Write>(out: &mut W, slot: Option<u16>) -> anyhow::Result<()> {
    match slot {
        Some(slot) => writeln!(out, ", slot {slot}")?,
        None => writeln!(out, ", no slot")?,
    }
    Ok(())
}
