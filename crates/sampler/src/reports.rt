// Reports: the counters of a register, and what its sample holds.
use crate::files::{read_file, save};
use crate::registers::{kind_named, refused};
use crate::windows::Window;
use anyhow::{anyhow, bail};
use device::Image;
use fault::Fault;
use items::{ItemKind, Kind, Label, WardBox};
use pairing::Counts;
use session::{Answer, Call, Request, resume};
use std::alloc::Global;
use std::fmt;
use std::io::{BufWriter, Write};

// The bytes of all slots, and of one.
const PAGE: usize = 32_768;

const SLOT: usize = 64;

// Prints the counters and the sampled items.
pub(crate) fn report(rt: &HostRuntime, path: &str, kind: &str) -> anyhow::Result<()> {
    let mut page = blank_page(rt.alloc())?;
    let mut out = BufWriter::new(rt.alloc(), rt.stdout())?;
    match kind_named(kind)? {
        ItemKind::Label => {
            let counts = report_into::<Label, WardBox>(rt, path, page.as_mut_slice())?;
            print_sample::<Label, _>(&mut out, counts, page.as_slice())?;
        }
        ItemKind::WardBox => {
            let counts = report_into::<WardBox, Label>(rt, path, page.as_mut_slice())?;
            print_sample::<WardBox, _>(&mut out, counts, page.as_slice())?;
        }
    }
    out.flush()?;
    Ok(())
}

// As `report`, and how many labels of the sample expire before the day.
pub(crate) fn report_until(
    rt: &HostRuntime,
    path: &str,
    kind: &str,
    day: &str,
) -> anyhow::Result<()> {
    if kind_named(kind)? != ItemKind::Label {
        bail!("only labels expire");
    }
    if day.is_empty() || Label::new(b"12345670", b"", day.as_bytes()).is_err() {
        bail!("{day} is no day: YYMMDD");
    }
    let mut page = blank_page(rt.alloc())?;
    let counts = report_into::<Label, WardBox>(rt, path, page.as_mut_slice())?;
    let mut out = BufWriter::new(rt.alloc(), rt.stdout())?;
    print_sample::<Label, _>(&mut out, counts, page.as_slice())?;
    print_early(&mut out, counts, page.as_slice(), day)?;
    out.flush()?;
    Ok(())
}

pub(crate) fn blank_page(heap: Global) -> anyhow::Result<Vec<u8>> {
    Ok(vec![in heap; 0; PAGE]?)
}

// Opens the register and reports it into the page. Where Open finished a call, the image is saved.
fn report_into<K: Kind, J: Kind>(
    rt: &HostRuntime,
    path: &str,
    page: &mut [u8],
) -> anyhow::Result<Counts> {
    let mut bytes = read_file(rt, path)?;
    let mut image = Image::new(bytes.as_mut_slice());
    // a Vec: of an array of items of two type parameters it is not proved that it fits in memory
    let mut calls: Vec<Call<K, J, Window>> = Vec::with_capacity(rt.alloc(), 1)?;
    calls.push(Call::Own(Request::Report))?;
    let mut replies = [Err(Fault::TOO_SHORT)];
    let opened = resume(&mut image, calls.as_slice(), page, &mut replies);
    let opened = opened.map_err(|fault| refused(path, fault))?;
    if opened.finished.is_some() {
        save(rt, path, bytes.as_slice())?;
    }
    let [reply] = replies;
    match reply.map_err(|fault| refused(path, fault))? {
        Answer::Reported(counts) => Ok(counts),
        _ => Err(anyhow!("no report")),
    }
}

// The counters, in the program's own words, and a line for each slot in use.
pub(crate) fn print_sample<K: Kind + fmt::Display, W: Write>(
    out: &mut W,
    counts: Counts,
    page: &[u8],
) -> anyhow::Result<()> {
    let Counts {
        capacity,
        size,
        sampled,
        c1,
        c2,
        calls,
        words,
    } = counts;
    writeln!(
        out,
        "capacity {capacity}, stock {size}, sample {sampled}, c1 {c1}, c2 {c2}, calls {calls}, words {words}"
    )?;
    for (i, slot) in page.chunks(SLOT).take(usize::from(sampled)).enumerate() {
        let [low, high, _, _, form @ ..] = slot else {
            continue;
        };
        let number = u16::from_le_bytes([*low, *high]);
        match K::from_form(form) {
            Some(item) => writeln!(out, "slot {i}: {number}: {item}")?,
            None => writeln!(out, "slot {i}: {number}")?,
        }
    }
    Ok(())
}

// How many labels of the sample expire before the day.
pub(crate) fn print_early<W: Write>(
    out: &mut W,
    counts: Counts,
    page: &[u8],
    day: &str,
) -> anyhow::Result<()> {
    let sampled = counts.sampled;
    let early = expiring(page, sampled, day.as_bytes());
    writeln!(out, "expire before {day}: {early} of {sampled} sampled")?;
    Ok(())
}

// How many labels in the first slots of the page expire before the day.
fn expiring(page: &[u8], sampled: u16, day: &[u8]) -> usize {
    page.chunks(SLOT)
        .take(usize::from(sampled))
        .filter_map(|slot| Label::from_form(slot.get(4..)?))
        .filter(|label| !label.expiry().is_empty() && label.expiry() < day)
        .count()
}
