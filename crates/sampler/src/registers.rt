// Registers in image files. An image is read whole into memory, worked on there, and saved.
use crate::files::{read_file, read_or_zeros, save};
use crate::replies::{call_of, number_of, print_reply};
use crate::scans::entries;
use crate::windows::Window;
use anyhow::anyhow;
use device::Image;
use fault::Fault;
use intake::Entry;
use items::{ItemKind, Label, WardBox};
use register::{SideFault, same};
use session::{Answer, resume};
use startup::{make, open};
use std::io::{BufWriter, Write};
use words::Tape;

// The bytes of a new image: 78 blocks.
const IMAGE_BYTES: usize = 78 * 512;

// The kind of item with this name. Each command then matches on it once, for a type cannot be chosen at run time.
pub(crate) fn kind_named(name: &str) -> anyhow::Result<ItemKind> {
    name.parse().map_err(|why| anyhow!("{name} is {why}"))
}

// The refusal of the register in this file, as one message: an error keeps 120 bytes of it.
pub(crate) fn refused(path: &str, fault: Fault) -> anyhow::Error {
    anyhow!("{path}: {fault}")
}

// Makes a register in the image, which is made too where there is none.
pub(crate) fn make_image(
    rt: &HostRuntime,
    path: &str,
    capacity: &str,
    kind: &str,
) -> anyhow::Result<()> {
    let kind = kind_named(kind)?;
    let capacity = capacity
        .parse::<u16>()
        .map_err(|_| refused(path, Fault::BAD_CAPACITY))?;
    let mut bytes = read_or_zeros(rt, path, IMAGE_BYTES)?;
    let mut image = Image::new(bytes.as_mut_slice());
    let made = match kind {
        ItemKind::Label => make::<Label, Image>(&mut image, capacity),
        ItemKind::WardBox => make::<WardBox, Image>(&mut image, capacity),
    };
    made.map_err(|fault| refused(path, fault))?;
    save(rt, path, bytes.as_slice())
}

// Says whether two registers have the same packs in stock and in their samples.
pub(crate) fn compare(rt: &HostRuntime, left: &str, right: &str, kind: &str) -> anyhow::Result<()> {
    let kind = kind_named(kind)?;
    let mut left_bytes = read_file(rt, left)?;
    let mut right_bytes = read_file(rt, right)?;
    match same_images(kind, left_bytes.as_mut_slice(), right_bytes.as_mut_slice()) {
        Ok(true) => println!(rt; "same")?,
        Ok(false) => println!(rt; "different")?,
        Err(SideFault::Left(fault)) => return Err(refused(left, fault)),
        Err(SideFault::Right(fault)) => return Err(refused(right, fault)),
    }
    Ok(())
}

fn same_images(kind: ItemKind, left: &mut [u8], right: &mut [u8]) -> Result<bool, SideFault> {
    let left = Image::new(left);
    let right = Image::new(right);
    match kind {
        ItemKind::Label => same::<Label, Image, Image>(&left, &right),
        ItemKind::WardBox => same::<WardBox, Image, Image>(&left, &right),
    }
}

// Opens the image and does each confirmed line of the file; the words for its draws are the tape's.
pub(crate) fn scan_file(
    rt: &HostRuntime,
    path: &str,
    tape: &str,
    file: &str,
) -> anyhow::Result<()> {
    let mut bytes = read_file(rt, path)?;
    let tape = read_file(rt, tape)?;
    let input = read_file(rt, file)?;
    let table = entries(rt, input.as_slice())?;
    let tape = Tape {
        bytes: tape.as_slice(),
    };
    let mut image = Image::new(bytes.as_mut_slice());
    open::<Label, Image>(&mut image).map_err(|fault| refused(path, fault))?;
    let mut replies = Vec::with_capacity(rt.alloc(), table.len())?;
    for entry in table.as_slice() {
        replies.push(do_entry(&mut image, tape, *entry))?;
    }
    save(rt, path, bytes.as_slice())?;
    let mut out = BufWriter::new(rt.alloc(), rt.stdout())?;
    for (i, reply) in replies.as_slice().iter().enumerate() {
        let line = i + 1;
        write!(out, "{line}: ")?;
        print_reply(&mut out, *reply)?;
    }
    out.flush()?;
    Ok(())
}

// Does what a confirmed line says, after an Open: the pack number that it is about, and the answer.
fn do_entry(image: &mut Image, tape: Tape, entry: Entry) -> Result<(u16, Answer), Fault> {
    let transaction = entry?;
    let opened = open::<Label, Image>(image)?;
    let calls = [call_of(transaction, Window::on(tape, opened.counts.words))];
    let mut replies = [Err(Fault::TOO_SHORT)];
    resume(image, &calls, &mut [], &mut replies)?;
    let [reply] = replies;
    Ok((number_of(transaction), reply?))
}
