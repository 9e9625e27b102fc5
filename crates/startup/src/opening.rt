ghost use Rattle.std.specs.Prelude.{◌≡◌};
ghost use Rattle.journal.specs.Writes.{Runs};
ghost use Rattle.journal.specs.declared.headers.Header.TheVariants as header;
ghost use Rattle.plans.specs.Calls.{PerformsOnline};
ghost use Rattle.plans.specs.Plans.{too_small, answering, open_answer, open_plan, used_by};
ghost use Rattle.reader.specs.Viewed.{of_view};
ghost use Rattle.startup.specs.Opens.{of_kind, writes_of, Found, FoundBy, CountsRead, RestRead, ImageRead, ChangesRead, agrees_with};

use crate::start::start;
use device::Device;
use fault::{Damage, Fault};
use items::Kind;
use journal::{Header, Pending, PendingCall, Write, replay};
use pairing::Counts;
use plans::{Finished, Opened};
use reader::{View, read_header, read_through};

// What Open has to write: three cases, which an Option of an Option would not name.
#[derive(Clone, Copy)]
enum Task {
    Nothing,
    // the header is freed
    Free,
    // the pending changes are made, and the header is freed
    Replay([Write; 4]),
}

// What Open has to write, and what it then answers.
#[derive(Clone, Copy)]
struct Finding {
    task: Task,
    opened: Opened,
}

// Opens a register: finishes the call that a power failure left pending.
pub fn open<K: Kind, D: Device>(device: &mut D) -> Result<Opened, Fault>
    ensures { PerformsOnline (too_small (D.Device.meaning device.old)) (answering open_answer (open_plan K.Kind.code K.Kind.reading (D.Device.meaning device.old))) (D.Device.meaning device.old) result (D.Device.meaning device.new) }
{
    start(device)?;
    let finding = find::<K, D>(device)?;
    perform(device, &finding.task)?;
    Ok(finding.opened)
}

// Does what is to be written.
fn perform<D: Device>(device: &mut D, task: &Task) -> Result<(), Fault>
    ensures { Runs (writes_of task.now) (D.Device.meaning device.old) result (D.Device.meaning device.new) }
{
    match task {
        Task::Nothing => Ok(()),
        Task::Free => replay(device, &[]),
        Task::Replay(changes) => replay(device, changes),
    }
}

// Reads what there is to open.
fn find<K: Kind, D: Device>(device: &D) -> Result<Finding, Fault>
    ensures { of_kind Found K.Kind (D.Device.meaning device.now) result }
{
    let header = read_header(device)?;
    find_by::<K, D>(device, header)
}

// Reads what there is to open, by what the header says.
fn find_by<K: Kind, D: Device>(device: &D, header: Header) -> Result<Finding, Fault>
    ensures { of_kind FoundBy K.Kind (D.Device.meaning device.now) header result }
{
    match header {
        Header::Free => find_resting::<K, D>(device, Task::Nothing),
        Header::Unreadable => find_resting::<K, D>(device, Task::Free),
        Header::Pending(pending) => find_pending::<K, D>(device, pending),
        Header::Unlawful => Err(Fault::not_register(1, Damage::Range)),
        Header::Other => Err(Fault::not_register(1, Damage::Mark)),
    }
}

// Nothing is pending.
fn find_resting<K: Kind, D: Device>(device: &D, task: Task) -> Result<Finding, Fault>
    ensures { of_kind RestRead K.Kind (D.Device.meaning device.now) task result }
{
    let counts = read_counts::<K, D>(&View::plain(device))?;
    Ok(Finding {
        task,
        opened: Opened {
            counts,
            finished: None,
        },
    })
}

// A call is pending: the register is read as it will be.
fn find_pending<K: Kind, D: Device>(device: &D, pending: Pending) -> Result<Finding, Fault>
    ensures { of_kind FoundBy K.Kind (D.Device.meaning device.now) (header.Pending pending) result }
{
    let changes = read_changes(device, &pending.blocks)?;
    let counts = counts_after::<K, D>(device, pending)?;
    if !agrees(&pending, counts) {
        return Err(Fault::not_register(1, Damage::Disagreement));
    }
    Ok(Finding {
        task: Task::Replay(changes),
        opened: Opened {
            counts,
            finished: Some(Finished::from(pending)),
        },
    })
}

// The counts of the register once the pending call is finished.
fn counts_after<K: Kind, D: Device>(device: &D, pending: Pending) -> Result<Counts, Fault>
    ensures { of_kind CountsRead K.Kind (D.Device.meaning device.now) 2 pending.blocks result }
{
    read_counts::<K, D>(&View {
        device,
        first: 2,
        targets: &pending.blocks,
    })
}

// The counts of the register in the view, which is read through.
fn read_counts<K: Kind, D: Device>(view: &View<D>) -> Result<Counts, Fault>
    ensures { of_view (of_kind CountsRead K.Kind) D.Device view.now result }
{
    let found = read_through::<K, D>(view)?;
    Ok(found.counters.get())
}

// The pending changes: the after-images in blocks 2 to 5, with their targets.
fn read_changes<D: Device>(device: &D, targets: &[u16; 4]) -> Result<[Write; 4], Fault>
    ensures { ChangesRead (D.Device.meaning device.now) targets.now result }
{
    let [first, second, third, fourth] = *targets;
    // written out: of `try_map` it is known that its fault is one of the images', and not that it is the first
    Ok([
        read_image(device, 2, first)?,
        read_image(device, 3, second)?,
        read_image(device, 4, third)?,
        read_image(device, 5, fourth)?,
    ])
}

// The after-image in the block, as a change of its target.
fn read_image<D: Device>(device: &D, block: u16, target: u16) -> Result<Write, Fault>
    ensures { ImageRead (D.Device.meaning device.now) block target result }
{
    Ok(Write {
        block: target,
        bytes: View::plain(device).bytes(block)?,
    })
}

// Whether the header agrees with the counts after its call.
fn agrees(pending: &Pending, counts: Counts) -> bool
    ensures { result ≡ agrees_with pending.now counts }
{
    let used = u64::from(words_used(pending.call));
    pending.calls == u64::from(counts.calls)
        && pending.words.checked_add(used) == Some(counts.words)
}

// The words that a pending call used.
fn words_used(call: PendingCall) -> u8
    ensures { result ≡ used_by call }
{
    match call {
        PendingCall::Store { used, .. } => used,
        PendingCall::Take => 0,
    }
}
