// Runs: a register is made or opened, and then calls are made on it, in their order.
ghost use Rattle.std.specs.Prelude.{◌≡◌, ℕ, ◌<◌, ◌≤◌, List, map, length, MatchResult, ◌≢◌, slice_set};
ghost use Rattle.fault.specs.Refusals.{too_short};
ghost use Rattle.pairing.specs.Reservoir.{Reservoir};
ghost use Rattle.session.specs.Calls as session;
ghost use Rattle.session.specs.Calls.{kind_of};
ghost use Rattle.session.specs.Asked.{asked_request, asked, Does, DoesCall, Ended};
ghost use Rattle.session.specs.Law.{Fairness};
ghost use Rattle.session.specs.Runs.{Keeps, RanFrom, ResumedFrom};

use crate::Answer;
use crate::calls::{Call, Reply, Request};
use device::Device;
use fault::Fault;
use items::Kind;
use plans::Opened;
use register::{report, store, take};
use startup::{make, open};
use words::Source;

// Stores a pack, for a kind of item. The page is left as it is.
fn perform_store<I: Kind, S: Source, D: Device>(
    device: &mut D,
    number: u16,
    item: &I,
    source: &S,
) -> Reply
    ensures { (page : List ℕ) →
        Does
        (kind_of I.Kind)
        (D.Device.meaning device.old)
        page
        (session.Store number item.now (S.Source.words source.now))
        result
        (D.Device.meaning device.new)
        page }
{
    let (calls, width, draw, slot) = store(device, number, item, source)?;
    Ok(Answer::Stored(calls, width, draw, slot))
}

// Takes a pack.
fn perform_take<I: Kind, D: Device>(device: &mut D, number: u16) -> Reply
    ensures { (page : List ℕ) → Does (kind_of I.Kind) (D.Device.meaning device.old) page (session.Take number) result (D.Device.meaning device.new) page }
{
    let (calls, slot) = take::<I, D>(device, number)?;
    Ok(Answer::Taken(calls, slot))
}

// Reports the counters, and fills the page.
fn perform_report<I: Kind, D: Device>(device: &D, page: &mut [u8]) -> Reply
    ensures { Does (kind_of I.Kind) (D.Device.meaning device.now) page.old session.Report result (D.Device.meaning device.now) page.new }
{
    report::<I, D>(device, page).map(Answer::Reported)
}

// Opens the register.
fn perform_open<I: Kind, D: Device>(device: &mut D) -> Reply
    ensures { (page : List ℕ) → Does (kind_of I.Kind) (D.Device.meaning device.old) page session.Open result (D.Device.meaning device.new) page }
{
    open::<I, D>(device).map(Answer::Opened)
}

// Does what is asked, for a kind of item.
fn perform<I: Kind, S: Source, D: Device>(
    device: &mut D,
    request: &Request<I, S>,
    page: &mut [u8],
) -> Reply
    ensures { Does (kind_of I.Kind) (D.Device.meaning device.old) page.old (asked_request S.Source.words request.now) result (D.Device.meaning device.new) page.new }
{
    match request {
        Request::Store {
            number,
            item,
            source,
        } => perform_store(device, *number, item, source),
        Request::Take { number } => perform_take::<I, D>(device, *number),
        Request::Report => perform_report::<I, D>(device, page),
        Request::Open => perform_open::<I, D>(device),
    }
}

// Makes a call, for the register's kind or for another.
fn perform_call<K: Kind, J: Kind, S: Source, D: Device>(
    device: &mut D,
    call: &Call<K, J, S>,
    page: &mut [u8],
) -> Reply
    ensures { DoesCall (kind_of K.Kind) (kind_of J.Kind) (D.Device.meaning device.old) page.old (asked S.Source.words call.now) result (D.Device.meaning device.new) page.new }
{
    match call {
        Call::Own(request) => perform(device, request, page),
        Call::Other(request) => perform(device, request, page),
    }
}

// Puts an answer into the place of its call.
fn put(replies: &mut [Reply], place: usize, reply: Reply)
    requires { place < length replies.old }
    ensures { replies.new ≡ slice_set replies.old place reply }
{
    replies[place] = reply;
}

// Makes the calls in their order, and puts the answer of each into its place. By index: once a zip with `iter_mut` is
// over, the proof knows how many answers there are, and not which.
fn perform_all<K: Kind, J: Kind, S: Source, D: Device>(
    device: &mut D,
    calls: &[Call<K, J, S>],
    page: &mut [u8],
    replies: &mut [Reply],
)
    requires { length calls.now ≤ length replies.old }
    ensures { (K.Kind.code ≢ J.Kind.code) →
        (s : Reservoir K) →
        Keeps (kind_of K.Kind) (D.Device.meaning device.old) s →
        Ended
        (kind_of K.Kind)
        (kind_of J.Kind)
        (D.Device.meaning device.old)
        page.old
        s
        (map (asked S.Source.words) calls.now)
        replies.old
        (D.Device.meaning device.new)
        page.new
        replies.new }
{
    for (i, call) in calls.iter().enumerate() {
        let reply = perform_call(device, call, page);
        put(replies, i, reply);
    }
}

// Refuses replies that have no place for each call.
fn check_places<K, J, S>(calls: &[Call<K, J, S>], replies: &[Reply]) -> Result<(), Fault>
    ensures { MatchResult result (λ _. length calls.now ≤ length replies.now) (λ f. (f ≡ too_short) × (length replies.now < length calls.now)) }
{
    if replies.len() < calls.len() {
        return Err(Fault::TOO_SHORT);
    }
    Ok(())
}

// Makes an empty register, then the calls; each answer goes to its call's place in the replies, which must have one for each call. By any
// failure plan no group of packs is favoured.
pub fn run<K: Kind, J: Kind, S: Source, D: Device>(
    device: &mut D,
    capacity: u16,
    calls: &[Call<K, J, S>],
    page: &mut [u8],
    replies: &mut [Reply],
) -> Result<(), Fault>
    ensures run { (K.Kind.code ≢ J.Kind.code) →
        RanFrom
        (kind_of K.Kind)
        (kind_of J.Kind)
        (D.Device.meaning device.old)
        page.old
        (map (asked S.Source.words) calls.now)
        replies.old
        capacity
        result
        (D.Device.meaning device.new)
        page.new
        replies.new }
    ensures fair { (K.Kind.code ≢ J.Kind.code) → Fairness (kind_of K.Kind) (kind_of J.Kind) }
{
    check_places(calls, replies)?;
    make::<K, D>(device, capacity)?;
    perform_all(device, calls, page, replies);
    Ok(())
}

// Opens a register, then makes the calls, as `run` does.
pub fn resume<K: Kind, J: Kind, S: Source, D: Device>(
    device: &mut D,
    calls: &[Call<K, J, S>],
    page: &mut [u8],
    replies: &mut [Reply],
) -> Result<Opened, Fault>
    ensures run { (K.Kind.code ≢ J.Kind.code) →
        ResumedFrom
        (kind_of K.Kind)
        (kind_of J.Kind)
        (D.Device.meaning device.old)
        page.old
        (map (asked S.Source.words) calls.now)
        replies.old
        result
        (D.Device.meaning device.new)
        page.new
        replies.new }
{
    check_places(calls, replies)?;
    let opened = open::<K, D>(device)?;
    perform_all(device, calls, page, replies);
    Ok(opened)
}
