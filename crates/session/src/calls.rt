use crate::Answer;
use fault::Fault;

// What is asked of a register. A Store brings the source of its draws. Requests are data, not closures: the law of every
// run speaks of lists of them.
#[derive(Clone, Copy, Debug, PartialEq, Eq)]
pub enum Request<I, S> {
    Store { number: u16, item: I, source: S },
    Take { number: u16 },
    Report,
    Open,
}

// For the register's own kind of item, or for another.
#[derive(Clone, Copy, Debug, PartialEq, Eq)]
pub enum Call<K, J, S> {
    Own(Request<K, S>),
    Other(Request<J, S>),
}

// What became of a call.
pub type Reply = Result<Answer, Fault>;
