// Transactions as text.
use crate::Transaction;
use std::fmt;

// Prints `store 17: code 12345670, batch AB12, expiry 280229` or `take 17`.
impl fmt::Display for Transaction {
    fn fmt<W: fmt::Write>(&self, f: &mut fmt::Formatter<W>) -> fmt::Result {
        match self {
            Transaction::Store { number, label } => write!(f, "store {number}: {label}"),
            Transaction::Take { number } => write!(f, "take {number}"),
        }
    }
}
