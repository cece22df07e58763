// How the examples show words, flags and answers.
use machine_state::{Answer, Given, Refusal};
use std::fmt;

// A word, shown by its signed reading.
#[derive(Clone, Copy)]
pub(crate) struct Signed(pub(crate) u64);

impl fmt::Display for Signed {
    fn fmt<W: fmt::Write>(&self, f: &mut fmt::Formatter<W>) -> fmt::Result {
        write!(f, "{}", utils::signed(self.0))
    }
}

// A flag, or a truth that a call answers.
#[derive(Clone, Copy)]
pub(crate) struct Flag(pub(crate) bool);

impl fmt::Display for Flag {
    fn fmt<W: fmt::Write>(&self, f: &mut fmt::Formatter<W>) -> fmt::Result {
        f.write_str(if self.0 { "set" } else { "clear" })
    }
}

// A refusal, shown by its number; 6 says how many slots lack (RULES 7.5).
#[derive(Clone, Copy)]
struct Refused(Refusal);

impl fmt::Display for Refused {
    fn fmt<W: fmt::Write>(&self, f: &mut fmt::Formatter<W>) -> fmt::Result {
        write!(f, "refusal {}", self.0.number())?;
        match self.0.lacking() {
            0 => Ok(()),
            1 => f.write_str(", 1 slot lacks"),
            lacking => write!(f, ", {lacking} slots lack"),
        }
    }
}

// What a call answers.
#[derive(Clone, Copy)]
pub(crate) struct Said(pub(crate) Answer);

impl fmt::Display for Said {
    fn fmt<W: fmt::Write>(&self, f: &mut fmt::Formatter<W>) -> fmt::Result {
        match self.0 {
            Ok(Given::Nothing) => f.write_str("accepted"),
            Ok(Given::Word(word)) => write!(f, "{}", Signed(word)),
            Ok(Given::Truth(yes)) => write!(f, "{}", Flag(yes)),
            Err(why) => write!(f, "{}", Refused(why)),
        }
    }
}
