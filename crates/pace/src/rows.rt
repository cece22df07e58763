// The rows: which there are, what each is called and what it runs.
use super::memory::{Pages, Store};
use super::{registers, report, texts};
use std::fmt;

#[derive(Clone, Copy)]
pub(crate) enum Row {
    Reads(Pages),
    Walks,
    Writes(Pages),
    Stack,
    GetsKnown,
    GetsAny,
    SetsKnown,
    SetsAny,
    Flags,
    SizedFlags,
    Operations,
    Addresses,
    OperandTexts,
    ReadBack,
    StateTexts,
    Reports,
    Dependences,
}

// The rows by their numbers.
pub(crate) const ROWS: [Row; 21] = [
    Row::Reads(Pages::One),
    Row::Reads(Pages::Sixteen),
    Row::Reads(Pages::Many),
    Row::Walks,
    Row::Writes(Pages::One),
    Row::Writes(Pages::Sixteen),
    Row::Writes(Pages::Many),
    Row::Stack,
    Row::GetsKnown,
    Row::GetsAny,
    Row::SetsKnown,
    Row::SetsAny,
    Row::Flags,
    Row::SizedFlags,
    Row::Operations,
    Row::Addresses,
    Row::OperandTexts,
    Row::ReadBack,
    Row::StateTexts,
    Row::Reports,
    Row::Dependences,
];

// The row of a number; past the last, the last.
pub(crate) fn numbered(number: u64) -> Row {
    *ROWS.get(number as usize).unwrap_or(&Row::Dependences)
}

impl fmt::Display for Row {
    fn fmt<W: fmt::Write>(&self, f: &mut fmt::Formatter<W>) -> fmt::Result {
        match self {
            Row::Reads(pages) => write!(f, "read 8 bytes, {pages}"),
            Row::Walks => f.write_str("read 8 bytes, walk of 3 levels"),
            Row::Writes(pages) => write!(f, "write 8 bytes, {pages}"),
            Row::Stack => f.write_str("push and pop"),
            Row::GetsKnown => f.write_str("get a register, name known"),
            Row::GetsAny => f.write_str("get a register, any name"),
            Row::SetsKnown => f.write_str("set a register, name known"),
            Row::SetsAny => f.write_str("set a register, any name"),
            Row::Flags => f.write_str("flags: compute, set, test"),
            Row::SizedFlags => f.write_str("sized flags, any size"),
            Row::Operations => f.write_str("arithmetic: add, adc, sub, sbb, cmp"),
            Row::Addresses => f.write_str("effective address"),
            Row::OperandTexts => f.write_str("operand text"),
            Row::ReadBack => f.write_str("operand text read back"),
            Row::StateTexts => f.write_str("state text"),
            Row::Reports => f.write_str("exposed report of 64 calls"),
            Row::Dependences => f.write_str("dependent or not, two calls"),
        }
    }
}

impl Row {
    // The row's sum over so many turns.
    pub(crate) fn run(self, turns: u64, store: &mut Store) -> u64 {
        store.empty();
        match self {
            Row::Reads(pages) => store.reads(pages, turns),
            Row::Walks => store.walks(turns),
            Row::Writes(pages) => store.writes(pages, turns),
            Row::Stack => store.stack(turns),
            Row::GetsKnown => registers::gets_known(turns),
            Row::GetsAny => registers::gets_any(turns),
            Row::SetsKnown => registers::sets_known(turns),
            Row::SetsAny => registers::sets_any(turns),
            Row::Flags => registers::flags(turns),
            Row::SizedFlags => registers::sized_flags(turns),
            Row::Operations => registers::operations(turns),
            Row::Addresses => registers::addresses(turns),
            Row::OperandTexts => texts::operands(turns),
            Row::ReadBack => texts::read_back(turns),
            Row::StateTexts => texts::states(turns),
            Row::Reports => report::reports(turns),
            Row::Dependences => report::dependences(turns),
        }
    }
}
