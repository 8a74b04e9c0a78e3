// What can be wrong with a scenario, and how it is said.
ghost use Rattle.std.specs.Prelude.{Some};
ghost use Rattle.room_scenario.specs.Faults.{fault_text, bad_line_text};

use std::error::Error;
use std::fmt;

// What can be wrong with a line.
#[derive(Clone, Copy, PartialEq, Eq, Debug)]
pub enum Fault {
    UnknownStatement,
    NumberMissing,
    NotANumber,
    NumberTooLarge,
    NumberTooSmall,
    BoxMissing,
    NotABox,
    NoSuchBox,
    BoxThereAlready,
    UnexpectedWord,
    TooManyEvents,
    SecondEnd,
    EndMissing,
}

impl fmt::Display for Fault {
    ghost output = { λ fault. Some (fault_text fault) };

    fn fmt<W: fmt::Write>(&self, f: &mut fmt::Formatter<W>) -> fmt::Result {
        match self {
            Fault::UnknownStatement => f.write_str("unknown statement"),
            Fault::NumberMissing => f.write_str("a number is missing"),
            Fault::NotANumber => f.write_str("not a number"),
            Fault::NumberTooLarge => f.write_str("a number is too large"),
            Fault::NumberTooSmall => f.write_str("a number is too small"),
            Fault::BoxMissing => f.write_str("a box is missing"),
            Fault::NotABox => f.write_str("not a box"),
            Fault::NoSuchBox => f.write_str("no such box"),
            Fault::BoxThereAlready => f.write_str("the box is there already"),
            Fault::UnexpectedWord => f.write_str("unexpected word"),
            Fault::TooManyEvents => f.write_str("too many events"),
            Fault::SecondEnd => f.write_str("a second end"),
            Fault::EndMissing => f.write_str("the end is missing"),
        }
    }
}

impl Error for Fault {}

// The first line that is bad, counted from 1, and what is wrong with it.
#[derive(Clone, Copy, PartialEq, Eq, Debug)]
pub struct BadLine {
    pub line: usize,
    pub fault: Fault,
}

impl fmt::Display for BadLine {
    ghost output = { λ bad. Some (bad_line_text bad) };

    fn fmt<W: fmt::Write>(&self, f: &mut fmt::Formatter<W>) -> fmt::Result {
        write!(f, "line {}: {}", self.line, self.fault)
    }
}

impl Error for BadLine {}
