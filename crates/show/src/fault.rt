// Why a file is not read, or a draft not sealed.
ghost use Rattle.std.specs.Prelude.{◌≡◌, Some};
ghost use Rattle.show.specs.Faults.{spot_text, told, fault_text, on_line, without_end};

use lines::LineFault;
use std::error::Error;
use std::fmt;
use text::Flaw;

// A line of the file and a field of it, both counted from 1, or 0 0 for none: so the rules tell a refusal that lies nowhere.
#[derive(Clone, Copy, PartialEq, Eq, Debug)]
pub struct Spot {
    pub line: usize,
    pub field: usize,
}

impl fmt::Display for Spot {
    ghost output = { λ spot. Some (spot_text spot) };

    fn fmt<W: fmt::Write>(&self, f: &mut fmt::Formatter<W>) -> fmt::Result {
        write!(f, "line {} field {}", self.line, self.field)
    }
}

#[derive(Clone, Copy, PartialEq, Eq, Debug)]
pub enum Fault {
    // more than 60,000 bytes
    TooLong,
    // another line was due, or the text ends before its run
    Disorder {
        line: usize,
    },
    // a field is not as it should be
    Field {
        line: usize,
        field: usize,
        flaw: Flaw,
    },
    // there is no part
    NoPart {
        acts: Spot,
    },
}

// What is wrong with a line, told of line `line`.
pub(crate) fn on_line(line: usize, fault: LineFault) -> Fault
    ensures { result ≡ on_line line fault }
{
    match fault {
        LineFault::Disorder => Fault::Disorder { line },
        LineFault::Field(field, flaw) => Fault::Field { line, field, flaw },
    }
}

// What is wrong with line `line` where no LF ends it, if anything stands there.
pub(crate) fn without_end(line: usize, rest: &[u8]) -> Option<Fault>
    ensures { result ≡ without_end line rest.now }
{
    (!rest.is_empty()).then_some(Fault::Field {
        line,
        field: 1,
        flaw: Flaw::Form,
    })
}

impl Fault {
    // The number by which the refusal is told.
    pub fn number(self) -> u8
        ensures { result ≡ (told self).0 }
    {
        match self {
            Fault::TooLong => 1,
            Fault::Disorder { .. } => 2,
            Fault::Field { flaw, .. } => match flaw {
                Flaw::Form => 3,
                Flaw::Name => 4,
                Flaw::Range => 5,
                Flaw::Count => 6,
            },
            Fault::NoPart { .. } => 7,
        }
    }

    // Where it lies.
    pub fn spot(self) -> Spot
        ensures { result ≡ (told self).1 }
    {
        match self {
            Fault::TooLong => Spot { line: 0, field: 0 },
            Fault::Disorder { line } => Spot { line, field: 1 },
            Fault::Field { line, field, .. } => Spot { line, field },
            Fault::NoPart { acts } => acts,
        }
    }
}

impl fmt::Display for Fault {
    ghost output = { λ fault. Some (fault_text fault) };

    fn fmt<W: fmt::Write>(&self, f: &mut fmt::Formatter<W>) -> fmt::Result {
        write!(f, "{} at {}", self.number(), self.spot())
    }
}

impl Error for Fault {}
