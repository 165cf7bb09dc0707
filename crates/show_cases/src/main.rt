// Tries a table of show files, which comes on standard input, and prints each case that is not answered as its row says.
// Then prints what texts at the format's bounds come to, and the acts of a small show.
//
// A row is a letter, the number, line and field of the refusal that is due (0 0 0 for none), and the text. The letter
// says which lines stand in front of the text, so that it begins in a section; `\n`, `\r`, `\0` and `\f` in it stand
// for the bytes 10, 13, 0 and 255.
#![tactic(auto)]

use show::{Draft, Fault, Show, Spot};
use std::alloc::{AllocError, Global};
use std::io::{BufRead, BufReader};
use std::{fmt, io};
use text::{cut, read_whole};

mod bounds;
mod records;

use bounds::print_bounds;
use records::print_records;

// The letter of a section, and the lines that lead to it from the section above.
const FRONTS: [(u8, &str); 7] = [
    (b'N', ""),
    (b'K', "time\nfine\nclock\n"),
    (b'C', "t\nx\ncounter low high first\n"),
    (b'H', "shots 0 2 0\nchannel\n"),
    (b'P', "go\npart place when\n"),
    (
        b'E',
        "desk safe -\ndesk live x<=3\nrack shut -\npart from to when if call reset do\n",
    ),
    (b'A', "desk safe live t>=1 - go! x -\nact one two\n"),
];

// The lines in front of a text that begins in that section.
pub(crate) fn front(alloc: Global, letter: u8) -> Result<String, AllocError> {
    let mut lines = String::new(alloc);
    for (section, more) in FRONTS {
        lines.push_str(more)?;
        if section == letter {
            return Ok(lines);
        }
    }
    Ok(String::new(alloc))
}

// The byte that a letter of a row stands for behind a backslash.
fn escaped(letter: u8) -> u8 {
    match letter {
        b'n' => b'\n',
        b'r' => b'\r',
        b'0' => 0,
        _ => 255,
    }
}

// Adds the text that a row writes with escapes.
fn push_escaped(out: &mut Vec<u8>, written: &[u8]) -> Result<(), AllocError> {
    let mut bytes = written.iter();
    while let Some(b) = bytes.next() {
        if *b != b'\\' {
            out.push(*b)?;
        } else if let Some(letter) = bytes.next() {
            out.push(escaped(*letter))?;
        }
    }
    Ok(())
}

// What reading and sealing a text come to.
#[derive(Clone, Copy, PartialEq, Eq, Debug)]
pub(crate) struct Verdict(pub Result<(), Fault>);

impl fmt::Display for Verdict {
    fn fmt<W: fmt::Write>(&self, f: &mut fmt::Formatter<W>) -> fmt::Result {
        let (number, line, field) = self.told();
        write!(f, "{number} {line} {field}")
    }
}

fn load(text: &[u8]) -> Result<(), Fault> {
    let mut draft = Draft::blank();
    draft.read(text)?;
    let mut show = Show::blank();
    draft.seal(&mut show)
}

impl Verdict {
    pub(crate) fn of(text: &[u8]) -> Verdict {
        Verdict(load(text))
    }

    // As a row says it: the number, line and field of the refusal, or 0 0 0.
    fn told(self) -> (usize, usize, usize) {
        match self.0 {
            Ok(()) => (0, 0, 0),
            Err(fault) => {
                let Spot { line, field } = fault.spot();
                (usize::from(fault.number()), line, field)
            }
        }
    }
}

// The number in front of a row, or 0 where none is, and what stands after it.
fn number(row: &[u8]) -> (usize, &[u8]) {
    let (first, Some(rest)) = cut(row, b' ') else {
        return (0, row);
    };
    let number = read_whole(first).ok().and_then(|n| usize::try_from(n).ok());
    (number.unwrap_or(0), rest)
}

fn try_row(rt: &HostRuntime, count: usize, row: &[u8]) -> io::Result<()> {
    let [letter, rest @ ..] = row else {
        return Ok(());
    };
    let (_, rest) = number(rest);
    let (wanted_number, rest) = number(rest);
    let (wanted_line, rest) = number(rest);
    let (wanted_field, written) = number(rest);
    let mut text = front(rt.alloc(), *letter)?.into_bytes();
    push_escaped(&mut text, written)?;
    let verdict = Verdict::of(text.as_slice());
    if verdict.told() != (wanted_number, wanted_line, wanted_field) {
        println!(rt; "row {count}: {verdict}, not {wanted_number} {wanted_line} {wanted_field}")?;
    }
    Ok(())
}

// Each row is tried as it comes, so that a long table needs no more memory than its longest row.
fn main(rt: HostRuntime) -> io::Result<()> {
    let mut count = 0usize;
    for row in BufReader::new(rt.alloc(), rt.stdin())?.lines(rt.alloc()) {
        count = count.saturating_add(1);
        try_row(&rt, count, row?.as_bytes())?;
    }
    println!(&rt; "{count} rows")?;
    print_bounds(&rt)?;
    print_records(&rt)
}
