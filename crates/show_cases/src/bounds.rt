// Texts at both edges of the format's bounds.
use crate::{Verdict, front};
use std::alloc::AllocError;
use std::io;

// `times` lines that are all the same.
fn push_lines(text: &mut String, line: &str, times: usize) -> Result<(), AllocError> {
    for _ in 0..times {
        text.push_str(line)?;
    }
    Ok(())
}

fn print_verdict(rt: &HostRuntime, what: &str, text: &str) -> io::Result<()> {
    println!(rt;
        "{what}, {} bytes: {}",
        text.len(),
        Verdict::of(text.as_bytes())
    )
}

// A good file of 60,000 bytes, and one byte more.
fn print_lengths(rt: &HostRuntime) -> io::Result<()> {
    let mut text = front(rt.alloc(), b'A')?;
    push_lines(&mut text, "wait - -\n", 8)?;
    push_lines(&mut text, "fire 12 -\n", 1)?;
    push_lines(&mut text, "pin x<=00002.0000 -\n", 2986)?;
    print_verdict(rt, "a long file", text.as_str())?;
    text.push('x')?;
    print_verdict(rt, "a longer file", text.as_str())
}

fn print_acts(rt: &HostRuntime, what: &str, times: usize, last: &str) -> io::Result<()> {
    let mut text = front(rt.alloc(), b'A')?;
    push_lines(&mut text, "wait - -\n", times)?;
    text.push_str(last)?;
    print_verdict(rt, what, text.as_str())
}

// Places of one part, with names that differ.
fn print_places(rt: &HostRuntime, what: &str, times: usize) -> io::Result<()> {
    let mut text = front(rt.alloc(), b'P')?;
    for i in 0..times {
        writeln!(text, "desk p{i:02} -")?;
    }
    print_verdict(rt, what, text.as_str())
}

fn print_edges(rt: &HostRuntime, what: &str, times: usize) -> io::Result<()> {
    let mut text = front(rt.alloc(), b'E')?;
    push_lines(&mut text, "desk safe live - - - - -\n", times)?;
    print_verdict(rt, what, text.as_str())
}

pub(crate) fn print_bounds(rt: &HostRuntime) -> io::Result<()> {
    print_lengths(rt)?;
    print_acts(rt, "4,096 acts", 4096, "")?;
    print_acts(rt, "4,097 acts", 4097, "")?;
    print_acts(rt, "4,096 acts and a bad word", 4096, "halt - -\n")?;
    print_acts(rt, "4,096 acts and two fields", 4096, "wait -\n")?;
    print_places(rt, "48 places", 48)?;
    print_places(rt, "49 places", 49)?;
    print_edges(rt, "96 edges", 96)?;
    print_edges(rt, "97 edges", 97)
}
