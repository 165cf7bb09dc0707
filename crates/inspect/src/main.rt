// Reads a show file from standard input and prints what it declares, or the refusal with its spot.
#![tactic(auto)]

use show::{Acts, Draft, Fault, Network, Show};
use std::io;
use std::io::Read;

// How many acts the cursor has left; there are at most 4,096.
fn count_acts(acts: Acts<'_>, network: &Network) -> usize {
    let mut cursor = acts;
    (0..4096)
        .take_while(|_| matches!(cursor.next(network), Some(Ok(_))))
        .count()
}

fn print_network(rt: &HostRuntime, network: &Network, acts: usize) -> io::Result<()> {
    println!(rt; "time {}", network.time)?;
    let counts = [
        ("clocks", network.clocks.as_slice().len()),
        ("counters", network.counters.as_slice().len()),
        ("channels", network.channels.as_slice().len()),
        ("parts", network.parts.as_slice().len()),
        ("places", network.places.as_slice().len()),
        ("edges", network.edges.as_slice().len()),
        ("acts", acts),
    ];
    for (what, count) in counts {
        println!(rt; "{what} {count}")?;
    }
    Ok(())
}

// Reads and seals a show; gives it with a cursor over its acts.
fn load(text: &[u8]) -> Result<(Show, Acts<'_>), Fault> {
    let mut draft = Draft::blank();
    let acts = draft.read(text)?;
    let mut show = Show::blank();
    draft.seal(&mut show)?;
    Ok((show, acts))
}

fn inspect(rt: &HostRuntime) -> io::Result<()> {
    let mut text = Vec::new(rt.alloc());
    rt.stdin().read_to_end(&mut text)?;
    match load(text.as_slice()) {
        Ok((show, acts)) => print_network(rt, show.network(), count_acts(acts, show.network())),
        Err(fault) => println!(rt; "refused, {fault}"),
    }
}

fn main(rt: HostRuntime) -> io::Result<()> {
    println!(&rt; "the show file")?;
    inspect(&rt)
}
