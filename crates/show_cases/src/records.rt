// Prints the acts of a small show, and what drafts and shows hold after refusals.
use crate::Verdict;
use show::{Act, Acts, Comparison, Draft, Network, Show};
use std::io;

const SAMPLE: &[u8] =
    b"time\nwhole\nclock\nt\nx\ncounter low high first\nshots -2 30 007\nchannel\nhalt\ngo\npart place when\ndesk safe -\nrack shut t<2.5,x>=0.0019\ndesk live x<=3\npart from to when if call reset do\nrack shut shut t>1 shots>-1,shots=3 go? x,t shots:=-4,shots+=1\ndesk safe live - - - - -\nact one two\nwait - -\nfire -7 -\nmeet 2 1\npin x<=1.5 -\nat desk live\n";

const NO_PART: &[u8] =
    b"time\nfine\nclock\ncounter low high first\nchannel\npart place when\npart from to when if call reset do\nact one two\n";

// The acts of the sample, each with its word.
const ACTS: [(&str, Act<'static>); 5] = [
    ("wait", Act::Wait),
    ("fire", Act::Fire { edge: -7 }),
    (
        "meet",
        Act::Meet {
            sender: 2,
            receiver: 1,
        },
    ),
    (
        "pin",
        Act::Pin {
            clock: b"x",
            comparison: Comparison::AtMost,
            ticks: 1500,
        },
    ),
    (
        "at",
        Act::At {
            part: b"desk",
            place: b"live",
        },
    ),
];

fn print_acts(rt: &HostRuntime, acts: Acts<'_>, network: &Network) -> io::Result<()> {
    let mut cursor = acts;
    for (word, act) in ACTS {
        let same = cursor.next(network) == Some(Ok(act));
        println!(rt; "{word} {same}")?;
    }
    if cursor.next(network).is_some() {
        println!(rt; "one act more")?;
    }
    Ok(())
}

fn print_seal(rt: &HostRuntime, what: &str, draft: &Draft, show: &mut Show) -> io::Result<()> {
    let verdict = Verdict(draft.seal(show));
    let parts = show.network().parts.as_slice().len();
    println!(rt; "{what}: {verdict}, the show has {parts} parts")
}

pub(crate) fn print_records(rt: &HostRuntime) -> io::Result<()> {
    let mut draft = Draft::blank();
    let mut show = Show::blank();
    print_seal(rt, "a blank draft", &draft, &mut show)?;
    let Ok(acts) = draft.read(SAMPLE) else {
        return println!(rt; "the sample is refused");
    };
    print_seal(rt, "the sample", &draft, &mut show)?;
    print_acts(rt, acts, show.network())?;
    let _ = draft.read(NO_PART);
    print_seal(rt, "a file without a part", &draft, &mut show)?;
    let _ = draft.read(b"time\nfine\nclock\nt\nt\n");
    print_seal(rt, "after a refused reading", &draft, &mut show)
}
