#![tactic(auto)]
// `./fragment`: the fragment of a sheet of standard input. A sheet has at most 1,000 bytes. A
// program has one stored run: this one is of a sheet with every element.
use printing::Ends;
use std::io;

fn main(rt: HostRuntime) -> io::Result<()> {
    let mut ends = Ends {
        out: io::writer(&rt),
        errors: rt.stderr(),
    };
    page::page_input(&mut rt.reader(), &mut ends)
}
