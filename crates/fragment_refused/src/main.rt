#![tactic(auto)]
// `./fragment`, on a sheet with a link, which is refused. A program has one stored run, and so each
// run its program.
use printing::Ends;
use std::io;

fn main(rt: HostRuntime) -> io::Result<()> {
    let mut ends = Ends {
        out: io::writer(&rt),
        errors: rt.stderr(),
    };
    page::page_input(&mut rt.reader(), &mut ends)
}
