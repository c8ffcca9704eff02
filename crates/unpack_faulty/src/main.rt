#![tactic(auto)]
// `./unpack`, on a list in which a length has a byte more than it needs. A program has one stored
// run, and so each run its program.
use printing::Ends;
use std::io;

fn main(rt: HostRuntime) -> io::Result<()> {
    let mut ends = Ends {
        out: io::writer(&rt),
        errors: rt.stderr(),
    };
    receive::receive_input(&mut rt.reader(), &mut ends)
}
