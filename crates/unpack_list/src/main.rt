#![tactic(auto)]
// `./unpack`: the events of a packed list of standard input. A list has at most 65,536 bytes.
// A program has one stored run: this one is of a list without a fault.
use printing::Ends;
use std::io;

fn main(rt: HostRuntime) -> io::Result<()> {
    let mut ends = Ends {
        out: io::writer(&rt),
        errors: rt.stderr(),
    };
    receive::receive_input(&mut rt.reader(), &mut ends)
}
