#![tactic(auto)]
// `./pack`: the packed list of a sheet of standard input. A sheet has at most 1,000 bytes.
// Its stored run is of a sheet that is read.
use printing::Ends;
use std::io;

fn main(rt: HostRuntime) -> io::Result<()> {
    let mut ends = Ends {
        out: io::writer(&rt),
        errors: rt.stderr(),
    };
    send::send_input(&mut rt.reader(), &mut ends)
}
