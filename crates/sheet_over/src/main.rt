#![tactic(auto)]
// `sheet`, on 1,001 bytes. A program has one stored run, and so each run its program.
use std::io;

fn main(rt: HostRuntime) -> io::Result<()> {
    show::show_input(&mut rt.reader(), &mut io::writer(&rt))
}
