#![tactic(auto)]
// `sheet`, on no input. A program has one stored run, and so each run its program.
use std::io;

fn main(rt: HostRuntime) -> io::Result<()> {
    show::show_input(&mut rt.reader(), &mut io::writer(&rt))
}
