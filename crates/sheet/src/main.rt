#![tactic(auto)]
// `./sheet`: the events of a sheet of standard input, a line each, and the answer. A sheet has at
// most 1,000 bytes. A program has one stored run: this one is of document 01's example.
use std::io;

fn main(rt: HostRuntime) -> io::Result<()> {
    show::show_input(&mut rt.reader(), &mut io::writer(&rt))
}
