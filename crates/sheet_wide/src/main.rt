#![tactic(auto)]
// `sheet`, on a wide sheet of 1,000 bytes: every kind of event, labels in the text and in the label
// room, links that are dropped. A program has one stored run, and so each run its program.
use std::io;

fn main(rt: HostRuntime) -> io::Result<()> {
    show::show_input(&mut rt.reader(), &mut io::writer(&rt))
}
