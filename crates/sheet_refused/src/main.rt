#![tactic(auto)]
// `sheet`, on a sheet with an attribute block over two lines, behind lone braces and one in
// verbatim. A program has one stored run, and so each run its program.
use std::io;

fn main(rt: HostRuntime) -> io::Result<()> {
    show::show_input(&mut rt.reader(), &mut io::writer(&rt))
}
