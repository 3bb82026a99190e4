// Lists the tables of the sheet on standard input, and where the text of each cell stands. Each sheet has a program of one line, since a
// program has one input and one output.
#![tactic(auto)]

use std::io;

fn main(rt: HostRuntime) -> io::Result<()> {
    listing::run(&rt)
}
