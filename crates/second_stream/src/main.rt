// Answers the requests of standard input. Three programs say just this, since each has one stored input.
#![tactic(auto)]

use std::io;

fn main(rt: HostRuntime) -> io::Result<()> {
    requests::serve(&rt)
}
