// The program: answers standard input by the rule in the file rules.pages of the current folder.
#![tactic(auto)]

use std::io;
use std::io::Input;

fn main(rt: HostRuntime) -> io::Result<()> {
    answers::print(&rt, "rules.pages", &mut rt.reader())
}
