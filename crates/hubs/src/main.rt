// Three stories of hubs that hear each other: two hubs over two days; a delta that comes late, to a plain follower and to a fenced one; three hubs in each of
// the three modes.
#![tactic(auto)]

mod held_back;
mod meeting;
mod say;
mod triangle;
mod two_days;

use std::io;

fn main(rt: HostRuntime) -> io::Result<()> {
    two_days::tell(&rt)?;
    held_back::tell(&rt)?;
    triangle::tell(&rt)
}
