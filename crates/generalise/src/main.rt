// Reads records from standard input, takes them into a class, and prints what happened and the rule.
#![tactic(auto)]

use anyhow::ensure;
use std::env;
use std::io::{Read, Write};

// How many bytes the session asks for, and one more byte than its input may have: with that many it sees that the input is
// too long.
const BUFFER: usize = 61_440;

const INPUT: u64 = 4_097;

fn main(rt: HostRuntime) -> anyhow::Result<()> {
    ensure!(env::args(&rt)?.count() <= 1, "usage: generalise < FILE");
    let mut input = Vec::new(rt.alloc());
    rt.stdin().take(INPUT).read_to_end(&mut input)?;
    let mut text = vec![in rt.alloc(); 0; BUFFER]?;
    let length = session::session(&input, &mut text)?;
    rt.stdout().write_all(&text[..length])?;
    Ok(())
}
