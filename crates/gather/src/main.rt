// Reads place words from standard input, gathers them, and prints what happened and the rule.
#![tactic(auto)]

use anyhow::ensure;
use std::env;
use std::io::Read;

fn main(rt: HostRuntime) -> anyhow::Result<()> {
    ensure!(env::args(&rt)?.count() <= 1, "usage: gather < FILE");
    let mut input = Vec::new(rt.alloc());
    rt.stdin().read_to_end(&mut input)?;
    let text = gathering::gather(rt.alloc(), &input)?;
    rt.print(text.as_str())?;
    Ok(())
}
