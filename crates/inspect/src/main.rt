// Lists what packed bytes hold: numbers, one place word or one record, also tidied; says why a rule covers a mount; and
// joins two records.
#![tactic(auto)]

use anyhow::{Context, bail};
use listing::Listing;
use std::io::Read;
use std::{env, fs};

const USAGE: &str =
    "usage: inspect [numbers | place | record | tidy] < FILE, or inspect covers RULE MOUNT, or inspect join FIRST SECOND";

// What is to be done with the bytes of standard input.
#[derive(Clone, Copy)]
enum Task {
    Numbers,
    Place,
    Record,
    Tidy,
}

fn main(rt: HostRuntime) -> anyhow::Result<()> {
    let mut args = Vec::new(rt.alloc());
    for arg in env::args(&rt)?.skip(1) {
        args.push(arg)?;
    }
    match args.len() {
        0 => list(&rt, Task::Numbers),
        1 => match args[0].as_str() {
            "numbers" => list(&rt, Task::Numbers),
            "place" => list(&rt, Task::Place),
            "record" => list(&rt, Task::Record),
            "tidy" => list(&rt, Task::Tidy),
            "--help" => {
                rt.print(USAGE)?;
                rt.print("\n")?;
                Ok(())
            }
            _ => bail!("{USAGE}"),
        },
        3 => match args[0].as_str() {
            "covers" => covers(&rt, args[1].as_str(), args[2].as_str()),
            "join" => join(&rt, args[1].as_str(), args[2].as_str()),
            _ => bail!("{USAGE}"),
        },
        _ => bail!("{USAGE}"),
    }
}

// Lists what standard input is the packed form of, tidied where that is asked.
fn list(rt: &HostRuntime, task: Task) -> anyhow::Result<()> {
    let mut input = Vec::new(rt.alloc());
    rt.stdin().read_to_end(&mut input)?;
    match task {
        Task::Numbers => print(rt, listing::list_numbers(rt.alloc(), &input)?),
        Task::Place => print(rt, listing::list_place(rt.alloc(), &input)?),
        Task::Record => print(rt, listing::list_record(rt.alloc(), &input)?),
        Task::Tidy => print(rt, listing::list_tidied(rt.alloc(), &input)?),
    }
}

// Says why the rule of one file covers the mount of another.
fn covers(rt: &HostRuntime, rule: &str, mount: &str) -> anyhow::Result<()> {
    let rule = fs::read(rt, rule).context(rule)?;
    let mount = fs::read(rt, mount).context(mount)?;
    print(rt, listing::list_covering(rt.alloc(), &rule, &mount)?)
}

// Joins the records of two files.
fn join(rt: &HostRuntime, first: &str, second: &str) -> anyhow::Result<()> {
    let first = fs::read(rt, first).context(first)?;
    let second = fs::read(rt, second).context(second)?;
    print(rt, listing::list_joined(rt.alloc(), &first, &second)?)
}

// Prints a listing; a fault that ended it is an error.
fn print<F: Drop>(rt: &HostRuntime, listing: Listing<F>) -> anyhow::Result<()> {
    rt.print(listing.text.as_str())?;
    match listing.fault {
        None => Ok(()),
        Some(_) => bail!("the input has a fault"),
    }
}
