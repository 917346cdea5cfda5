// Clauses of one predicate of two places, which can be drawn: an arrow for each literal.
ghost use Rattle.std.specs.Prelude.{◌≤◌};

use bounded::Bounded;
use class::Kind;
use record::Record;
use std::process::Abort;
use std::test::Fail;

type Arrows = Bounded<(u8, u8), 16>;

// The clause of these arrows; its variables are numbered by their first standing.
fn drawn(arrows: &Arrows) -> Result<Record, Fail> {
    let mut packed: Bounded<u8, 65> = Bounded::new(0);
    packed.push(arrows.len() as u8)?;
    for (from, to) in arrows.as_slice() {
        for byte in [2, 2, from.saturating_mul(2), to.saturating_mul(2)] {
            packed.push(byte)?;
        }
    }
    let mut record = Record::new();
    record.read(packed.as_slice())?;
    Ok(record)
}

// So many arrows, one after the other.
fn path(count: u8) -> Result<Record, Fail>
    requires { count ≤ 16 }
{
    let mut arrows: Arrows = Bounded::new((0, 0));
    for k in 0..count {
        arrows.push((k, k + 1))?;
    }
    drawn(&arrows)
}

// Arrows in rounds of these lengths.
fn rounds(counts: &[u8]) -> Result<Record, Fail> {
    let mut arrows: Arrows = Bounded::new((0, 0));
    let mut first: u8 = 0;
    for count in counts {
        let end = first.saturating_add(*count);
        for k in first..end {
            arrows.push((k, if k + 1 == end { first } else { k + 1 }))?;
        }
        first = end;
    }
    drawn(&arrows)
}

// Arrows from each of so many variables to each other.
fn all_ways(count: u8) -> Result<Record, Fail> {
    let mut arrows: Arrows = Bounded::new((0, 0));
    for from in 0..count {
        for to in 0..count {
            if from != to {
                arrows.push((from, to))?;
            }
        }
    }
    drawn(&arrows)
}

// The first covers the second, and not the other way round.
fn wider(rt: &impl Abort, wide: &Record, narrow: &Record) -> Result<(), Fail> {
    assert!(rt;
        wide.covers(narrow),
        "{} arrows over {}",
        wide.starts().len(),
        narrow.starts().len()
    );
    assert!(rt;
        !narrow.covers(wide),
        "{} arrows over {}",
        narrow.starts().len(),
        wide.starts().len()
    );
    Ok(())
}

// Longer paths are narrower, and the round of one is narrower than all.
#[test]
fn paths(rt: HostRuntime) -> Result<(), Fail> {
    let round = rounds(&[1])?;
    for count in 1..16 {
        wider(&rt, &path(count)?, &path(count + 1)?)?;
        wider(&rt, &path(count)?, &round)?;
    }
    wider(&rt, &path(16)?, &round)
}

// Rounds of twice as many arrows are wider, and every path is wider than each of them.
#[test]
fn rounds_of_powers_of_two(rt: HostRuntime) -> Result<(), Fail> {
    for (long, short) in [(4, 2), (8, 4), (16, 8)] {
        wider(&rt, &rounds(&[long])?, &rounds(&[short])?)?;
    }
    for round in [2, 4, 8, 16] {
        for count in 1..17 {
            wider(&rt, &path(count)?, &rounds(&[round])?)?;
        }
    }
    Ok(())
}

// More variables, each joined to each other, are narrower; more than 4 have more than 16 arrows.
#[test]
fn all_ways_between_variables(rt: HostRuntime) -> Result<(), Fail> {
    wider(&rt, &all_ways(2)?, &all_ways(3)?)?;
    wider(&rt, &all_ways(3)?, &all_ways(4)?)?;
    wider(&rt, &all_ways(4)?, &rounds(&[1])?)?;
    // as printed, of two variables: the widest of them
    wider(&rt, &path(1)?, &all_ways(2)?)
}

// A round of two, and beside it one of 9 or of 3.
#[test]
fn two_rounds(rt: HostRuntime) -> Result<(), Fail> {
    let two = rounds(&[2])?;
    let nine = rounds(&[2, 9])?;
    let three = rounds(&[2, 3])?;
    wider(&rt, &two, &nine)?;
    wider(&rt, &two, &three)?;
    wider(&rt, &nine, &three)
}
