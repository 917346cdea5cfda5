// Clauses and words as the examples are written: "p(f(a), X), -q(a)" is a clause of two literals, and "f(a, X)" a word. Capitals
// are variables; small letters and digits are predicates and symbols, numbered from a to z and then from 0 to 9. A minus is
// the negative sign.
ghost use Rattle.std.specs.Prelude.{◌<◌, IfOk};

use bounded::Bounded;
use class::Kind;
use place::PlaceWord;
use record::Record;
use std::process::Abort;
use std::test::Fail;

#[derive(Clone, Copy, PartialEq)]
enum Form {
    Clause,
    Word,
}

pub fn clause(text: &str) -> Result<Record, Fail> {
    let mut record = Record::new();
    record.read(pack(text, Form::Clause)?.as_slice())?;
    Ok(record)
}

pub fn word(text: &str) -> Result<PlaceWord, Fail> {
    let packed = pack(text, Form::Word)?;
    let mut word = PlaceWord::new();
    match packed.as_slice() {
        // the count, which is 1
        [_, rest @ ..] => word.read(rest)?,
        [] => {}
    }
    Ok(word)
}

// The packed form: the count of literals or words, and then these. Each node that begins adds 1 to the count that is open.
fn pack(text: &str, form: Form) -> Result<Bounded<u8, 160>, Fail> {
    let mut packed: Bounded<u8, 160> = Bounded::new(0);
    let mut variables: Bounded<u8, 26> = Bounded::new(0);
    // where the counts stand, the open one last
    let mut counts: Bounded<usize, 8> = Bounded::new(0);
    let mut negative = false;
    packed.push(0)?;
    counts.push(0)?;
    for letter in text.as_bytes() {
        match *letter {
            b'-' => negative = true,
            b'(' => counts.push(packed.len().saturating_sub(1))?,
            b')' => counts.truncate(counts.len().saturating_sub(1)),
            b'A'..=b'Z' => {
                count(&mut packed, &counts)?;
                packed.push(2 * variable(*letter, &mut variables)?)?;
            }
            b'a'..=b'z' | b'0'..=b'9' => {
                let predicate = form == Form::Clause && counts.len() == 1;
                count(&mut packed, &counts)?;
                let odd = if predicate && !negative { 0 } else { 1 };
                packed.push(2 * symbol(*letter) + odd)?;
                packed.push(0)?;
                negative = false;
            }
            b',' | b' ' => {}
            _ => return Err(Fail::new("a letter without a meaning")),
        }
    }
    Ok(packed)
}

// Adds 1 to the count that is open.
fn count(packed: &mut Bounded<u8, 160>, counts: &Bounded<usize, 8>) -> Result<(), Fail> {
    let at = counts
        .get(counts.len().saturating_sub(1))
        .ok_or("a place without a symbol")?;
    let so_far = packed.get(at).ok_or("a count without a place")?;
    packed.set(at, so_far.saturating_add(1));
    Ok(())
}

// The number of a variable by its first standing.
fn variable(letter: u8, variables: &mut Bounded<u8, 26>) -> Result<u8, Fail>
    ensures { IfOk result (λ n. n < 26) }
{
    for number in 0..26 {
        match variables.get(number as usize) {
            Some(known) => {
                if known == letter {
                    return Ok(number);
                }
            }
            None => {
                variables.push(letter)?;
                return Ok(number);
            }
        }
    }
    Err(Fail::new("more than 26 variables"))
}

// The number of a predicate or a symbol.
fn symbol(letter: u8) -> u8
    ensures { result < 36 }
{
    match letter {
        b'a'..=b'z' => letter - b'a',
        b'0'..=b'9' => 26 + (letter - b'0'),
        _ => 0,
    }
}

// Two records are the same, order and all; the names of the variables do not count, since each numbers them anew.
pub fn same(rt: &impl Abort, record: &Record, text: &str) -> Result<(), Fail> {
    let wanted = clause(text)?;
    assert_eq!(rt; record.nodes(), wanted.nodes(), "in place of {text}");
    Ok(())
}

// Two records have as many literals and cover each other, so that tidy ones differ in names and order alone.
pub fn alike(rt: &impl Abort, record: &Record, text: &str) -> Result<(), Fail> {
    let wanted = clause(text)?;
    assert_eq!(rt; record.starts().len(), wanted.starts().len(), "{text}");
    assert!(rt; record.covers(&wanted), "{text}");
    assert!(rt; wanted.covers(record), "{text}");
    Ok(())
}

// Of a rule and a mount, whether it is covered.
pub fn covered(rt: &impl Abort, cases: &[(&str, &str, bool)]) -> Result<(), Fail> {
    for (rule, mount, answer) in cases {
        assert_eq!(rt;
            clause(rule)?.covers(&clause(mount)?),
            *answer,
            "{rule} over {mount}"
        );
    }
    Ok(())
}

// Each covers the next, and none the one before.
pub fn narrows(rt: &impl Abort, chain: &[&str]) -> Result<(), Fail> {
    for pair in chain.windows(2) {
        if let [wide, narrow] = pair {
            covered(rt, &[(*wide, *narrow, true), (*narrow, *wide, false)])?;
        }
    }
    Ok(())
}

// Two records and their join.
pub fn joined(rt: &impl Abort, cases: &[(&str, &str, &str)]) -> Result<(), Fail> {
    for (first, second, join) in cases {
        let mut record = clause(first)?;
        record.join(&clause(second)?)?;
        same(rt, &record, join)?;
    }
    Ok(())
}

#[test]
fn what_is_written_is_packed(rt: HostRuntime) -> Result<(), Fail> {
    let record = pack("p(f(a, Y), X, Y), -b, q(X)", Form::Clause)?;
    assert_eq!(rt;
        record.as_slice(),
        [3, 30, 3, 11, 2, 1, 0, 0, 2, 0, 3, 0, 32, 1, 2].as_slice()
    );
    let place = pack("f(X, 1)", Form::Word)?;
    assert_eq!(rt; place.as_slice(), [1, 11, 2, 0, 55, 0].as_slice());
    Ok(())
}
