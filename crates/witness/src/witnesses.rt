// A witness of covering: for each variable of a rule, the place in a record where it is met.
ghost use Rattle.std.specs.Prelude.{◌≡◌, ℕ, ◌<◌, ◌≤◌, [], ◌∷◌, length, take, Some, All, IfOk, IfSome, codes};
ghost use Rattle.record.specs.Clauses.{variables};
ghost use Rattle.record.specs.Records.{literals, clause};
ghost use Rattle.subsume.specs.FirstChoices.{Chooses};
ghost use Rattle.term.specs.Coding.{word_at};
ghost use Rattle.term.specs.Matched.{Below, Turns};
ghost use Rattle.term.specs.Words.{Word, sizes};
ghost use Rattle.witness.specs.Steps.{noted};
ghost use Rattle.witness.specs.Witness.{met, meetings, Witnessed, too_few_entries};

use super::choices::first_choice;
use record::Record;
use std::error::Error;
use std::fmt;
use term::{Node, WordAt};

// The list has not an entry for each variable of the rule.
#[derive(Clone, Copy, PartialEq, Debug)]
pub struct TooFewEntries;

impl TooFewEntries {
    // The number of the refusal.
    pub fn question(&self) -> u8
        ensures { result ≡ too_few_entries }
    {
        12
    }
}

// What is wrong, in words.
impl fmt::Display for TooFewEntries {
    ghost output = { λ _. Some (codes "the list has not an entry for each variable of the rule") };

    fn fmt<W: fmt::Write>(&self, f: &mut fmt::Formatter<W>) -> fmt::Result {
        f.write_str("the list has not an entry for each variable of the rule")
    }
}

impl Error for TooFewEntries {}

// How many variables a record has: they are numbered from 0.
fn count_variables(rule: &Record) -> usize
    ensures { result ≡ variables (literals rule.now) }
{
    let mut count = 0;
    for node in rule.nodes() {
        if let Node::Variable(x) = *node {
            count = count.max(x as usize + 1);
        }
    }
    count
}

// Notes that the variable `x` is met at `q`, if it is the next one; answers how many variables have been noted.
fn note(x: u16, q: usize, seen: usize, list: &mut [u16]) -> usize
    requires { (x < length list.old) × (q < 65536) }
    ensures { noted ((x, q) ∷ []) seen list.old ≡ (result, list.new) }
{
    if x as usize != seen {
        return seen;
    }
    list[seen] = q as u16;
    seen + 1
}

// Notes where the variables of the word `a` are met in the word `b`, which a substitution makes of it.
fn note_word(a: WordAt<'_>, b: WordAt<'_>, mut seen: usize, list: &mut [u16]) -> usize
    requires turned { (θ : ℕ → Word) × Turns a.nodes.now a.start b.nodes.now b.start θ }
    requires room { Below (length list.old) a.nodes.now }
    requires small { length b.nodes.now ≤ 65536 }
    ensures { noted (met (word_at a.entry.nodes.now a.entry.start) (word_at b.entry.nodes.now b.entry.start) b.entry.start) seen list.old ≡ (result, list.new) }
{
    let mut q = b.start;
    for node in &a.nodes[a.start..a.end()] {
        match *node {
            Node::Variable(x) => {
                seen = note(x, q, seen, list);
                q = b.at(q).end();
            }
            Node::Applied(_, _) => q += 1,
        }
    }
    seen
}

// Notes where the variables of the rule are met, by the literals of the mount that are chosen for its literals.
fn note_all(rule: &Record, mount: &Record, choice: &[u16], list: &mut [u16])
    requires chosen { Chooses (clause rule.now) (clause mount.now) choice.now }
    requires room { variables (literals rule.now) ≤ length list.old }
    ensures { (noted (meetings (clause rule.now) (literals mount.now) choice.now) 0 list.old).1 ≡ list.new }
{
    let a = rule.view();
    let b = mount.view();
    let mut seen = 0;
    for (i, j) in choice.iter().enumerate() {
        seen = note_word(a.literal(i), b.literal(*j as usize), seen, list);
    }
}

// Writes for each variable of the rule the place, among the nodes of the mount in written order, of the word that meets the
// variable where it first stands, under the first choice of literals that works; answers how many variables there are, or
// none where the rule does not cover the mount. A list without an entry for each variable is refused before the search.
pub fn witness(
    rule: &Record,
    mount: &Record,
    list: &mut [u16],
) -> Result<Option<usize>, TooFewEntries>
    ensures witnessed { Witnessed (literals rule.now) (literals mount.now) list.old result list.new }
    ensures inside { IfOk result (λ answer. IfSome answer (λ n. All (λ q. q < sizes (literals mount.now)) (take n list.new))) }
{
    let count = count_variables(rule);
    if list.len() < count {
        return Err(TooFewEntries);
    }
    let Some(choice) = first_choice(rule, mount) else {
        return Ok(None);
    };
    note_all(rule, mount, choice.as_slice(), list);
    Ok(Some(count))
}
