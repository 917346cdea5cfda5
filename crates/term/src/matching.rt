// Matches words: finds the substitution that turns one into another, place by place.
ghost use Rattle.std.specs.Prelude.{◌≡◌, ℕ, ◌<◌, length, MatchBool, ◌≢◌};
ghost use Rattle.term.specs.Words.{Word};
ghost use Rattle.term.specs.Coding.{word_at};
ghost use Rattle.term.specs.Matched.{Below, Placed, Agrees, Narrowed, Matched};

use super::join::fellows;
use super::{Node, WordAt, places};

// Lets the variable `x` stand for the target, unless it stands for another word already.
fn bind(target: WordAt<'_>, bound: &mut [Option<usize>], x: u16) -> bool
    requires placed { Placed target.nodes.now bound.old }
    requires known { x < length bound.old }
    ensures { MatchBool result (Narrowed target.entry.nodes.now bound.old bound.new (λ θ. θ x ≡ word_at target.entry.nodes.now target.entry.start)) ((θ : ℕ → Word) → Agrees target.entry.nodes.now bound.old θ → θ x ≢ word_at target.entry.nodes.now target.entry.start) }
{
    match bound[x as usize] {
        Some(start) => target.at(start).is_same(target),
        None => {
            bound[x as usize] = Some(target.start);
            true
        }
    }
}

// Matches the pattern with the target. Answers where the two words end, or none where no substitution that agrees with
// the bindings turns the one into the other.
pub fn match_word(
    pattern: WordAt<'_>,
    target: WordAt<'_>,
    bound: &mut [Option<usize>],
) -> Option<(usize, usize)>
    requires below { Below (length bound.old) pattern.nodes.now }
    requires placed { Placed target.nodes.now bound.old }
    ensures { Matched pattern.entry.nodes.now pattern.entry.start target.entry.nodes.now target.entry.start bound.old result bound.new }
{
    let node = pattern.nodes[pattern.start];
    if let Node::Variable(x) = node {
        if !bind(target, bound, x) {
            return None;
        }
        return Some((pattern.start + 1, target.end()));
    }
    if !fellows(node, target.nodes[target.start]) {
        return None;
    }
    let mut p = pattern.start + 1;
    let mut q = target.start + 1;
    for _ in 0..places(node) {
        (p, q) = match_word(pattern.at(p), target.at(q), bound)?;
    }
    Some((p, q))
}
