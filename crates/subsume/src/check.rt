// Whether one substitution turns each literal into the target that is chosen for it.
ghost use Rattle.std.specs.Prelude.{◌≡◌, ◌≤◌, length, replicate, None, Decides};
ghost use Rattle.term.specs.Matched.{Below};
ghost use Rattle.subsume.specs.Choices.{Made, picked};
ghost use Rattle.subsume.specs.Solving.{Works};

use super::view::View;
use term::match_word;

// Matches the literals of `a` with their targets; V is more than the number of any variable.
pub fn check<const V: usize>(a: View<'_>, b: View<'_>, picks: &[Option<u16>]) -> bool
    requires variables { Below V a.nodes.now × (V ≤ 65536) }
    requires chosen { Made picks.now (length a.starts.now) (length b.starts.now) }
    ensures { Decides result (Works a.entry.nodes.now a.entry.starts.now b.entry.nodes.now b.entry.starts.now (picked picks.now)) }
{
    let mut bound: [Option<usize>; V] = [None; V];
    check_each(a, b, picks, &mut bound)
}

// The same, where nothing is bound yet.
fn check_each(a: View<'_>, b: View<'_>, picks: &[Option<u16>], bound: &mut [Option<usize>]) -> bool
    requires variables { Below (length bound.old) a.nodes.now }
    requires none { bound.old ≡ replicate (length bound.old) None }
    requires chosen { Made picks.now (length a.starts.now) (length b.starts.now) }
    ensures { Decides result (Works a.entry.nodes.now a.entry.starts.now b.entry.nodes.now b.entry.starts.now (picked picks.now)) }
{
    // A loop and no `all`, since each turn relies on an invariant: what the bindings say of the literals so far.
    for (i, pick) in picks[..a.len()].iter().enumerate() {
        let Some(j) = *pick else {
            return false;
        };
        if match_word(a.literal(i), b.literal(j as usize), bound).is_none() {
            return false;
        }
    }
    true
}
