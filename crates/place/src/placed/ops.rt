// What can be done with place words.
ghost use Rattle.std.specs.Prelude.{◌≡◌, [], Ok};
ghost use Rattle.bounded.specs.Elems.{elems};
ghost use Rattle.class.specs.Kinds.{Joined};
ghost use Rattle.term.specs.Coding.{code};
ghost use Rattle.term.specs.Joins.{join};
ghost use Rattle.term.specs.Words.{var};
ghost use Rattle.place.specs.Places.{meaning, places};
ghost use Rattle.term.proofs.Substitutions.{covers-itself, covers-through};
ghost use Rattle.place.specs.Held.{within};

use super::PlaceWord;
use bounded::Bounded;
use class::{Kind, Refusal};
use term::{Node, Pair, WordAt, join_word, match_word};

impl PlaceWord {
    // The word that is one variable.
    pub fn new() -> PlaceWord
        ensures { meaning result ≡ var 0 }
    {
        let mut nodes: Bounded<Node, 64> = Bounded::new(Node::Variable(0));
        let _ = nodes.push(Node::Variable(0));
        PlaceWord { nodes }
    }

    // Its nodes in written order.
    pub fn nodes(&self) -> &[Node]
        ensures { result.now ≡ code (meaning self.now) }
    {
        self.nodes.as_slice()
    }

    // The word, as it stands among them.
    fn word(&self) -> WordAt<'_>
        ensures nodes { result.nodes.now ≡ elems self.now.nodes }
        ensures start { result.start ≡ 0 }
    {
        WordAt {
            nodes: self.nodes.as_slice(),
            start: 0,
        }
    }
}

impl Kind for PlaceWord {
    ghost kind = { places };

    ghost lawful = { record { itself = covers-itself; through = covers-through; inside = within } };

    fn covers(&self, other: &PlaceWord) -> bool {
        let mut bound: [Option<usize>; 64] = [None; 64];
        match_word(self.word(), other.word(), &mut bound).is_some()
    }

    // Every place word is tidy.
    fn tidy(&mut self) {}

    fn join(&mut self, other: &PlaceWord) -> Result<(), Refusal>
        ensures joined { Joined places self.old other.now result self.new }
        ensures passes { result ≡ Ok tt }
        ensures value { meaning self.new ≡ (join (meaning self.old) (meaning other.now) []).0 }
    {
        let mut nodes: Bounded<Node, 64> = Bounded::new(Node::Variable(0));
        let mut pairs: Bounded<Pair, 64> = Bounded::new(Pair { left: 0, right: 0 });
        let _ = join_word(self.word(), other.word(), &mut nodes, &mut pairs);
        self.nodes = nodes;
        Ok(())
    }
}
