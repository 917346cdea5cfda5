// The packed form of place words.
ghost use Rattle.std.specs.Prelude.{◌≡◌, Ok};
ghost use Rattle.number.specs.Writes.{Wrote};
ghost use Rattle.term.specs.Coding.{code};
ghost use Rattle.place.specs.Places.{meaning};
ghost use Rattle.place.specs.Packing.{place_form, read_place, Reads, Exactly};

use super::super::fault::PlaceFault;
use super::PlaceWord;
use bounded::Bounded;
use number::NoRoom;
use term::Node;

impl PlaceWord {
    // Becomes the place word whose packed form the input is. After a fault it stays as it was.
    pub fn read(&mut self, input: &[u8]) -> Result<(), PlaceFault>
        ensures value { Reads (read_place input.now) self.old result self.new }
        ensures exact { Exactly input.now result self.new }
    {
        let mut nodes: Bounded<Node, 64> = Bounded::new(Node::Variable(0));
        let (end, _) = word::read_words(input, 0, 1, &mut nodes, 0)?;
        if end < input.len() {
            return Err(PlaceFault::Left { first: end });
        }
        self.nodes = nodes;
        Ok(())
    }

    // Writes its packed form at the start of `out`, and answers the form's length.
    pub fn write(&self, out: &mut [u8]) -> Result<usize, NoRoom>
        ensures wrote { Wrote (place_form self.now) 0 out.old result out.new }
        ensures back { read_place (place_form self.now) ≡ Ok (code (meaning self.now)) }
    {
        word::write_nodes(out, 0, self.nodes.as_slice())
    }
}
