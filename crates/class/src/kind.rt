// What every kind of thing has in common.
ghost use Rattle.std.specs.Prelude.{Decides};
ghost use Rattle.class.specs.Kinds.{Subject, Laws, Covers, Tidied, Joined};

// Why two things have no join within the limit. A number and no enum: every kind states its own, those to come too. And no
// error type of each kind's own: then the class could make no refusal, and the must-fail edits that reject without joining,
// which show that its contract forbids that, could not be written.
#[derive(Clone, Copy, PartialEq, Debug)]
pub struct Refusal {
    pub number: u8,
}

pub trait Kind: Sized {
    // The members, which covers which, the limit, what each thing means, which things are tidy, the number of a refused join, and
    // what exactly tidying and joining leave.
    ghost kind: { Subject Self };

    // Whether this thing covers the other: subsumption.
    fn covers(&self, other: &Self) -> bool
        ensures { Decides result (Covers kind self.now other.now) };

    // Drops what is idle: reduction.
    fn tidy(&mut self)
        ensures { Tidied kind self.old self.new };

    // Becomes the least thing over both, or refuses and stays: least general generalisation.
    fn join(&mut self, other: &Self) -> Result<(), Refusal>
        ensures { Joined kind self.old other.now result self.new };

    ghost lawful: { Laws kind };
}
