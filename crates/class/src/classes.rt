// A class while it gathers, and once it is issued.
ghost use Rattle.std.specs.Prelude.{◌≡◌, Decides};
ghost use Rattle.class.specs.Kinds.{Covers};
ghost use Rattle.class.specs.Calls.{Begun, Admitted, Kept};
ghost use Rattle.class.specs.Runs.{Law};

use super::{Kind, Refusal};

// A class that gathers: the rule over the things taken so far, and how many they are.
#[derive(Drop)]
pub struct Class<K> {
    rule: K,
    count: u32,
}

// A class whose gathering has ended: the gathering one, moved here whole.
#[derive(Drop)]
pub struct Issued<K> {
    class: Class<K>,
}

impl<K: Kind> Class<K> {
    // Takes the first thing. Whatever calls follow, the law holds of them.
    pub fn begin(thing: K) -> Class<K>
        ensures begun { Begun K.kind thing result }
        ensures law { Law K.kind thing result }
    {
        let mut rule = thing;
        rule.tidy();
        Class { rule, count: 1 }
    }

    // Takes one thing more, or rejects it and stays as it was.
    pub fn admit(&mut self, thing: &K) -> Result<(), Refusal>
        ensures { Admitted K.kind self.old thing.now result self.new }
    {
        if !self.rule.covers(thing) {
            self.rule.join(thing)?;
        }
        self.count = self.count.saturating_add(1);
        Ok(())
    }

    // Whether the rule covers a mount.
    pub fn fits(&self, mount: &K) -> bool
        ensures { Decides result (Covers K.kind self.now.rule mount.now) }
    {
        self.rule.covers(mount)
    }

    // Ends the gathering.
    pub fn issue(self) -> Issued<K>
        ensures { Kept self result }
    {
        Issued { class: self }
    }
}

impl<K: Kind> Issued<K> {
    // Whether the rule covers a mount.
    pub fn fits(&self, mount: &K) -> bool
        ensures { Decides result (Covers K.kind self.now.class.rule mount.now) }
    {
        self.class.fits(mount)
    }

    pub fn rule(&self) -> &K
        ensures { result.now ≡ self.now.class.rule }
    {
        &self.class.rule
    }

    pub fn count(&self) -> u32
        ensures { result ≡ self.now.class.count }
    {
        self.class.count
    }

    // Hands out the rule and the count.
    pub fn into_parts(self) -> (K, u32)
        ensures { result ≡ (self.class.rule, self.class.count) }
    {
        let Class { rule, count } = self.class;
        (rule, count)
    }
}
