//! How many messages may wait to be acknowledged.
ghost use Rattle.std.specs.Prelude.{◌≡◌, ◌↔◌, IsTrue};
ghost use Rattle.example_store.specs.Credits.{HasRoom, IsWithin};

/// A limit on the messages that wait to be acknowledged, and how many do. The limit 0 is none.
#[derive(Clone, Copy)]
pub struct Credit {
    pub limit: u16,
    used: u64,
}

impl Credit {
    pub fn new(limit: u16) -> Credit
        ensures { IsWithin result }
    {
        Credit { limit, used: 0 }
    }

    pub fn has_room(&self) -> bool
        ensures { IsTrue result ↔ HasRoom self.now }
    {
        self.limit == 0 || self.used < u64::from(self.limit)
    }

    /// One more was sent.
    pub fn spend(&mut self)
        ensures within { HasRoom self.old → IsWithin self.new }
        ensures limit { self.new.limit ≡ self.old.limit }
    {
        self.used = self.used.saturating_add(1);
    }

    /// One was acknowledged.
    pub fn give_back(&mut self)
        ensures within { IsWithin self.old → IsWithin self.new }
        ensures limit { self.new.limit ≡ self.old.limit }
    {
        self.used = self.used.saturating_sub(1);
    }
}
