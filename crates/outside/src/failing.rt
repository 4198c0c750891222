//! A list of the calls that are to fail.

ghost use Rattle.std.specs.Prelude.{◌≡◌, ◌↔◌, IsTrue, Contains};
ghost use Rattle.outside.specs.Causes.{raised};

// The numbers of the calls that are to fail, in any order, and the number of the next call.
#[derive(Drop)]
pub struct FailList {
    listed: Vec<u64>,
    next: u64,
}

impl FailList {
    ghost use Rattle.outside.specs.Failing.{listed_in, next_in};

    pub fn new(listed: Vec<u64>) -> FailList
        ensures listed { listed_in result ≡ listed.items }
        ensures next { next_in result ≡ 0 }
    {
        FailList { listed, next: 0 }
    }

    // Counts a call, and says whether it is to fail.
    pub fn fails(&mut self) -> bool
        ensures answer { IsTrue result ↔ Contains (listed_in self.old) (next_in self.old) }
        ensures counted { next_in self.new ≡ raised (next_in self.old) }
        ensures kept { listed_in self.new ≡ listed_in self.old }
    {
        let number = self.next;
        self.next = number.saturating_add(1);
        self.listed.contains(&number)
    }
}
