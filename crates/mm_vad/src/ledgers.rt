ghost use Rattle.std.specs.Prelude.{◌≡◌, ◌+◌, ◌-◌, ◌^◌, min};

/// Counts the nodes that a search in a tree visits.
pub trait Ledger {
    /// What one more step makes of the count.
    ghost stepped: { Self → Self };

    /// One more node is visited.
    fn step(&mut self)
        ensures { self.new ≡ stepped self.old };
}

/// Counts nothing and costs nothing: for ordinary searches.
#[derive(Clone, Copy)]
pub struct Uncounted;

impl Ledger for Uncounted {
    ghost stepped = { λ u. u };

    fn step(&mut self) {}
}

/// Counts in 64 bits, and stays at the greatest number once it is reached.
#[derive(Clone, Copy)]
pub struct Counter {
    /// The nodes visited so far.
    pub steps: u64,
}

impl Ledger for Counter {
    ghost stepped = { λ c. record { steps = min (c.steps + 1) (2 ^ 64 - 1) } };

    fn step(&mut self) {
        self.steps = self.steps.saturating_add(1);
    }
}

/// What a search is handed to count its steps by. A step is one node visited.
#[derive(Drop)]
pub struct Steps<L: Ledger> {
    ledger: L,
}

impl<L: Ledger> Steps<L> {
    /// Counts on from what `ledger` has counted.
    pub fn new(ledger: L) -> Steps<L>
        ensures { result.ledger ≡ ledger }
    {
        Steps { ledger }
    }

    /// The ledger with all that was counted.
    pub fn finish(self) -> L
        ensures { result ≡ self.ledger }
    {
        self.ledger
    }

    /// A node is about to be read.
    pub(crate) fn count(&mut self)
        ensures { self.new.ledger ≡ L.stepped self.old.ledger }
    {
        self.ledger.step();
    }
}
