ghost use Rattle.std.specs.Prelude.{◌≡◌, ◌+◌, ◌-◌, ◌<◌, ◌≤◌, ◌^◌, OnOk, OnErr, IfErr, IsErr, ◌↔◌};
ghost use Rattle.mm_commit_charge.specs.Charge.{CommitOf};

use std::marker::Model;

/// A charge that would pass the commit limit (ERROR_COMMITMENT_LIMIT): the charge and the limit
/// that stand.
#[derive(Clone, Copy, PartialEq, Eq)]
pub struct OverLimit {
    /// Pages charged, as before the call.
    pub charge: u32,
    /// The commit limit in pages.
    pub limit: u32,
}

/// The commit charge of a machine, in pages, and its commit limit. The charge is never above the
/// limit.
#[derive(Drop)]
pub struct Commit {
    charge: u32,
    limit: u32,
}

impl Model for Commit {
    ghost Value = { CommitOf };

    ghost view = { λ c. record { charge = c.charge; limit = c.limit } };

    ghost invariant = { λ c. c.charge ≤ c.limit };

    ghost inverse = { λ d. record { charge = d.charge; limit = d.limit } };
}

impl Commit {
    /// Nothing is charged yet, of at most `limit` pages.
    pub fn new(limit: u32) -> Commit
        ensures { result ≡ record { charge = 0; limit = limit } }
    {
        Commit { charge: 0, limit }
    }

    /// Charges `n` pages. `OverLimit` comes exactly where the charge would pass the limit; then
    /// nothing is charged.
    pub fn charge(&mut self, n: u32) -> Result<(), OverLimit>
        ensures over { IsErr result ↔ (self.old.limit < self.old.charge + n) }
        ensures ok { OnOk result (self.new ≡ record self.old { charge = self.old.charge + n }) }
        ensures unchanged { OnErr result (self.new ≡ self.old) }
        ensures numbers { IfErr result (λ e. e ≡ record {
          charge = self.old.charge;
          limit = self.old.limit;
        }) }
        ensures bound { self.new.charge ≤ self.new.limit }
    {
        // Both numbers can be as great as a u32 holds, so their sum is compared in 64 bits.
        if u64::from(self.charge) + u64::from(n) > u64::from(self.limit) {
            return Err(OverLimit {
                charge: self.charge,
                limit: self.limit,
            });
        }
        self.charge += n;
        Ok(())
    }

    /// Gives back `n` pages of the charge.
    pub fn refund(&mut self, n: u32)
        requires { n ≤ self.old.charge }
        ensures { self.new ≡ record self.old { charge = self.old.charge - n } }
    {
        self.charge -= n;
    }

    /// The limit grows by `n` pages, as it does when the paging file grows.
    pub fn raise(&mut self, n: u32)
        requires { self.old.limit + n < 2 ^ 32 }
        ensures { self.new ≡ record self.old { limit = self.old.limit + n } }
    {
        self.limit += n;
    }

    /// The pages that are charged now.
    pub fn now(&self) -> u32
        ensures charge { result ≡ self.now.charge }
        ensures bound { result ≤ self.now.limit }
    {
        self.charge
    }

    /// The commit limit in pages.
    pub fn limit(&self) -> u32
        ensures limit { result ≡ self.now.limit }
        ensures bound { self.now.charge ≤ result }
    {
        self.limit
    }
}
