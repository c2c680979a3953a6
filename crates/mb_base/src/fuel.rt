// The budget of a run.
ghost use Rattle.std.specs.Prelude.{◌≡◌, ◌+◌, ◌<◌, ◌↔◌, IsErr, OnOk, OnErr};

use std::marker::Model;

/// The refusal of a charge above what is left.
#[derive(Clone, Copy, Debug, PartialEq, Eq)]
pub struct Spent;

/// The units that a run may still spend.
#[derive(Debug, Drop)]
pub struct Fuel {
    units: u32,
}

impl Model for Fuel {
    ghost use Rattle.std.specs.Prelude.{ℕ};

    ghost Value = { ℕ };

    ghost view = { λ f. f.units };
}

impl Fuel {
    pub fn new(units: u32) -> Fuel
        ensures { result ≡ units }
    {
        Fuel { units }
    }

    /// The number of units left.
    pub fn left(&self) -> u32
        ensures { result ≡ self.now }
    {
        self.units
    }

    /// Takes `n` units. It is `Spent` where fewer are left, and then none is taken.
    pub fn charge(&mut self, n: u32) -> Result<(), Spent>
        ensures spent { IsErr result ↔ (self.old < n) }
        ensures paid { OnOk result (self.new + n ≡ self.old) }
        ensures kept { OnErr result (self.new ≡ self.old) }
    {
        if n <= self.units {
            self.units -= n;
            Ok(())
        } else {
            Err(Spent)
        }
    }
}

#[cfg(test)]
mod tests {
    use super::*;

    #[test]
    fn charges_to_the_last_unit(rt: HostRuntime) {
        let mut fuel = Fuel::new(3);
        assert_eq!(rt; fuel.charge(2), Ok(()));
        assert_eq!(rt; fuel.charge(2), Err(Spent));
        assert_eq!(rt; fuel.left(), 1);
        assert_eq!(rt; fuel.charge(1), Ok(()));
        assert_eq!(rt; fuel.charge(1), Err(Spent));
        assert_eq!(rt; fuel.charge(0), Ok(()));
        assert_eq!(rt; fuel.left(), 0);
    }
}
