// A count of contracts never stands in for a count of underlying units: each is a type of its own
// whose field other crates cannot reach, and only multiplying by unit size leads from one to the other.
ghost use Rattle.std.specs.Prelude.{◌≡◌};
ghost use Rattle.records.specs.Legs.{contracts_from, units_of, plus_units, no_units, plus_contracts};

#[derive(Clone, Copy, PartialEq, Eq, Default)]
pub struct Contracts(pub(crate) u32);

#[derive(Clone, Copy, PartialEq, Eq)]
pub struct Units(u64);

impl Contracts {
    pub fn of(number: u32) -> Contracts
        ensures { result ≡ contracts_from number }
    {
        Contracts(number)
    }

    pub fn units(self, size: u16) -> Units
        ensures { result ≡ units_of self size }
    {
        let contracts = self.0 as u64;
        let each = size as u64;
        Units(contracts * each)
    }

    pub fn number(self) -> u32
        ensures { result ≡ self.0 }
    {
        self.0
    }

    // Two counts added; a sum past the type's end stays at the end.
    pub fn plus(self, more: Contracts) -> Contracts
        ensures { result ≡ plus_contracts self more }
    {
        Contracts(self.0.saturating_add(more.0))
    }
}

impl Units {
    pub fn none() -> Units
        ensures { result ≡ no_units }
    {
        Units(0)
    }

    // Two counts added; a sum past the type's end, which no table within its limits has, stays at
    // the end.
    pub fn plus(self, more: Units) -> Units
        ensures { result ≡ plus_units self more }
    {
        Units(self.0.saturating_add(more.0))
    }

    pub fn number(self) -> u64
        ensures { result ≡ self.0 }
    {
        self.0
    }
}
