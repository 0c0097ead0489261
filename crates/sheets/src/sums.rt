// A sum of contracts over a table is a type of its own, as units are: only contracts are added to it,
// and only another sum is held against it.
ghost use Rattle.std.specs.Prelude.{◌≡◌, ◌+◌, ◌≤◌, eqb};

use records::Contracts;

#[derive(Clone, Copy)]
pub(crate) struct ContractSum(u64);

impl ContractSum {
    pub(crate) const ZERO: ContractSum = ContractSum(0);

    pub(crate) fn plus(self, more: Contracts) -> ContractSum
        requires { self.0 + 4294967295 ≤ 18446744073709551615 }
        ensures { (result.0 ≡ self.0 + more.0) × (more.0 ≤ 4294967295) }
    {
        ContractSum(self.0 + more.number() as u64)
    }

    pub(crate) fn same(self, other: ContractSum) -> bool
        ensures { result ≡ eqb self.0 other.0 }
    {
        self.0 == other.0
    }
}
