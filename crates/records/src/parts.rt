// A lent table as the records that it consists of, each where it stands.
ghost use Rattle.std.specs.Prelude.{◌≡◌};
ghost use Rattle.records.specs.Chunks.{records_of};

use crate::limits::RECORD_BYTES;

// What is left past the last whole record belongs to none.
pub(crate) fn records_in(table: &[u8]) -> &[[u8; RECORD_BYTES]]
    ensures { result.now ≡ records_of table.now }
{
    table.as_chunks().0
}
