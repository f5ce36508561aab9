//! What the records of a file are read into, one after another.

ghost use Rattle.std.specs.Prelude.{◌≡◌, ◌++◌, ◌∷◌, [], List, Result, Ok, Err, IfOk};
ghost use Rattle.std.specs.List.{All};
ghost use Rattle.csv.specs.Records.{fields_of};
ghost use Rattle.dsa_terms.specs.Buffers.{Buffer};
ghost use Rattle.dsa_model.specs.Fails.{UnlessNoMemory};
ghost use Rattle.csv_instance.specs.Gives.{GaveRecord, Gives};
ghost use Rattle.csv_instance.specs.Records.{HasShortFields, Record};
ghost use Rattle.csv_instance.specs.declared.fault.InstanceFault.{InstanceFault};

use crate::fault::InstanceFault;
use csv::{ByteRecord, ByteRecordsIntoIter};
use dsa_model::Fail;
use std::alloc::Global;

/// What takes the records of an instance file, until one has a fault.
pub(crate) trait Grows: Sized {
    /// The records that it has taken, the header first.
    ghost records: { Self → List Record };

    /// What records tell of, or what is wrong with them first.
    ghost parsed: { List Record → Result (List Buffer) InstanceFault };

    /// It with a record as one more row, or the row's fault, which is the file's whatever comes
    /// after, and want of memory where the record could not be read.
    fn with_next(
        self,
        alloc: Global,
        row: Result<ByteRecord, csv::Error>,
    ) -> Result<Self, Fail<InstanceFault>>
        requires { IfOk row (λ r. HasShortFields (fields_of r)) }
        ensures { UnlessNoMemory result
            (λ t. GaveRecord row (λ fields. records t ≡ records self ++ fields ∷ []))
            (λ f. GaveRecord row
            (λ fields. (rest : List Record) → parsed (records self ++ fields ∷ rest) ≡ Err f)) };
}

/// What is begun with the records that are left as further rows, or the first fault of them.
pub(crate) fn fill<G: Grows>(
    alloc: Global,
    start: G,
    records: ByteRecordsIntoIter<&[u8]>,
) -> Result<G, Fail<InstanceFault>>
    requires { (left : List Record) × Gives records left × All HasShortFields left }
    ensures { (left : List Record) → Gives records.entry left → UnlessNoMemory result
        (λ grown. G.records grown ≡ G.records start ++ left)
        (λ fault. G.parsed (G.records start ++ left) ≡ Err fault) }
{
    let mut grown = start;
    for row in records {
        grown = grown.with_next(alloc, row)?;
    }
    Ok(grown)
}
