// Rows in slots and in batches: crate row.
ghost use Rattle.std.specs.Prelude.{◌≡◌, List, ℕ};
ghost use Rattle.row.specs.Wire.{unsigned_bytes, signed_bytes};
ghost use Rattle.row.specs.Values.{row_read_of};
ghost use Rattle.cuwelfra.specs.Bytes.{written_told};
ghost use Rattle.cuwelfra.specs.Stores.{op_told, row_out, row_into};
ghost use Rattle.cuwelfra.specs.Exports.{exported};

use crate::bytes::WrittenTold;
use codec::Read;
use error::Told;
use row::RowRead;

#[repr(C)]
#[derive(Clone, Copy)]
pub struct OpTold {
    pub told: Told,
    pub next: u64,
    pub verdict: u64,
}

// The row of a slot as Writer::unsigned_op writes it.
#[unsafe(no_mangle)]
pub extern "C" fn cuwelfra_unsigned_op(slot: &[u8], out: &mut [u8]) -> WrittenTold
    ensures { (result, out.new) ≡ exported written_told (row_out unsigned_bytes slot.now out.old) }
{
    crate::bytes::written(row::wire::unsigned_op(slot, out))
}

// The row of a slot as Writer::signed_op writes it.
#[unsafe(no_mangle)]
pub extern "C" fn cuwelfra_signed_op(slot: &[u8], out: &mut [u8]) -> WrittenTold
    ensures { (result, out.new) ≡ exported written_told (row_out signed_bytes slot.now out.old) }
{
    crate::bytes::written(row::wire::signed_op(slot, out))
}

fn op_told(r: Read<RowRead>) -> OpTold
    ensures { (src : List ℕ) → result ≡ op_told (row_read_of src r) }
{
    match r {
        Ok((row, next)) => OpTold {
            told: crate::bytes::accept(),
            next: next as u64,
            verdict: u64::from(row.verdict),
        },
        Err(refusal) => OpTold {
            told: error::tell(refusal),
            next: 0,
            verdict: 0,
        },
    }
}

// The batch row at `at`, into a slot.
#[unsafe(no_mangle)]
pub extern "C" fn cuwelfra_read_op(batch: &[u8], at: usize, slot: &mut [u8]) -> OpTold
    ensures { (result, slot.new) ≡ row_into batch.now at slot.old }
{
    op_told(row::wire::read_op(batch, at, slot))
}
