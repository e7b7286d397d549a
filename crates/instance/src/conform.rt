// Whether an instance conforms to a table: numbers 30 and 31, with their places.
ghost use Rattle.std.specs.Prelude.{◌≡◌, length};
ghost use Rattle.record.specs.Record.{records};
ghost use Rattle.table.specs.Properties.{kinds_in};
ghost use Rattle.instance.specs.Fault.{number_of, nonconforming, step_at, further_fault, fault_in, conformity};
ghost use Rattle.instance.specs.Noted.{noted, fitting, notes_after};

use crate::array::record_fits;
use crate::notes::note;
use base::bytes::piece;
use record::read::{RecordAt, record_at};
use record::walk::records_from;

#[derive(Clone, Copy, PartialEq, Eq)]
pub enum InstanceFault {
    TooLong,
    Nonconforming,
}

// A fault and its place.
#[derive(Clone, Copy, PartialEq, Eq)]
pub struct InstanceRefusal {
    pub cause: InstanceFault,
    pub place: usize,
}

// The refusal number of a fault.
pub fn number_of(cause: InstanceFault) -> usize
    ensures { result ≡ number_of cause }
{
    match cause {
        InstanceFault::TooLong => 30,
        InstanceFault::Nonconforming => 31,
    }
}

fn nonconforming(place: usize) -> InstanceRefusal
    ensures { result ≡ nonconforming place }
{
    InstanceRefusal {
        cause: InstanceFault::Nonconforming,
        place,
    }
}

// The record of a property of kind `property` that should start at `at`: where the next one starts, or the fault.
#[tactic(auto, using(crate::proofs::Laws::step_next, crate::proofs::Laws::step_wrong, crate::proofs::Laws::step_broken, crate::proofs::Laws::step_end))]
fn step_at(i: &[u8], at: usize, property: usize) -> Result<usize, InstanceRefusal>
    ensures { result ≡ step_at i.now at property }
{
    match record_at(i, at) {
        RecordAt::Whole {
            kind,
            start,
            length,
            next,
        } => {
            if record_fits(piece(i, start, length), property, kind) {
                return Ok(next);
            }
            Err(nonconforming(at))
        }
        RecordAt::Broken => Err(nonconforming(at)),
        RecordAt::End => Err(nonconforming(i.len())),
    }
}

// The records from `first` on, of which only the lengths must fit.
#[tactic(auto, using(crate::proofs::Laws::further_broken, crate::proofs::Laws::further_end, crate::proofs::Laws::further_next))]
fn further(i: &[u8], first: usize) -> Result<(), InstanceRefusal>
    ensures { result ≡ further_fault (records i.now first) }
{
    for record in records_from(i, first) {
        record.map_err(nonconforming)?;
    }
    Ok(())
}

// The table's properties from `first` on, beside the instance's records; the places of those that fit are noted.
fn walk_beside<'a>(
    t: &'a [u8],
    first: usize,
    i: &'a [u8],
    notes: &mut [usize],
) -> Result<(), InstanceRefusal>
    ensures { (result ≡ fault_in i.now (kinds_in (records t.now first)) (records i.now 0)) × (notes.new ≡ noted i.now (fitting i.now (kinds_in (records t.now first)) (records i.now 0)) notes.old) × (length notes.new ≡ length notes.old) }
{
    let mut at: usize = 0;
    for (number, property) in records_from(t, first).enumerate() {
        let Ok(property) = property else {
            return further(i, at);
        };
        let next = step_at(i, at, property.kind)?;
        note(notes, number, at);
        at = next;
    }
    further(i, at)
}

// Whether an instance conforms to a table that is free of 2 and 3, or its fault. The notes then hold where each property's record starts, as far as the walk went.
pub fn check_instance<'a>(
    t: &'a [u8],
    i: &'a [u8],
    notes: &mut [usize],
) -> Result<(), InstanceRefusal>
    ensures { (result ≡ conformity t.now i.now) × (notes.new ≡ notes_after t.now i.now notes.old) × (length notes.new ≡ length notes.old) }
{
    if 65535 < i.len() {
        return Err(InstanceRefusal {
            cause: InstanceFault::TooLong,
            place: 0,
        });
    }
    walk_beside(t, table::lookup::first_property(t), i, notes)
}
