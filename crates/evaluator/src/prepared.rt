// What a walk needs, once the request is read and the place of a condition or a from-value is known: 21, 22 and 26, and the table of bindings.
ghost use Rattle.std.specs.Prelude.{◌≡◌, ◌*◌, ◌≤◌, length, replicate, take};
ghost use Rattle.wire.specs.Limits.{parameter_row_numbers};
ghost use Rattle.evaluator.specs.Slices.{slices, slices_in, binding_numbers};
ghost use Rattle.evaluator.specs.Bound.{bound, RowsLaid};
ghost use Rattle.evaluator.specs.Prepared.{given_in, Prepares};
ghost use Rattle.evaluator.specs.Outside.{PreparesIn};

use crate::tested::Slices;
use grammar::{Counts, Refusal};
use kinds::note::note_kinds;
use runs::check::check_runs;
use runs::scan::find_runs;
use surroundings::bindings::{BINDING_TABLE, lay_contexts};
use surroundings::images::image_bytes;
use surroundings::scope::in_scope;
use wire::limits::{MAX_CONTEXTS, PARAMETER_ROW};
use wire::refused::Refused;

// Kept, in all that follow: the table of bindings is lent, and its rows are numbers (surroundings, bindings.rt), since nothing allocates.

// What is there once a request is read: its dictionary, the tables of its parameters and of its contexts and how many rows they have, and the
// message images, the records and the runs.
#[derive(Clone, Copy)]
pub struct Given<'a> {
    pub request: &'a [u8],
    pub dictionary: &'a [u8],
    pub parameters: &'a [u32],
    pub contexts: &'a [u32],
    pub counts: Counts,
    pub images: &'a [u8],
    pub records: &'a [u8],
    pub runs: &'a [u8],
}

impl<'a> Given<'a> {
    // What a walk goes over with these rows of bindings.
    pub fn slices(self, bindings: &'a [u32]) -> Slices<'a>
        ensures { slices_in result ≡
            slices self.entry.request.now self.entry.dictionary.now bindings.now
            (take (self.entry.counts.parameters * parameter_row_numbers) self.entry.parameters.now)
            self.entry.images.now self.entry.records.now self.entry.runs.now }
    {
        let numbers = self.counts.parameters.saturating_mul(PARAMETER_ROW);
        Slices {
            request: self.request,
            dictionary: self.dictionary,
            bindings,
            parameters: &self.parameters[..numbers.min(self.parameters.len())],
            images: self.images,
            records: self.records,
            runs: self.runs,
        }
    }
}

// The rows of the contexts in scope at a place, whose numbers are these and the entries of whose relations stand there, and of the any, unique
// and statistic codes of what stands at the place, with their runs. How many rows that are, or the refusal of the runs.
fn lay_rows(
    x: Given,
    numbers: &[u32],
    relations: &[u32],
    at: usize,
    bindings: &mut [u32],
) -> Result<usize, Refused<Refusal>>
    requires { bindings.old ≡ replicate binding_numbers 0 }
    ensures { RowsLaid (bound x.entry.request.now x.entry.dictionary.now numbers.now relations.now
        x.entry.parameters.now x.entry.counts.parameters x.entry.records.now x.entry.runs.now at) bindings.new result }
{
    lay_contexts(numbers, relations, numbers.len(), x.records, bindings);
    let all = find_runs(x.request, x.dictionary, at, bindings, numbers.len());
    note_kinds(
        x.request,
        x.dictionary,
        x.parameters,
        x.counts.parameters,
        bindings,
    );
    match check_runs(x.dictionary, bindings, numbers.len(), all, x.runs) {
        Ok(()) => Ok(all),
        Err(p) => Err(Refused::new(Refusal::BadRuns, p)),
    }
}

// The table of bindings for what is asked for at a place: how many rows it has, where messages, records and runs are as due; or the refusal.
pub(crate) fn prepare(x: Given, at: usize, bindings: &mut [u32]) -> Result<usize, Refused<Refusal>>
    requires { bindings.old ≡ replicate binding_numbers 0 }
    ensures { Prepares (given_in x.entry at) bindings.new result }
{
    let total = image_bytes(x.parameters, x.counts.parameters);
    if x.images.len() != total {
        return Err(Refused::new(Refusal::BadMessageBytes, x.images.len()));
    }
    let mut numbers = [0u32; MAX_CONTEXTS];
    let mut relations = [0u32; MAX_CONTEXTS];
    let count = in_scope(
        x.dictionary,
        x.contexts,
        x.counts.contexts,
        at,
        &mut numbers,
        &mut relations,
    );
    match records::proper::records(x.dictionary, &relations[..count], x.records) {
        Ok(()) => lay_rows(x, &numbers[..count], &relations[..count], at, bindings),
        Err(p) => Err(Refused::new(Refusal::BadRecords, p)),
    }
}

// The same for another crate, over any table: it is cleared first; one of another length than BINDING_TABLE is refused by 1 at 0.
// Kept: the caller lends the table of bindings, as above.
pub fn prepare_in(x: Given, at: usize, bindings: &mut [u32]) -> Result<usize, Refused<Refusal>>
    ensures { PreparesIn (length bindings.old) (given_in x.entry at) bindings.new result }
{
    bindings.fill(0);
    if bindings.len() != BINDING_TABLE {
        return Err(Refused::new(Refusal::TablesTooShort, 0));
    }
    prepare(x, at, bindings)
}
