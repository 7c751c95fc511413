// A scan over the bytes of a condition or a from-value that writes a row for each any, unique and statistic, in the order of their places.
ghost use Rattle.std.specs.Prelude.{◌≡◌, ◌+◌, ◌*◌, ◌≤◌, ◌<◌, length};
ghost use Rattle.std.proofs.lemmas.List.Edits.{sets};
ghost use Rattle.wire.specs.Limits.{max_contexts, max_request_bytes};
ghost use Rattle.surroundings.specs.Bindings.{binding_row_numbers};
ghost use Rattle.runs.specs.Steps.{state_of, open_row, opened_here, such_noted, closed, stepped, found};

use crate::forms::{Form, form_of};
use crate::pass::{Pass, pass_over};
use crate::stream::{Opened, opened_at};
use surroundings::bindings::{BINDING_AFTER, BINDING_END, BINDING_ROW, BINDING_SUCH, put_numbers};
use wire::bytes::byte_on;
use wire::limits::{MAX_CONTEXTS, MAX_REQUEST_BYTES};
use wire::table::{number_at, put};

// Where a scan is: its place and what is due there; how many rows there are; and the row whose rse the place is in, the most that there can
// be where it is in none.
#[derive(Clone, Copy)]
pub(crate) struct Scan {
    pub(crate) pass: Pass,
    pub(crate) rows: usize,
    pub(crate) within: u32,
}

// No row: a place that is in no rse.
const NO_ROW: u32 = 32;

// Kept: the rows of bindings are numbers of a lent table (surroundings, bindings.rt), here and below.
// A row as it is opened.
fn put_row(bindings: &mut [u32], row: usize, place: u32, opened: Opened, within: u32, more: u8)
    requires { row < max_contexts }
    ensures { bindings.new ≡ sets bindings.old (row * binding_row_numbers) (open_row place opened within more) }
{
    let at = (row * BINDING_ROW) as u32;
    let number = u32::from(opened.number);
    let numbers = [
        place,
        number,
        opened.relation,
        0,
        0,
        within,
        0,
        0,
        u32::from(more),
        0,
    ];
    put_numbers(bindings, at, &numbers);
}

// Kept: as above.
// An any, a unique or a statistic, with so many numbers due after its rse.
#[tactic(auto, unfolding(crate::specs::Steps::opened_here))]
fn open_row(request: &[u8], dictionary: &[u8], bindings: &mut [u32], scan: Scan, more: u8) -> Scan
    requires { (scan.pass.place ≤ max_request_bytes) × (scan.pass.due ≤ 4294967296) }
    ensures { (result ≡ (opened_here dictionary.now request.now (state_of scan bindings.old) more).scan) ×
        (bindings.new ≡
        (opened_here dictionary.now request.now (state_of scan bindings.old) more).table) ×
        (result.pass.due ≤ scan.pass.due + 256) }
{
    if MAX_CONTEXTS <= scan.rows {
        return Scan {
            pass: scan.pass.halt(),
            ..scan
        };
    }
    let opened = opened_at(request, dictionary, scan.pass.place + 3);
    put_row(
        bindings,
        scan.rows,
        scan.pass.place as u32,
        opened,
        scan.within,
        more,
    );
    Scan {
        pass: Pass {
            place: opened.after,
            due: scan.pass.due + more as usize,
        },
        rows: scan.rows + 1,
        within: scan.rows as u32,
    }
}

// Kept: as above.
// The condition of an rse, the first if there are more.
fn note_such(bindings: &mut [u32], within: u32, place: u32)
    ensures { bindings.new ≡ such_noted bindings.old within place }
{
    let at = within as usize * BINDING_ROW + BINDING_SUCH;
    if number_at(bindings, at) == 0 {
        put(bindings, at, place);
    }
}

// Kept: as above; the length of the request is asked for as in pass.rt.
// The end of an rse: back in the one that it stands in. Its row ends after the numbers that are due.
fn close_row(request: &[u8], bindings: &mut [u32], scan: Scan) -> Scan
    requires { (length request.now ≤ max_request_bytes) × (scan.pass.place < max_request_bytes) × (0 < scan.pass.due) }
    ensures { (result ≡ (closed request.now (state_of scan bindings.old)).scan) ×
        (bindings.new ≡ (closed request.now (state_of scan bindings.old)).table) }
{
    let at = scan.within as usize * BINDING_ROW;
    let outer = number_at(bindings, at + BINDING_END);
    let more = number_at(bindings, at + BINDING_AFTER) as usize;
    let end = pass_over(request, scan.pass.place + 1, more);
    put(bindings, at + BINDING_END, end as u32);
    put(bindings, at + BINDING_AFTER, scan.pass.place as u32 + 1);
    Scan {
        pass: Pass {
            place: scan.pass.place + 1,
            due: scan.pass.due - 1,
        },
        within: outer,
        ..scan
    }
}

// Kept: as above.
// A step over the code at a scan's place.
#[tactic(auto, unfolding(crate::specs::Steps::stepped, crate::specs::Steps::step_by, crate::specs::Passes::passed, crate::specs::Passes::pass_by), using(crate::proofs::StepLaws::stepped_ended))]
fn step(request: &[u8], dictionary: &[u8], bindings: &mut [u32], scan: Scan) -> Scan
    requires { (length request.now ≤ max_request_bytes) × (0 < scan.pass.due) × (scan.pass.due ≤ 4294967296) }
    ensures { (result ≡ (stepped dictionary.now request.now (state_of scan bindings.old)).scan) ×
        (bindings.new ≡
        (stepped dictionary.now request.now (state_of scan bindings.old)).table) ×
        (result.pass.due ≤ scan.pass.due + 256) }
{
    let p = scan.pass.place;
    if request.len() <= p {
        return Scan {
            pass: scan.pass.halt(),
            ..scan
        };
    }
    let form = form_of(request[p]);
    match form {
        Form::Plain(_, _) | Form::Field | Form::Literal | Form::Other => Scan {
            pass: scan.pass.over(request, form),
            ..scan
        },
        Form::Sort => {
            let keys = byte_on(request, p, 1) as usize;
            Scan {
                pass: scan.pass.on(pass_over(request, p + 2, keys), 1),
                ..scan
            }
        }
        Form::Open(more) => open_row(request, dictionary, bindings, scan, more),
        Form::Such => {
            note_such(bindings, scan.within, p as u32 + 1);
            Scan {
                pass: scan.pass.on(p + 1, 2),
                ..scan
            }
        }
        Form::Close => close_row(request, bindings, scan),
    }
}

// Kept: as above.
// The rows of the any, unique and statistic codes of the boolean or the value at a place, from a row on; the number of rows in all.
pub fn find_runs(
    request: &[u8],
    dictionary: &[u8],
    at: usize,
    bindings: &mut [u32],
    from: usize,
) -> usize
    ensures { (result ≡ (found dictionary.now request.now at from bindings.old).scan.rows) ×
        (bindings.new ≡ (found dictionary.now request.now at from bindings.old).table) }
{
    if MAX_REQUEST_BYTES < request.len() {
        return from;
    }
    let mut scan = Scan {
        pass: Pass { place: at, due: 1 },
        rows: from,
        within: NO_ROW,
    };
    for _ in 0..request.len() {
        if scan.pass.due == 0 {
            break;
        }
        scan = step(request, dictionary, bindings, scan);
    }
    scan.rows
}
