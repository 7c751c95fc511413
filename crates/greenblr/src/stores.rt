// The functions of a store for C (include/greenblr.h): numbers and slices only. Each gives 0 or the number of the refusal; the answer holds
// what was asked for, or the place of the refusal, then zeros.
ghost use Rattle.std.specs.Prelude.{◌≡◌};
ghost use Rattle.store.specs.Calls.{make, change, add, erase, replace};
ghost use Rattle.greenblr.specs.Stores.{call_number, call_numbers, StoreCalled, StoreRead, StorePlaced};

use store::Answer;

// The number of an answer, and its place in the answer.
fn told(a: Answer<()>, answer: &mut [usize; 3]) -> u32
    ensures { (result ≡ call_number a) × (answer.new ≡ call_numbers a) }
{
    match a {
        Ok(()) => {
            *answer = [0, 0, 0];
            0
        }
        Err(e) => {
            *answer = [e.place, 0, 0];
            u32::from(e.refusal)
        }
    }
}

// Makes an empty store of the relation of an id. Kept: C gives these parameters, here and below.
#[unsafe(no_mangle)]
pub extern "C" fn greenblr_store_make(
    dictionary: &[u8],
    buffer: &mut [u8],
    relation: u32,
    answer: &mut [usize; 3],
) -> u32
    ensures { StoreCalled dictionary.now buffer.old (make relation) buffer.new answer.new result }
{
    told(store::make(dictionary, buffer, relation), answer)
}

// Adds a record at the end.
#[unsafe(no_mangle)]
pub extern "C" fn greenblr_store_add(
    dictionary: &[u8],
    buffer: &mut [u8],
    entry: &[u8],
    answer: &mut [usize; 3],
) -> u32
    ensures { StoreCalled dictionary.now buffer.old (change (add entry.now)) buffer.new answer.new result }
{
    told(store::add(dictionary, buffer, entry), answer)
}

// Erases the record at a position.
#[unsafe(no_mangle)]
pub extern "C" fn greenblr_store_erase(
    dictionary: &[u8],
    buffer: &mut [u8],
    position: usize,
    answer: &mut [usize; 3],
) -> u32
    ensures { StoreCalled dictionary.now buffer.old (change (erase position)) buffer.new answer.new result }
{
    told(store::erase(dictionary, buffer, position), answer)
}

// Puts another record at a position.
#[unsafe(no_mangle)]
pub extern "C" fn greenblr_store_replace(
    dictionary: &[u8],
    buffer: &mut [u8],
    position: usize,
    entry: &[u8],
    answer: &mut [usize; 3],
) -> u32
    ensures { StoreCalled dictionary.now buffer.old (change (replace position entry.now)) buffer.new answer.new result }
{
    told(store::replace(dictionary, buffer, position, entry), answer)
}

// Reads a store: the answer holds its relation's id, its record count and its missing count.
#[unsafe(no_mangle)]
pub extern "C" fn greenblr_store_read(
    dictionary: &[u8],
    buffer: &[u8],
    answer: &mut [usize; 3],
) -> u32
    ensures { StoreRead dictionary.now buffer.now answer.new result }
{
    match store::read(dictionary, buffer) {
        Ok(counts) => {
            *answer = [counts.relation as usize, counts.records, counts.missing];
            0
        }
        Err(e) => {
            *answer = [e.place, 0, 0];
            u32::from(e.refusal)
        }
    }
}

// Finds the record at a position: the answer holds its place in the buffer and its length.
#[unsafe(no_mangle)]
pub extern "C" fn greenblr_store_find(
    dictionary: &[u8],
    buffer: &[u8],
    position: usize,
    answer: &mut [usize; 3],
) -> u32
    ensures { StorePlaced dictionary.now buffer.now position answer.new result }
{
    match store::find(dictionary, buffer, position) {
        Ok((place, length)) => {
            *answer = [place, length, 0];
            0
        }
        Err(e) => {
            *answer = [e.place, 0, 0];
            u32::from(e.refusal)
        }
    }
}
