// Test exports of the dictionary and its records. Kept: the C interface, as lib.rt says.
ghost use Rattle.std.specs.Prelude.{◌≡◌, map, length, is_ok, unwrap_or};
ghost use Rattle.wire.specs.Options.{option_of};
ghost use Rattle.dictionary.specs.Dictionary.{dictionary as checked};
ghost use Rattle.dictionary.specs.Naming.{named, numbered};
ghost use Rattle.dictionary.specs.Internal.Walk.{relation_place, relation_at};
ghost use Rattle.dictionary.specs.Internal.Answers.{answer_of};
ghost use Rattle.records.specs.Record.{offset_of, record_length};
ghost use Rattle.records.specs.Record.{records as record_run};
ghost use Rattle.records.specs.Internal.Answers.{length_answer, presence_in, run_answer};
ghost use Rattle.leaf_exports.specs.Exports.{fault_of, presence_given};

use records::missing::Cause;

fn fault_of(answer: Result<(), usize>) -> usize
    ensures { result ≡ fault_of answer }
{
    match answer {
        Ok(()) => 0,
        Err(p) => p,
    }
}

#[unsafe(no_mangle)]
pub extern "C" fn house_proper(d: &[u8]) -> bool
    ensures { result ≡ is_ok (answer_of (checked d.now)) }
{
    dictionary::check::check(d).is_ok()
}

// The start of the first entry at fault; 0 of a proper dictionary.
#[unsafe(no_mangle)]
pub extern "C" fn house_fault(d: &[u8]) -> usize
    ensures { result ≡ fault_of (answer_of (checked d.now)) }
{
    fault_of(dictionary::check::check(d))
}

// The place of a relation's entry; the length where there is none.
#[unsafe(no_mangle)]
pub extern "C" fn house_named(d: &[u8], name: &[u8]) -> usize
    ensures { result ≡ unwrap_or (option_of (relation_place d.now (named name.now))) (length d.now) }
{
    dictionary::lookup::relation_named(d, name).unwrap_or(d.len())
}

#[unsafe(no_mangle)]
pub extern "C" fn house_numbered(d: &[u8], id: u32) -> usize
    ensures { result ≡ unwrap_or (option_of (relation_place d.now (numbered id))) (length d.now) }
{
    dictionary::lookup::relation_numbered(d, id).unwrap_or(d.len())
}

#[unsafe(no_mangle)]
pub extern "C" fn house_records_due(d: &[u8], relations: &[u32], s: &[u8]) -> bool
    ensures { result ≡ is_ok (run_answer (record_run (map (relation_at d.now) relations.now) s.now 0)) }
{
    records::proper::records(d, relations, s).is_ok()
}

// The place of the first fault; 0 of records as due.
#[unsafe(no_mangle)]
pub extern "C" fn house_records_wrong(d: &[u8], relations: &[u32], s: &[u8]) -> usize
    ensures { result ≡ fault_of (run_answer (record_run (map (relation_at d.now) relations.now) s.now 0)) }
{
    fault_of(records::proper::records(d, relations, s))
}

// Kept: the C interface.
fn presence_number(p: Option<Cause>) -> u32
    ensures { result ≡ presence_given p }
{
    match p {
        None => 0,
        Some(Cause::Bit) => 1,
        Some(Cause::Reading) => 2,
        Some(Cause::Flag) => 3,
        Some(Cause::Nothing) => 4,
    }
}

// 0 of a field that is there, and otherwise the number of the cause.
#[unsafe(no_mangle)]
pub extern "C" fn house_missing(d: &[u8], relation: usize, s: &[u8], p: usize, i: usize) -> u32
    ensures { result ≡ presence_given (presence_in (relation_at d.now relation) s.now p i) }
{
    presence_number(records::missing::field_presence(d, relation, s, p, i))
}

// The offset of a field, and the length of a record; 0 of one above 4,096.
#[unsafe(no_mangle)]
pub extern "C" fn house_offset(d: &[u8], relation: usize, i: usize) -> usize
    ensures { result ≡ unwrap_or (length_answer (offset_of (relation_at d.now relation) i)) 0 }
{
    records::lengths::field_offset(d, relation, i).unwrap_or(0)
}

#[unsafe(no_mangle)]
pub extern "C" fn house_length(d: &[u8], relation: usize) -> usize
    ensures { result ≡ unwrap_or (length_answer (record_length (relation_at d.now relation))) 0 }
{
    records::lengths::record_length(d, relation).unwrap_or(0)
}
