// Reading messages: each descriptor becomes a row of the parameter table.
ghost use Rattle.std.specs.Prelude.{◌≡◌, [], ◌<◌, ◌≤◌, ◌+◌, ◌*◌, length};
ghost use Rattle.std.proofs.lemmas.List.Edits.{sets};
ghost use Rattle.wire.specs.declared.codes.Version.{Version as AnyVersion};
ghost use Rattle.wire.specs.Limits.{max_messages, max_message_parameters, max_parameters, max_message_bytes, parameter_row_numbers};
ghost use Rattle.grammar.specs.Messages.{descriptors, message, messages};
ghost use Rattle.grammar.specs.Internal.Steps.{cursor_of};
ghost use Rattle.messages.specs.Internal.Columns.{around_numbers};
ghost use Rattle.messages.specs.Declaring.{row_of, parameter_after, Holds, Described, Told, ReadEach, Declares};
ghost use Rattle.messages.specs.Entries.{messages_held, messages_in};

use crate::declared::{AROUND, add_message, find, put_descriptor, put_version, row_count};
use crate::descriptor::{Descriptor, read_descriptor};
use grammar::{Cursor, Passed, Refusal};
use steps::{next_number, next_word, peek_byte};
use wire::blr::MESSAGE;
use wire::codes::Version;
use wire::limits::{MAX_MESSAGE_PARAMETERS, MAX_MESSAGES, MAX_PARAMETERS, PARAMETER_ROW};
use wire::numbers::MessageNumber;
use wire::refused::Refused;
use wire::rows::{
    PARAMETER_HELD, PARAMETER_INDEX, PARAMETER_MESSAGE, PARAMETER_OFFSET, PARAMETER_SCALE,
    PARAMETER_TYPE,
};
use wire::table::put;

// The next parameter: its message, its index there, its row of the table, and the bytes of the message before it. Its bounds stand in clauses
// and in no invariant: the definitions build such records too, and each of those would carry a proof.
#[derive(Clone, Copy, PartialEq, Eq)]
pub(crate) struct Parameter {
    pub message: MessageNumber,
    pub index: usize,
    pub row: usize,
    pub offset: usize,
}

// A row of the parameter table. Its bounds: as above.
fn put_row(table: &mut [u32], x: Parameter, d: Descriptor)
    requires { (x.index ≤ max_message_parameters) × ((x.row ≤ max_parameters) ×
        ((x.offset ≤ max_message_bytes) × (d.held ≤ max_message_bytes))) }
    ensures { table.new ≡ sets table.old (x.row * parameter_row_numbers) (row_of x d) }
{
    let at = x.row * PARAMETER_ROW;
    put(table, at + PARAMETER_MESSAGE, u32::from(x.message.0));
    put(table, at + PARAMETER_INDEX, x.index as u32);
    put(table, at + PARAMETER_TYPE, u32::from(d.code));
    put(table, at + PARAMETER_SCALE, u32::from(d.scale));
    put(table, at + PARAMETER_OFFSET, x.offset as u32);
    put(table, at + PARAMETER_HELD, d.held as u32);
}

// The parameter after one that holds so many bytes. Its bounds: as above.
fn parameter_after(x: Parameter, held: usize) -> Parameter
    requires { (x.index ≤ max_message_parameters) × ((x.row ≤ max_parameters) ×
        ((x.offset ≤ max_message_bytes) × (held ≤ max_message_bytes))) }
    ensures { result ≡ parameter_after x held }
{
    Parameter {
        message: x.message,
        index: x.index + 1,
        row: x.row + 1,
        offset: x.offset + held,
    }
}

// The descriptors of a message from a parameter on, so many, in a request of a version. Its bounds: as above; its tables: as below.
fn read_descriptors(
    request: &[u8],
    table: &mut [u32],
    around: &mut [u32; AROUND],
    c: Cursor,
    x: Parameter,
    left: usize,
    v: Version,
) -> Passed
    requires { (x.index + left ≤ max_message_parameters) × ((x.row + left ≤ max_parameters) ×
        ((x.offset ≤ max_message_bytes) × (length around.old ≡ around_numbers))) }
    ensures { Described (descriptors v left x.offset request.now c) x table.old table.new
        around.old around.new result }
{
    if left == 0 {
        return Ok(c);
    }
    let (d, after) = read_descriptor(request, c, x.offset, v)?;
    put_row(table, x, d);
    put_descriptor(around, x.row, d);
    let next = parameter_after(x, d.held);
    read_descriptors(request, table, around, after, next, left - 1, v)
}

// The first parameter of a message.
fn first_parameter(message: MessageNumber, row: usize) -> Parameter
    ensures { result ≡ record { message = message; index = 0; row = row; offset = 0 } }
{
    Parameter {
        message,
        index: 0,
        row,
        offset: 0,
    }
}

// A message after its code, beside the messages before it. Request, table and array are no struct: each function would take it apart again.
fn read_message(
    request: &[u8],
    table: &mut [u32],
    around: &mut [u32; AROUND],
    c: Cursor,
    v: Version,
) -> Passed
    requires { Holds around.old × (messages_held around.old < max_messages) }
    ensures { Told (message v (messages_in around.old) request.now c) table.old table.new
        around.old around.new result }
{
    let (m, first) = next_number(request, c)?;
    if find(around, m).is_some() {
        return Err(Refused::new(Refusal::BadMessage, c.at));
    }
    let (n, second) = next_word(request, first)?;
    let rows = row_count(around);
    let parameters = n as usize;
    if MAX_MESSAGE_PARAMETERS < parameters || MAX_PARAMETERS < rows + parameters {
        return Err(Refused::new(Refusal::TooGreat, first.at));
    }
    let x = first_parameter(m, rows);
    let after = read_descriptors(request, table, around, second, x, parameters, v)?;
    add_message(around, m, n);
    Ok(after)
}

// What stands after as many messages as there may be: another code.
fn no_more(request: &[u8], c: Cursor) -> Passed
    ensures { (v : AnyVersion) → result ≡ cursor_of (messages v 0 [] request.now c) }
{
    let (x, _) = peek_byte(request, c)?;
    if x == MESSAGE {
        return Err(Refused::new(Refusal::TooGreat, c.at));
    }
    Ok(c)
}

// The messages up to the first other code, with what was written before a refusal. Its tables: as above.
fn read_each(
    request: &[u8],
    table: &mut [u32],
    around: &mut [u32; AROUND],
    c: Cursor,
    v: Version,
) -> Passed
    ensures { ReadEach (messages v max_messages [] request.now c) table.old table.new
        around.new result }
{
    around.fill(0);
    let mut at = c;
    for _ in 0..MAX_MESSAGES {
        let (x, _) = peek_byte(request, at)?;
        if x != MESSAGE {
            return Ok(at);
        }
        let after = Cursor {
            at: at.at + 1,
            ..at
        };
        at = read_message(request, table, around, after, v)?;
    }
    no_more(request, at)
}

// The messages up to the first other code of a request of a version. A refusal leaves zeros alone in the table, and no message.
// Its tables: as above.
pub fn read_messages(
    request: &[u8],
    table: &mut [u32],
    around: &mut [u32; AROUND],
    c: Cursor,
    v: Version,
) -> Passed
    ensures { Declares v (messages v max_messages [] request.now c) table.old table.new
        around.new result }
{
    let r = read_each(request, table, around, c, v);
    if r.is_err() {
        table.fill(0);
        around.fill(0);
    }
    put_version(around, v);
    r
}
