// What stands around all statements: the messages that a request has declared, and what describes their parameters, in a lent array.
ghost use Rattle.std.specs.Prelude.{◌≡◌, ◌≤◌, ◌<◌};
ghost use Rattle.wire.specs.Limits.{max_messages, max_parameters, max_message_bytes};
ghost use Rattle.wire.specs.Options.{option_of};
ghost use Rattle.grammar.specs.Kinds.{format_kind};
ghost use Rattle.grammar.specs.Environment.{descriptor_format};
ghost use Rattle.grammar.specs.Internal.Steps.{fit_of};
ghost use Rattle.messages.specs.Entries.{messages_held, rows_held, declared_in, found_of, message_at, parameter_kind};
ghost use Rattle.messages.specs.Entries.{packed, descriptor_of, version_in, with_version, with_descriptor, with_message};

use crate::descriptor::Descriptor;
use grammar::Kind;
use wire::blr::{CSTRING, INT64, LONG, SHORT, TEXT, VARYING, VERSION4, VERSION5};
use wire::bytes::signed_byte;
use wire::codes::Version;
use wire::limits::{MAX_MESSAGES, MAX_PARAMETERS};
use wire::numbers::MessageNumber;

// The columns of the array: how many messages there are, and the rows of all their parameters; then for each message its number, how many
// parameters it has, and the row of its first; then for each row of the parameter table the type's code, the scale byte and the bytes held
// of its descriptor, in one number; last the version.
const MESSAGE_COUNT: usize = 0;

const ROW_COUNT: usize = 1;

const NUMBERS: usize = 2;

const COUNTS: usize = 18;

const FIRSTS: usize = 34;

const DESCRIPTORS: usize = 50;

const VERSION: usize = 306;

pub const AROUND: usize = 307;

// The index of the message of a number.
pub fn find(around: &[u32; AROUND], m: MessageNumber) -> Option<usize>
    ensures { result ≡ option_of (found_of (declared_in around.now) m.0) }
{
    let number = u32::from(m.0);
    around[NUMBERS..COUNTS]
        .iter()
        .take(around[MESSAGE_COUNT] as usize)
        .position(|x| *x == number)
}

// The rows of all parameters.
pub fn row_count(around: &[u32; AROUND]) -> usize
    ensures { result ≡ rows_held around.now }
{
    around[ROW_COUNT] as usize
}

// The version of the request.
#[tactic(auto, unfolding(crate::specs::Entries::version_in, wire::specs::Versions::version_of))]
pub fn version(around: &[u32; AROUND]) -> Version
    ensures { result ≡ version_in around.now }
{
    if around[VERSION] == u32::from(VERSION5) {
        Version::Version5
    } else {
        Version::Version4
    }
}

// The kind of a descriptor in one number.
#[tactic(auto, unfolding(crate::specs::Entries::descriptor_of, crate::specs::Entries::described_by, grammar::specs::Environment::descriptor_format, grammar::specs::Kinds::format_kind))]
fn descriptor_fit(x: u32) -> Kind
    ensures { result ≡ format_kind (descriptor_format (descriptor_of x)) }
{
    let code = (x % 256) as u8;
    let scale = (x / 256 % 256) as u8;
    match code {
        SHORT | LONG | INT64 => Kind::Number(signed_byte(scale)),
        TEXT | VARYING | CSTRING => Kind::Text,
        _ => Kind::Date,
    }
}

// The kind of a parameter of the message of an index.
pub fn parameter_fit(around: &[u32; AROUND], message: usize, i: u32) -> Option<Kind>
    ensures { result ≡ fit_of (parameter_kind around.now (message_at around.now message) i) }
{
    if MAX_MESSAGES <= message || around[COUNTS + message] <= i {
        return None;
    }
    let row = around[FIRSTS + message] as usize + i as usize;
    if MAX_PARAMETERS <= row {
        return Some(Kind::Date);
    }
    Some(descriptor_fit(around[DESCRIPTORS + row]))
}

// The version of the request.
pub(crate) fn put_version(around: &mut [u32; AROUND], v: Version)
    ensures { around.new ≡ with_version around.old v }
{
    around[VERSION] = match v {
        Version::Version4 => u32::from(VERSION4),
        Version::Version5 => u32::from(VERSION5),
    };
}

// The descriptor of a row.
pub(crate) fn put_descriptor(around: &mut [u32; AROUND], row: usize, x: Descriptor)
    requires { (row < max_parameters) × (x.held ≤ max_message_bytes) }
    ensures { around.new ≡ with_descriptor around.old row (packed x.code x.scale x.held) }
{
    around[DESCRIPTORS + row] = u32::from(x.code)
        + 256 * u32::from(x.scale)
        + 65536 * x.held as u32;
}

// One message more, of so many parameters, which have the next rows.
pub(crate) fn add_message(around: &mut [u32; AROUND], m: MessageNumber, parameters: u32)
    requires { (messages_held around.old < max_messages) ×
        ((rows_held around.old ≤ max_parameters) × (parameters ≤ max_parameters)) }
    ensures { around.new ≡ with_message around.old m.0 parameters }
{
    let i = around[MESSAGE_COUNT] as usize;
    let rows = around[ROW_COUNT];
    around[NUMBERS + i] = u32::from(m.0);
    around[COUNTS + i] = parameters;
    around[FIRSTS + i] = rows;
    around[MESSAGE_COUNT] = i as u32 + 1;
    around[ROW_COUNT] = rows + parameters;
}
