// One descriptor of a message.
ghost use Rattle.std.specs.Prelude.{◌≡◌, ◌≤◌, ◌+◌};
ghost use Rattle.wire.specs.Limits.{max_message_bytes};
ghost use Rattle.grammar.specs.Messages.{descriptor_under, descriptor};
ghost use Rattle.grammar.specs.Internal.Steps.{answer_of};
ghost use Rattle.messages.specs.Declaring.{scale_held, stored};

use classes::type_due;
use dictionary::format::{text_bytes, width_bytes};
use grammar::{Cursor, Read, Refusal};
use steps::{next_byte, next_code, scale_byte, size_word};
use wire::codes::{DataType, Version};
use wire::limits::{DATE_SIZE, MAX_MESSAGE_BYTES};
use wire::refused::Refused;

// A descriptor: its type's code, its scale byte and the bytes that it holds.
#[derive(Clone, Copy, PartialEq, Eq)]
pub(crate) struct Descriptor {
    pub code: u8,
    pub scale: u8,
    pub held: usize,
}

// What stands under the code of a descriptor: its scale byte and the bytes that it holds.
#[tactic(auto, unfolding(grammar::specs::Messages::descriptor_under, grammar::specs::Environment::descriptor_format, dictionary::specs::Format::held))]
fn format(request: &[u8], t: DataType, c: Cursor) -> Read<(u8, usize)>
    ensures { result ≡ answer_of scale_held (descriptor_under t request.now c) }
{
    match t {
        DataType::Number(w) => {
            let (scale, after) = scale_byte(request, w, c)?;
            Ok(((scale, width_bytes(w)), after))
        }
        DataType::Date => Ok(((0, DATE_SIZE), c)),
        DataType::Chars(x) => {
            let (n, after) = size_word(request, c)?;
            Ok(((0, text_bytes(x, n)), after))
        }
    }
}

// A descriptor of a message that has so many bytes before it, in a request of a version.
#[tactic(auto, unfolding(grammar::specs::Messages::descriptor))]
pub(crate) fn read_descriptor(
    request: &[u8],
    c: Cursor,
    size: usize,
    v: Version,
) -> Read<Descriptor>
    requires { size ≤ max_message_bytes }
    ensures { result ≡ answer_of stored (descriptor v size request.now c) }
{
    // the byte of the code, which the row of the table shows, and the type that it stands for
    let (code, _) = next_byte(request, c)?;
    let (t, first) = next_code(request, c)?;
    if !type_due(v, t) {
        return Err(Refused::new(Refusal::NotDue, c.at));
    }
    let ((scale, held), after) = format(request, t, first)?;
    if MAX_MESSAGE_BYTES < size + held {
        return Err(Refused::new(Refusal::TooGreat, c.at));
    }
    Ok((Descriptor { code, scale, held }, after))
}
