// Message images by the rows of the parameter table: message, parameter, type, scale byte, offset, bytes held. Rows after the most that
// document 01 allows are not looked at.
ghost use Rattle.std.specs.Prelude.{◌≡◌, ◌*◌, ◌+◌, ◌%◌, ◌≤◌, min};
ghost use Rattle.std.proofs.Math.Option.{map};
ghost use Rattle.wire.specs.Classes.{descriptor_class};
ghost use Rattle.wire.specs.Limits.{max_parameters};
ghost use Rattle.surroundings.specs.Parameters.{held_from, is_row, parameter_from, row_format, with_place, size_held};
ghost use Rattle.surroundings.specs.Tables.{parameter_is};

use classes::Code;
use dictionary::field::Description;
use wire::codes::{DataType, FieldType, TextType};
use wire::limits::{MAX_PARAMETERS, PARAMETER_ROW};
use wire::numbers::MessageNumber;
use wire::rows::{
    PARAMETER_HELD, PARAMETER_INDEX, PARAMETER_MESSAGE, PARAMETER_SCALE, PARAMETER_TYPE,
};
use wire::table::number_at;

// The bytes of all message images.
pub fn image_bytes(parameters: &[u32], count: usize) -> usize
    ensures { result ≡ held_from parameters.now (min count max_parameters) 0 }
{
    let rows = count.min(MAX_PARAMETERS);
    let mut sum: usize = 0;
    for row in 0..rows {
        sum += number_at(parameters, row * PARAMETER_ROW + PARAMETER_HELD) as usize;
    }
    sum
}

// The n of a type that holds so many bytes.
fn size_held(data_type: DataType, held: u32) -> u32
    ensures { result ≡ size_held data_type held }
{
    match data_type {
        DataType::Chars(TextType::Varying) => held.saturating_sub(2),
        DataType::Chars(TextType::Text | TextType::Cstring)
        | DataType::Number(_)
        | DataType::Date => held,
    }
}

// What a row says of its parameter, whose bytes stand at p.
fn described(code: u32, scale: u32, held: u32, p: usize) -> Option<(Description, usize)>
    ensures { parameter_is result ≡ map (with_place p) (row_format (descriptor_class code) (scale % 256) held) }
{
    let code = u8::try_from(code).ok()?;
    let t = DataType::of(code).ok()?;
    let description = Description {
        data_type: FieldType::Plain(t),
        scale: (scale % 256) as u8,
        size: size_held(t, held),
    };
    Some((description, p))
}

// Whether a row is that of a parameter.
fn is_row(parameters: &[u32], row: usize, message: MessageNumber, index: u32) -> bool
    requires { row ≤ max_parameters }
    ensures { result ≡ is_row parameters.now message.0 index row }
{
    let at = row * PARAMETER_ROW;
    number_at(parameters, at + PARAMETER_MESSAGE) == u32::from(message.0)
        && number_at(parameters, at + PARAMETER_INDEX) == index
}

// A parameter of a message, by one scan of the rows.
pub fn parameter_of(
    parameters: &[u32],
    count: usize,
    message: MessageNumber,
    index: u32,
) -> Option<(Description, usize)>
    ensures { parameter_is result ≡ parameter_from parameters.now message.0 index (min count max_parameters) 0 0 }
{
    let rows = count.min(MAX_PARAMETERS);
    let mut p: usize = 0;
    for row in 0..rows {
        let held = number_at(parameters, row * PARAMETER_ROW + PARAMETER_HELD);
        if is_row(parameters, row, message, index) {
            let code = number_at(parameters, row * PARAMETER_ROW + PARAMETER_TYPE);
            let scale = number_at(parameters, row * PARAMETER_ROW + PARAMETER_SCALE);
            return described(code, scale, held, p);
        }
        p += held as usize;
    }
    None
}
