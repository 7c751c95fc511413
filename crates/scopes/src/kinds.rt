// The kinds of values, and how they fit.
ghost use Rattle.std.specs.Prelude.{◌≡◌};
ghost use Rattle.wire.specs.declared.codes.FieldType.TheVariants.{Plain};
ghost use Rattle.grammar.specs.Kinds.{type_kind, result_scale, arithmetic_range, arithmetic_kind, negated_kind, one_kind, both_text, all_one_kind};
ghost use Rattle.grammar.specs.Internal.Steps.{fit_of, kind_in};

use grammar::Kind;
use wire::bytes::signed_byte;
use wire::codes::{DataType, FieldType, Operator, Version};
use wire::limits::MIN_ARITHMETIC_SCALE;

// The kind of a stored type with its scale byte.
fn plain_fit(t: DataType, scale: u8) -> Kind
    ensures { result ≡ type_kind (Plain t) scale }
{
    match t {
        DataType::Number(_) => Kind::Number(signed_byte(scale)),
        DataType::Date => Kind::Date,
        DataType::Chars(_) => Kind::Text,
    }
}

// The kind of a type with its scale byte.
pub fn type_fit(t: FieldType, scale: u8) -> Kind
    ensures { result ≡ type_kind t scale }
{
    match t {
        FieldType::Plain(x) => plain_fit(x, scale),
        FieldType::Reading => Kind::Number(signed_byte(scale)),
    }
}

// A number of a scale that arithmetic allows.
fn within(scale: i32) -> Option<Kind>
    ensures { result ≡ fit_of (arithmetic_range scale) }
{
    if scale < i32::from(MIN_ARITHMETIC_SCALE) || 0 < scale {
        return None;
    }
    Some(Kind::Number(scale as i8))
}

// The kind of an operator's result on two scales.
#[tactic(auto, unfolding(grammar::specs::Kinds::result_scale))]
fn scaled(v: Version, o: Operator, a: i8, b: i8) -> Option<Kind>
    ensures { result ≡ fit_of (arithmetic_range (result_scale v o a b)) }
{
    let first = i32::from(a);
    let second = i32::from(b);
    match o {
        Operator::Add | Operator::Subtract => within(second.min(first)),
        Operator::Multiply => within(first + second),
        Operator::Divide => match v {
            Version::Version4 => within(first - second),
            Version::Version5 => within(first + second),
        },
    }
}

// The kind of a sum, a difference, a product or a quotient.
#[tactic(auto, unfolding(grammar::specs::Kinds::arithmetic_kind))]
pub fn arithmetic_fit(v: Version, o: Operator, a: Option<Kind>, b: Option<Kind>) -> Option<Kind>
    ensures { result ≡ fit_of (arithmetic_kind v o (kind_in a) (kind_in b)) }
{
    match (a, b) {
        (Some(Kind::Number(x)), Some(Kind::Number(y))) => scaled(v, o, x, y),
        _ => None,
    }
}

// The kind of a value with the other sign.
pub fn negated_fit(a: Option<Kind>) -> Option<Kind>
    ensures { result ≡ fit_of (negated_kind (kind_in a)) }
{
    match a {
        Some(Kind::Number(x)) => Some(Kind::Number(x)),
        _ => None,
    }
}

// Whether two values are of one kind. A derived == would tell numbers of two scales apart, which are of one kind.
#[tactic(auto, unfolding(grammar::specs::Kinds::one_kind))]
pub fn one_kind(a: Option<Kind>, b: Option<Kind>) -> bool
    ensures { result ≡ one_kind (kind_in a) (kind_in b) }
{
    match (a, b) {
        (Some(Kind::Number(_)), Some(Kind::Number(_))) => true,
        (Some(Kind::Text), Some(Kind::Text)) => true,
        (Some(Kind::Date), Some(Kind::Date)) => true,
        _ => false,
    }
}

// Both have a kind, text: by one_kind, and no == for the reason above.
#[tactic(auto, unfolding(grammar::specs::Kinds::both_text, grammar::specs::Kinds::one_kind))]
pub fn both_text(a: Option<Kind>, b: Option<Kind>) -> bool
    ensures { result ≡ both_text (kind_in a) (kind_in b) }
{
    one_kind(a, Some(Kind::Text)) && one_kind(b, Some(Kind::Text))
}

// Three of one kind: as above.
#[tactic(auto, unfolding(grammar::specs::Kinds::all_one_kind))]
pub fn all_one_kind(a: Option<Kind>, b: Option<Kind>, c: Option<Kind>) -> bool
    ensures { result ≡ all_one_kind (kind_in a) (kind_in b) (kind_in c) }
{
    one_kind(a, b) && one_kind(a, c)
}
