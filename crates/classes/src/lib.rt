// The class of a code at each kind of place: due, left out by document 01 by name, or foreign.
#![tactic(auto)]

ghost use Rattle.std.specs.Prelude.{◌≡◌, ℕ};
ghost use Rattle.wire.specs.Classes.{Class, statement_class, value_class, target_class, boolean_class, stream_class, clause_class, direction_class, descriptor_class, literal_class, field_class};
ghost use Rattle.wire.specs.Versions.{version_of, width_due, type_due, literal_due, field_due};
ghost use Rattle.classes.specs.Classes.{class_of};

use wire::blr;
use wire::codes::{
    BooleanCode, ClauseCode, Comparison, Connective, DataType, Direction, FieldType, LiteralType,
    Operator, Quantifier, ReferenceCode, StatementCode, Statistic, StreamCode, TextSearch,
    TextType, ValueCode, Version, Width,
};

// A code that is not due at its place: left out by name, or foreign.
#[derive(Clone, Copy, PartialEq, Eq)]
pub enum NotDue {
    LeftOut,
    Foreign,
}

// What the codes at one kind of place stand for.
pub trait Code: Copy {
    // The table of document 01 for that kind of place.
    ghost class: { ℕ → Class Self };

    // What a byte stands for there.
    fn of(byte: u8) -> Result<Self, NotDue>
        ensures { result ≡ class_of (class byte) };
}

// Where a statement may stand.
impl Code for StatementCode {
    ghost class = { statement_class };

    #[tactic(auto, unfolding(wire::specs::Classes::statement_class, wire::specs::Classes::classify, wire::specs::Lists::among, wire::specs::Lists::any_of))]
    fn of(byte: u8) -> Result<StatementCode, NotDue> {
        match byte {
            blr::ASSIGNMENT => Ok(StatementCode::Assignment),
            blr::BEGIN => Ok(StatementCode::Begin),
            blr::ERASE => Ok(StatementCode::Erase),
            blr::FOR => Ok(StatementCode::For),
            blr::LOOP => Ok(StatementCode::Loop),
            blr::MODIFY => Ok(StatementCode::Modify),
            blr::HANDLER => Ok(StatementCode::Handler),
            blr::RECEIVE => Ok(StatementCode::Receive),
            blr::SEND => Ok(StatementCode::Send),
            blr::STORE => Ok(StatementCode::Store),
            blr::LABEL => Ok(StatementCode::Label),
            blr::LEAVE => Ok(StatementCode::Leave),
            blr::IF => Ok(StatementCode::If),
            blr::SELECT => Ok(StatementCode::Select),
            blr::DCL_VARIABLE | blr::FETCH | blr::STORE2 | blr::POST => Err(NotDue::LeftOut),
            _ => Err(NotDue::Foreign),
        }
    }
}

// Where a value may stand.
impl Code for ValueCode {
    ghost class = { value_class };

    #[tactic(auto, unfolding(wire::specs::Classes::value_class, wire::specs::Classes::classify, wire::specs::Lists::among, wire::specs::Lists::any_of))]
    fn of(byte: u8) -> Result<ValueCode, NotDue> {
        match byte {
            blr::LITERAL => Ok(ValueCode::Literal),
            blr::FIELD => Ok(ValueCode::Reference(ReferenceCode::Field)),
            blr::FID => Ok(ValueCode::Reference(ReferenceCode::Fid)),
            blr::PARAMETER => Ok(ValueCode::Reference(ReferenceCode::Parameter)),
            blr::PARAMETER2 => Ok(ValueCode::Reference(ReferenceCode::Parameter2)),
            blr::AVERAGE => Ok(ValueCode::Statistic(Statistic::Average)),
            blr::COUNT => Ok(ValueCode::Count),
            blr::MAXIMUM => Ok(ValueCode::Statistic(Statistic::Maximum)),
            blr::MINIMUM => Ok(ValueCode::Statistic(Statistic::Minimum)),
            blr::TOTAL => Ok(ValueCode::Statistic(Statistic::Total)),
            blr::ADD => Ok(ValueCode::Arithmetic(Operator::Add)),
            blr::SUBTRACT => Ok(ValueCode::Arithmetic(Operator::Subtract)),
            blr::MULTIPLY => Ok(ValueCode::Arithmetic(Operator::Multiply)),
            blr::DIVIDE => Ok(ValueCode::Arithmetic(Operator::Divide)),
            blr::NEGATE => Ok(ValueCode::Negate),
            blr::DBKEY
            | blr::VARIABLE
            | blr::CONCATENATE
            | blr::SUBSTRING
            | blr::FROM
            | blr::VIA
            | blr::USER_NAME
            | blr::NULL => Err(NotDue::LeftOut),
            _ => Err(NotDue::Foreign),
        }
    }
}

// Where a target stands.
impl Code for ReferenceCode {
    ghost class = { target_class };

    #[tactic(auto, unfolding(wire::specs::Classes::target_class, wire::specs::Classes::classify, wire::specs::Lists::among, wire::specs::Lists::any_of))]
    fn of(byte: u8) -> Result<ReferenceCode, NotDue> {
        match byte {
            blr::FIELD => Ok(ReferenceCode::Field),
            blr::FID => Ok(ReferenceCode::Fid),
            blr::PARAMETER => Ok(ReferenceCode::Parameter),
            blr::PARAMETER2 => Ok(ReferenceCode::Parameter2),
            _ => Err(NotDue::Foreign),
        }
    }
}

// Where a boolean may stand.
impl Code for BooleanCode {
    ghost class = { boolean_class };

    #[tactic(auto, unfolding(wire::specs::Classes::boolean_class, wire::specs::Classes::classify, wire::specs::Lists::among, wire::specs::Lists::any_of))]
    fn of(byte: u8) -> Result<BooleanCode, NotDue> {
        match byte {
            blr::EQL => Ok(BooleanCode::Compare(Comparison::Eql)),
            blr::NEQ => Ok(BooleanCode::Compare(Comparison::Neq)),
            blr::GTR => Ok(BooleanCode::Compare(Comparison::Gtr)),
            blr::GEQ => Ok(BooleanCode::Compare(Comparison::Geq)),
            blr::LSS => Ok(BooleanCode::Compare(Comparison::Lss)),
            blr::LEQ => Ok(BooleanCode::Compare(Comparison::Leq)),
            blr::CONTAINING => Ok(BooleanCode::Search(TextSearch::Containing)),
            blr::MATCHING => Ok(BooleanCode::Search(TextSearch::Matching)),
            blr::STARTING => Ok(BooleanCode::Search(TextSearch::Starting)),
            blr::BETWEEN => Ok(BooleanCode::Between),
            blr::OR => Ok(BooleanCode::Connect(Connective::Or)),
            blr::AND => Ok(BooleanCode::Connect(Connective::And)),
            blr::NOT => Ok(BooleanCode::Not),
            blr::ANY => Ok(BooleanCode::Quantify(Quantifier::Any)),
            blr::MISSING => Ok(BooleanCode::Missing),
            blr::UNIQUE => Ok(BooleanCode::Quantify(Quantifier::Unique)),
            blr::LIKE => Err(NotDue::LeftOut),
            _ => Err(NotDue::Foreign),
        }
    }
}

// Where a stream may stand.
impl Code for StreamCode {
    ghost class = { stream_class };

    #[tactic(auto, unfolding(wire::specs::Classes::stream_class, wire::specs::Classes::classify, wire::specs::Lists::among, wire::specs::Lists::any_of))]
    fn of(byte: u8) -> Result<StreamCode, NotDue> {
        match byte {
            blr::RELATION => Ok(StreamCode::Relation),
            blr::RID => Ok(StreamCode::Rid),
            blr::UNION | blr::AGGREGATE => Err(NotDue::LeftOut),
            _ => Err(NotDue::Foreign),
        }
    }
}

// Where a clause of an rse, or its end, may stand.
impl Code for ClauseCode {
    ghost class = { clause_class };

    #[tactic(auto, unfolding(wire::specs::Classes::clause_class, wire::specs::Classes::classify, wire::specs::Lists::among, wire::specs::Lists::any_of))]
    fn of(byte: u8) -> Result<ClauseCode, NotDue> {
        match byte {
            blr::BOOLEAN => Ok(ClauseCode::Boolean),
            blr::SORT => Ok(ClauseCode::Sort),
            blr::END => Ok(ClauseCode::End),
            blr::FIRST | blr::PROJECT => Err(NotDue::LeftOut),
            _ => Err(NotDue::Foreign),
        }
    }
}

// Before a value of a sort.
impl Code for Direction {
    ghost class = { direction_class };

    #[tactic(auto, unfolding(wire::specs::Classes::direction_class, wire::specs::Classes::classify, wire::specs::Lists::among, wire::specs::Lists::any_of))]
    fn of(byte: u8) -> Result<Direction, NotDue> {
        match byte {
            blr::ASCENDING => Ok(Direction::Ascending),
            blr::DESCENDING => Ok(Direction::Descending),
            _ => Err(NotDue::Foreign),
        }
    }
}

// Where the type of a descriptor stands.
impl Code for DataType {
    ghost class = { descriptor_class };

    #[tactic(auto, unfolding(wire::specs::Classes::descriptor_class, wire::specs::Classes::classify, wire::specs::Lists::among, wire::specs::Lists::any_of))]
    fn of(byte: u8) -> Result<DataType, NotDue> {
        match byte {
            blr::SHORT => Ok(DataType::Number(Width::Short)),
            blr::LONG => Ok(DataType::Number(Width::Long)),
            blr::INT64 => Ok(DataType::Number(Width::Int64)),
            blr::DATE => Ok(DataType::Date),
            blr::TEXT => Ok(DataType::Chars(TextType::Text)),
            blr::VARYING => Ok(DataType::Chars(TextType::Varying)),
            blr::CSTRING => Ok(DataType::Chars(TextType::Cstring)),
            blr::QUAD | blr::FLOAT | blr::D_FLOAT | blr::DOUBLE => Err(NotDue::LeftOut),
            _ => Err(NotDue::Foreign),
        }
    }
}

// Where the type of a literal stands.
impl Code for LiteralType {
    ghost class = { literal_class };

    #[tactic(auto, unfolding(wire::specs::Classes::literal_class, wire::specs::Classes::classify, wire::specs::Lists::among, wire::specs::Lists::any_of))]
    fn of(byte: u8) -> Result<LiteralType, NotDue> {
        match byte {
            blr::SHORT => Ok(LiteralType::NumberLiteral(Width::Short)),
            blr::LONG => Ok(LiteralType::NumberLiteral(Width::Long)),
            blr::INT64 => Ok(LiteralType::NumberLiteral(Width::Int64)),
            blr::TEXT => Ok(LiteralType::TextLiteral),
            blr::QUAD
            | blr::FLOAT
            | blr::D_FLOAT
            | blr::DOUBLE
            | blr::DATE
            | blr::VARYING
            | blr::CSTRING => Err(NotDue::LeftOut),
            _ => Err(NotDue::Foreign),
        }
    }
}

// Where the type of a field of the dictionary stands.
impl Code for FieldType {
    ghost class = { field_class };

    #[tactic(auto, unfolding(wire::specs::Classes::field_class, wire::specs::Classes::classify, wire::specs::Lists::among, wire::specs::Lists::any_of))]
    fn of(byte: u8) -> Result<FieldType, NotDue> {
        match byte {
            blr::SHORT => Ok(FieldType::Plain(DataType::Number(Width::Short))),
            blr::LONG => Ok(FieldType::Plain(DataType::Number(Width::Long))),
            blr::INT64 => Ok(FieldType::Plain(DataType::Number(Width::Int64))),
            blr::DATE => Ok(FieldType::Plain(DataType::Date)),
            blr::TEXT => Ok(FieldType::Plain(DataType::Chars(TextType::Text))),
            blr::VARYING => Ok(FieldType::Plain(DataType::Chars(TextType::Varying))),
            blr::CSTRING => Ok(FieldType::Plain(DataType::Chars(TextType::Cstring))),
            blr::HOUSE_READING => Ok(FieldType::Reading),
            _ => Err(NotDue::Foreign),
        }
    }
}

// The version of a request's first byte; any byte but 5 counts as version 4. Kept: neither type is of this crate, so no From can stand here.
#[tactic(auto, unfolding(wire::specs::Versions::version_of))]
pub fn version_of(code: u8) -> Version
    ensures { result ≡ version_of code }
{
    if code == blr::VERSION5 {
        Version::Version5
    } else {
        Version::Version4
    }
}

// Whether a number of a width is due in a version: eight bytes in version 5 alone.
fn width_due(v: Version, w: Width) -> bool
    ensures { result ≡ width_due v w }
{
    match w {
        Width::Short => true,
        Width::Long => true,
        Width::Int64 => match v {
            Version::Version4 => false,
            Version::Version5 => true,
        },
    }
}

// Whether a type of a descriptor is due in a version.
pub fn type_due(v: Version, t: DataType) -> bool
    ensures { result ≡ type_due v t }
{
    match t {
        DataType::Number(w) => width_due(v, w),
        DataType::Date => true,
        DataType::Chars(_) => true,
    }
}

// Whether a type of a literal is due in a version. Kept, with field_due: a trait of their two types would be longer than both.
pub fn literal_due(v: Version, t: LiteralType) -> bool
    ensures { result ≡ literal_due v t }
{
    match t {
        LiteralType::NumberLiteral(w) => width_due(v, w),
        LiteralType::TextLiteral => true,
    }
}

// Whether a request of a version may name a field of a type.
pub fn field_due(v: Version, t: FieldType) -> bool
    ensures { result ≡ field_due v t }
{
    match t {
        FieldType::Plain(x) => type_due(v, x),
        FieldType::Reading => true,
    }
}
