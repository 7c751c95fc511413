// The version of a request.
#[derive(Clone, Copy, PartialEq, Eq)]
pub enum Version {
    Version4,
    Version5,
}

// What a code says at the kind of place where it is due.
#[derive(Clone, Copy, PartialEq, Eq)]
pub enum StatementCode {
    Assignment,
    Begin,
    Erase,
    For,
    Loop,
    Modify,
    Handler,
    Receive,
    Send,
    Store,
    Label,
    Leave,
    If,
    Select,
}

// What a value or a target names.
#[derive(Clone, Copy, PartialEq, Eq)]
pub enum ReferenceCode {
    Field,
    Fid,
    Parameter,
    Parameter2,
}

#[derive(Clone, Copy, PartialEq, Eq)]
pub enum Operator {
    Add,
    Subtract,
    Multiply,
    Divide,
}

// What is worked out of a number over the records of an rse.
#[derive(Clone, Copy, PartialEq, Eq)]
pub enum Statistic {
    Average,
    Maximum,
    Minimum,
    Total,
}

#[derive(Clone, Copy, PartialEq, Eq)]
pub enum ValueCode {
    Literal,
    Reference(ReferenceCode),
    Arithmetic(Operator),
    Negate,
    Statistic(Statistic),
    Count,
}

#[derive(Clone, Copy, PartialEq, Eq)]
pub enum Comparison {
    Eql,
    Neq,
    Gtr,
    Geq,
    Lss,
    Leq,
}

#[derive(Clone, Copy, PartialEq, Eq)]
pub enum TextSearch {
    Containing,
    Matching,
    Starting,
}

#[derive(Clone, Copy, PartialEq, Eq)]
pub enum Connective {
    Or,
    And,
}

// What is asked of the records of an rse.
#[derive(Clone, Copy, PartialEq, Eq)]
pub enum Quantifier {
    Any,
    Unique,
}

#[derive(Clone, Copy, PartialEq, Eq)]
pub enum BooleanCode {
    Compare(Comparison),
    Search(TextSearch),
    Between,
    Connect(Connective),
    Not,
    Missing,
    Quantify(Quantifier),
}

#[derive(Clone, Copy, PartialEq, Eq)]
pub enum StreamCode {
    Relation,
    Rid,
}

#[derive(Clone, Copy, PartialEq, Eq)]
pub enum ClauseCode {
    Boolean,
    Sort,
    End,
}

#[derive(Clone, Copy, PartialEq, Eq)]
pub enum Direction {
    Ascending,
    Descending,
}

// The three widths of a number in a message, a literal or a field.
#[derive(Clone, Copy, PartialEq, Eq)]
pub enum Width {
    Short,
    Long,
    Int64,
}

#[derive(Clone, Copy, PartialEq, Eq)]
pub enum TextType {
    Text,
    Varying,
    Cstring,
}

// The types of a descriptor.
#[derive(Clone, Copy, PartialEq, Eq)]
pub enum DataType {
    Number(Width),
    Date,
    Chars(TextType),
}

// Kept: this and FieldType look alike, but no generic enum would name what each place holds.
#[derive(Clone, Copy, PartialEq, Eq)]
pub enum LiteralType {
    NumberLiteral(Width),
    TextLiteral,
}

// The types of a field of the dictionary: those of a descriptor, and the house reading. Kept: as above.
#[derive(Clone, Copy, PartialEq, Eq)]
pub enum FieldType {
    Plain(DataType),
    Reading,
}
