// Document 01's examples of numbers and texts, and the ends of the ranges, as the leaves answer them: a line each.
#![tactic(auto)]

mod show;

use decimal::Number;
use show::{operation, order_of_numbers, order_of_texts, part, search};
use wire::codes::{Operator, TextSearch, TextType};

// Kept: a number in one line of the lists below.
fn number(value: i64, scale: i8) -> Number {
    Number { value, scale }
}

// "30 scale 0 equals 300 scale -1"
fn comparisons() {
    let least = i64::MIN;
    let greatest = i64::MAX;
    order_of_numbers(number(30, 0), number(300, -1));
    order_of_numbers(number(301, -1), number(30, 0));
    order_of_numbers(number(-301, -1), number(-30, 0));
    order_of_numbers(number(1, -18), number(0, 0));
    order_of_numbers(number(greatest, 0), number(greatest, -18));
    order_of_numbers(number(least, 0), number(least, -18));
    order_of_numbers(number(greatest, -18), number(9, 0));
}

// "-7 divided by 2 is -3", and both ends of the range.
fn operations() {
    let least = i64::MIN;
    let greatest = i64::MAX;
    operation(Operator::Divide, number(-7, 0), number(2, 0));
    operation(Operator::Divide, number(7, 0), number(-2, 0));
    operation(Operator::Divide, number(7, -2), number(2, -1));
    operation(Operator::Divide, number(1, 0), number(0, 0));
    operation(Operator::Divide, number(least, 0), number(-1, 0));
    operation(Operator::Divide, number(least, 0), number(1, 0));
    operation(Operator::Add, number(30, 0), number(5, -1));
    operation(Operator::Add, number(greatest, 0), number(1, 0));
    operation(Operator::Add, number(greatest, 0), number(0, -1));
    operation(Operator::Subtract, number(least, 0), number(1, 0));
    operation(Operator::Subtract, number(0, 0), number(least, 0));
    operation(Operator::Multiply, number(-3, -1), number(5, -2));
    operation(Operator::Multiply, number(least, 0), number(-1, 0));
    operation(
        Operator::Multiply,
        number(4294967296, 0),
        number(-2147483648, 0),
    );
}

fn parts() {
    part(TextType::Text, b"ABC  ");
    part(TextType::Text, b"     ");
    part(TextType::Varying, b"\x03\x00AB CD");
    part(TextType::Varying, b"\x05\x00AB CD");
    part(TextType::Varying, b"\x06\x00AB CD");
    part(TextType::Cstring, b"AB  \x00CD");
    part(TextType::Cstring, b"ABCD");
}

fn texts() {
    order_of_texts(b"AB", b"AB  ");
    order_of_texts(b"AB\x1f", b"AB");
    order_of_texts(b"\xe9", b"z");
    search(TextSearch::Containing, b"Tomato", b"MAT");
    search(TextSearch::Containing, b"", b"");
    search(TextSearch::Containing, b"abc", b"cd");
    search(TextSearch::Matching, b"Tomato", b"t?m*O");
    search(TextSearch::Matching, b"Tomato", b"*mat");
    search(TextSearch::Matching, b"", b"*");
    search(
        TextSearch::Matching,
        b"aaaaaaaaaaaaaaaaaaaaaaaaaaaaaaaa",
        b"*a*a*a*a*a*a*a*a*b",
    );
    search(TextSearch::Starting, b"Tomato", b"Tom");
    search(TextSearch::Starting, b"Tomato", b"tom");
    search(TextSearch::Starting, b"Tomato", b"");
}

fn main() {
    comparisons();
    operations();
    parts();
    texts();
}
