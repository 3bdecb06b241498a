//! Kinds as they are printed.
use pd_tree::{Kind, Operator};
use std::io;

/// The sign of an operator of SL.
fn sign_of(operator: Operator) -> &'static str {
    match operator {
        Operator::Equal => "==",
        Operator::NotEqual => "!=",
        Operator::Less => "<",
        Operator::LessEq => "<=",
        Operator::Greater => ">",
        Operator::GreaterEq => ">=",
        Operator::Add => "+",
        Operator::Sub => "-",
        Operator::Mul => "*",
        Operator::Div => "/",
    }
}

/// The sign of an operator of PL/0.
fn pl0_sign_of(operator: Operator) -> &'static str {
    match operator {
        Operator::Equal => "=",
        Operator::NotEqual => "#",
        other => sign_of(other),
    }
}

/// The word for a kind of SL that has no name and no value; empty for another.
fn sl_word_of(kind: &Kind) -> &'static str {
    match kind {
        Kind::SlBody => "body",
        Kind::SlBlock => "block",
        Kind::SlIf => "if",
        Kind::SlWhile => "while",
        Kind::SlReturn => "return",
        Kind::SlBreak => "break",
        Kind::SlContinue => "continue",
        Kind::SlDebugger => "debugger",
        Kind::SlOr => "||",
        Kind::SlAnd => "&&",
        Kind::SlBinary(operator) => sign_of(*operator),
        Kind::SlCall => "call",
        _ => "",
    }
}

/// The word for a kind of PL/0 that has no name and no value; empty for another.
fn pl0_word_of(kind: &Kind) -> &'static str {
    match kind {
        Kind::PlBody => "body",
        Kind::PlEmpty => "empty",
        Kind::PlBegin => "begin",
        Kind::PlIf => "if",
        Kind::PlWhile => "while",
        Kind::PlWrite => "write",
        Kind::PlOdd => "odd",
        Kind::PlBinary(operator) => pl0_sign_of(*operator),
        Kind::PlPlus => "plus",
        Kind::PlMinus => "minus",
        _ => "",
    }
}

/// Prints a kind with its name or its value.
pub fn print_kind(rt: &HostRuntime, kind: &Kind) -> io::Result<()> {
    match kind {
        Kind::SlFunction { name, .. } => print!(rt; "function {}", name.as_str()),
        Kind::PlProcedure { name, .. } => print!(rt; "procedure {}", name.as_str()),
        Kind::SlAssign(name) | Kind::PlAssign(name) => print!(rt; "assign {}", name.as_str()),
        Kind::SlName(name) | Kind::PlName(name) => print!(rt; "name {}", name.as_str()),
        Kind::SlNumber(value) | Kind::PlNumber(value) => print!(rt; "number {value}"),
        Kind::SlText(text) => print!(rt; "text \"{}\"", text.as_str()),
        Kind::PlCall(name) => print!(rt; "call {}", name.as_str()),
        _ => print!(rt; "{}{}", sl_word_of(kind), pl0_word_of(kind)),
    }
}
