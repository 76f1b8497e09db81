//! The faults of scripts in words.
use ffc_lex::FaultCode;

/// The name of a fault.
pub fn fault_name(code: FaultCode) -> &'static str {
    match code {
        FaultCode::Byte => "byte",
        FaultCode::Unended => "unended",
        FaultCode::Close => "close",
        FaultCode::Command => "command",
        FaultCode::Shape => "shape",
        FaultCode::Logic => "logic",
        FaultCode::Order => "order",
        FaultCode::Name => "name",
        FaultCode::Twice => "twice",
        FaultCode::Sort => "sort",
        FaultCode::Modulus => "modulus",
        FaultCode::Number => "number",
        FaultCode::Depth => "depth",
        FaultCode::Nodes => "nodes",
        FaultCode::Levels => "levels",
        FaultCode::Length => "length",
    }
}

/// What is wrong with what was met. The text follows it.
pub fn fault_sentence(code: FaultCode) -> &'static str {
    match code {
        FaultCode::Byte => "may not stand there, or begins no token",
        FaultCode::Unended => "begins a form that the text does not end",
        FaultCode::Close => "closes no form",
        FaultCode::Command => "is no command",
        FaultCode::Shape =>
            "does not fit there: an item of another kind, one too many, or one too few",
        FaultCode::Logic => "is not QF_FF, the one logic",
        FaultCode::Order => "comes out of order: before the logic is set, or after it was",
        FaultCode::Name => "is not in scope",
        FaultCode::Twice => "is taken, or comes twice in a list",
        FaultCode::Sort => "is of another sort than belongs there",
        FaultCode::Modulus => {
            "is the order of none of the fields: 2, 3, 5, 17, 65537, 2013265921, 2130706433, 18446744069414584321"
        }
        FaultCode::Number => "is no number of a field, or is 2^128 or more in size",
        FaultCode::Depth => {
            "is too deep: 65,536 parentheses may be open, and a term may be 65,536 high"
        }
        FaultCode::Nodes => {
            "is too much: a script makes at most 1,048,576 nodes, and a command weighs at most 16,777,216"
        }
        FaultCode::Levels => "passes the levels: there are 65,536 at most, and level 0 stays",
        FaultCode::Length => "is one byte too many: a script has at most 67,108,864",
    }
}
