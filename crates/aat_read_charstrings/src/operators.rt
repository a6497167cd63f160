//! Operators of charstrings.
ghost use Rattle.std.specs.Prelude.{◌≡◌};
ghost use Rattle.aat_read_charstrings.specs.Operators.{draw_operator_of, operator_of};

use crate::steps::DrawOperator;

/// An operator that moves the pen.
#[derive(Clone, Copy)]
pub(crate) enum MoveOperator {
    RMoveTo,
    HMoveTo,
    VMoveTo,
}

/// An operator.
#[derive(Clone, Copy)]
pub(crate) enum Operator {
    /// `hstem`, `vstem`, `hstemhm` and `vstemhm`.
    Stems,
    /// `hintmask` and `cntrmask`.
    Mask,
    /// One that moves the pen.
    Move(MoveOperator),
    /// One that draws.
    Draw(DrawOperator),
    /// `callsubr`.
    CallLocal,
    /// `callgsubr`.
    CallGlobal,
    /// `return`.
    Return,
    /// `endchar`.
    End,
}

/// The operator of a code that draws.
fn draw_operator_of(code: u16) -> Option<DrawOperator>
    ensures { result ≡ draw_operator_of code }
{
    match code {
        5 => Some(DrawOperator::RLineTo),
        6 => Some(DrawOperator::HLineTo),
        7 => Some(DrawOperator::VLineTo),
        8 => Some(DrawOperator::RRCurveTo),
        24 => Some(DrawOperator::RCurveLine),
        25 => Some(DrawOperator::RLineCurve),
        26 => Some(DrawOperator::VVCurveTo),
        27 => Some(DrawOperator::HHCurveTo),
        30 => Some(DrawOperator::VHCurveTo),
        31 => Some(DrawOperator::HVCurveTo),
        3106 => Some(DrawOperator::HFlex),
        3107 => Some(DrawOperator::Flex),
        3108 => Some(DrawOperator::HFlex1),
        3109 => Some(DrawOperator::Flex1),
        _ => None,
    }
}

/// The operator of a code.
pub(crate) fn operator_of(code: u16) -> Option<Operator>
    ensures { result ≡ operator_of code }
{
    if let Some(operator) = draw_operator_of(code) {
        return Some(Operator::Draw(operator));
    }
    match code {
        4 => Some(Operator::Move(MoveOperator::VMoveTo)),
        21 => Some(Operator::Move(MoveOperator::RMoveTo)),
        22 => Some(Operator::Move(MoveOperator::HMoveTo)),
        1 | 3 | 18 | 23 => Some(Operator::Stems),
        19 | 20 => Some(Operator::Mask),
        10 => Some(Operator::CallLocal),
        29 => Some(Operator::CallGlobal),
        11 => Some(Operator::Return),
        14 => Some(Operator::End),
        _ => None,
    }
}
