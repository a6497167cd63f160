//! The steps that operators draw with their arguments.
ghost use Rattle.std.specs.Prelude.{◌≡◌, ◌+◌, ◌<◌, ◌≤◌, ◌^◌, OnOk, drop, length, pos};
ghost use Rattle.std.specs.List.{fold};
ghost use Rattle.aat_read_charstrings.specs.Paths.{drawn};
ghost use Rattle.aat_read_charstrings.specs.Steps.{back_by, crossed_lines, curve, curves, curves_then_line, even_curve, even_curves, even_back, even_curves_from, even_flex, flat_flex, line, lines, lines_then_curve, nearer_end, nearer_flex, number, only_left, point, steps_of, sum_of, turning_curve, turning_curves};

use crate::path::{FixedPoint, Path, Step, stepped};
use std::alloc::{AllocError, Allocator};

/// A point of two coordinates.
pub(crate) fn point(x: i32, y: i32) -> FixedPoint
    ensures { result ≡ point x y }
{
    FixedPoint { x, y }
}

/// An argument by its number, which is 0 for the first.
pub(crate) fn number(arguments: &[i32], k: usize) -> i32
    ensures { result ≡ number arguments.now k }
{
    arguments.get(k).copied().unwrap_or(0)
}

/// The arguments behind so many.
fn behind(arguments: &[i32], count: usize) -> &[i32]
    requires { count ≤ length arguments.now }
    ensures { result.now ≡ drop count arguments.now }
{
    &arguments[count..]
}

/// The point of two arguments.
fn point_of(arguments: &[i32], k: usize) -> FixedPoint
    requires { k < 2 ^ 32 }
    ensures { result ≡ point (number arguments.now k) (number arguments.now (k + 1)) }
{
    point(number(arguments, k), number(arguments, k + 1))
}

/// A line by so much.
#[tactic(auto, unfolding(crate::specs::Steps::line))]
fn line(dx: i32, dy: i32) -> Step
    ensures { result ≡ line dx dy }
{
    Step::Line(point(dx, dy))
}

/// A curve by so much to each of its three points.
#[tactic(auto, unfolding(crate::specs::Steps::curve))]
fn curve(first: FixedPoint, second: FixedPoint, to: FixedPoint) -> Step
    ensures { result ≡ curve first.x first.y second.x second.y to.x to.y }
{
    Step::Curve(first, second, to)
}

/// Draws lines: `rlineto`.
fn draw_lines<A: Allocator>(path: &mut Path<A>, arguments: &[i32]) -> Result<(), AllocError>
    ensures { OnOk result (path.new ≡ fold drawn path.old (lines arguments.now)) }
{
    let mut rest = arguments;
    while let [dx, dy, behind @ ..] = rest {
        path.draw(line(*dx, *dy))?;
        rest = behind;
    }
    Ok(())
}

/// Draws lines that lie flat and stand upright in turn: `hlineto` and `vlineto`.
fn draw_crossed_lines<A: Allocator>(
    path: &mut Path<A>,
    is_flat: bool,
    arguments: &[i32],
) -> Result<(), AllocError>
    ensures { OnOk result (path.new ≡ fold drawn path.old (crossed_lines is_flat arguments.now)) }
{
    let mut flat = is_flat;
    let mut rest = arguments;
    while let [by, behind @ ..] = rest {
        path.draw(if flat { line(*by, 0) } else { line(0, *by) })?;
        flat = !flat;
        rest = behind;
    }
    Ok(())
}

/// A curve with the first six arguments.
fn curve_of(arguments: &[i32]) -> Step
    ensures { let a = number arguments.now in result ≡ curve (a 0) (a 1) (a 2) (a 3) (a 4) (a 5) }
{
    curve(
        point_of(arguments, 0),
        point_of(arguments, 2),
        point_of(arguments, 4),
    )
}

/// Draws curves: `rrcurveto`, and `flex`.
fn draw_curves<A: Allocator>(path: &mut Path<A>, arguments: &[i32]) -> Result<(), AllocError>
    ensures { OnOk result (path.new ≡ fold drawn path.old (curves arguments.now)) }
{
    let mut rest = arguments;
    while rest.len() >= 6 {
        path.draw(curve_of(rest))?;
        rest = behind(rest, 6);
    }
    Ok(())
}

/// Draws curves, and a line with the last two arguments: `rcurveline`.
fn draw_curves_then_line<A: Allocator>(
    path: &mut Path<A>,
    arguments: &[i32],
) -> Result<(), AllocError>
    ensures { OnOk result (path.new ≡ fold drawn path.old (curves_then_line arguments.now)) }
{
    let end = arguments.len().saturating_sub(2);
    draw_curves(path, &arguments[..end])?;
    draw_lines(path, &arguments[end..])
}

/// Draws lines, and a curve with the last six arguments: `rlinecurve`.
fn draw_lines_then_curve<A: Allocator>(
    path: &mut Path<A>,
    arguments: &[i32],
) -> Result<(), AllocError>
    ensures { OnOk result (path.new ≡ fold drawn path.old (lines_then_curve arguments.now)) }
{
    let end = arguments.len().saturating_sub(6);
    draw_lines(path, &arguments[..end])?;
    draw_curves(path, &arguments[end..])
}

/// A curve with the first four arguments that begins and ends flat or upright, but for how far it begins aside.
#[tactic(auto, unfolding(crate::specs::Steps::even_curve))]
fn even_curve_of(is_flat: bool, aside: i32, arguments: &[i32]) -> Step
    ensures { let a = number arguments.now in result ≡ even_curve is_flat aside (a 0) (a 1) (a 2) (a 3) }
{
    let (from, to) = (number(arguments, 0), number(arguments, 3));
    let middle = point_of(arguments, 1);
    if is_flat {
        curve(point(from, aside), middle, point(to, 0))
    } else {
        curve(point(aside, from), middle, point(0, to))
    }
}

/// Draws curves that begin and end flat or upright.
fn draw_straight_curves<A: Allocator>(
    path: &mut Path<A>,
    is_flat: bool,
    arguments: &[i32],
) -> Result<(), AllocError>
    ensures { OnOk result (path.new ≡ fold drawn path.old (even_curves_from is_flat (pos 0) arguments.now)) }
{
    let mut rest = arguments;
    while rest.len() >= 4 {
        path.draw(even_curve_of(is_flat, 0, rest))?;
        rest = behind(rest, 4);
    }
    Ok(())
}

/// Draws curves that begin and end flat or upright, the first of them aside by so much.
fn draw_even_curves_from<A: Allocator>(
    path: &mut Path<A>,
    is_flat: bool,
    aside: i32,
    arguments: &[i32],
) -> Result<(), AllocError>
    ensures { OnOk result (path.new ≡ fold drawn path.old (even_curves_from is_flat aside arguments.now)) }
{
    if arguments.len() < 4 {
        return Ok(());
    }
    path.draw(even_curve_of(is_flat, aside, arguments))?;
    draw_straight_curves(path, is_flat, behind(arguments, 4))
}

/// Draws curves that begin and end flat, or begin and end upright: `hhcurveto` and `vvcurveto`.
fn draw_even_curves<A: Allocator>(
    path: &mut Path<A>,
    is_flat: bool,
    arguments: &[i32],
) -> Result<(), AllocError>
    ensures { OnOk result (path.new ≡ fold drawn path.old (even_curves is_flat arguments.now)) }
{
    match arguments {
        [] => Ok(()),
        [first, rest @ ..] => {
            if arguments.len() % 2 == 1 {
                draw_even_curves_from(path, is_flat, *first, rest)
            } else {
                draw_even_curves_from(path, is_flat, 0, arguments)
            }
        }
    }
}

/// The one argument that is left, or 0.
fn only_left(arguments: &[i32]) -> i32
    ensures { result ≡ only_left arguments.now }
{
    match arguments {
        [aside] => *aside,
        _ => 0,
    }
}

/// A curve with the first four arguments that begins flat and ends upright, or the other way round. An argument behind
/// them, if it is the only one, says how far it ends aside.
#[tactic(auto, unfolding(crate::specs::Steps::turning_curve))]
fn turning_curve_of(is_flat: bool, arguments: &[i32]) -> Step
    requires { 4 ≤ length arguments.now }
    ensures { let a = number arguments.now in
        result ≡ turning_curve is_flat (only_left (drop 4 arguments.now)) (a 0) (a 1) (a 2) (a 3) }
{
    let aside = only_left(behind(arguments, 4));
    let (from, to) = (number(arguments, 0), number(arguments, 3));
    let middle = point_of(arguments, 1);
    if is_flat {
        curve(point(from, 0), middle, point(aside, to))
    } else {
        curve(point(0, from), middle, point(to, aside))
    }
}

/// Draws curves that begin flat and end upright, and the other way round, in turn: `hvcurveto` and `vhcurveto`.
fn draw_turning_curves<A: Allocator>(
    path: &mut Path<A>,
    is_flat: bool,
    arguments: &[i32],
) -> Result<(), AllocError>
    ensures { OnOk result (path.new ≡ fold drawn path.old (turning_curves is_flat arguments.now)) }
{
    let mut flat = is_flat;
    let mut rest = arguments;
    while rest.len() >= 4 {
        path.draw(turning_curve_of(flat, rest))?;
        flat = !flat;
        rest = behind(rest, 4);
    }
    Ok(())
}

/// The step back by so much.
#[tactic(auto, unfolding(crate::specs::Steps::back_by))]
fn back_by(by: i32) -> i32
    ensures { result ≡ back_by by }
{
    0i32.saturating_sub(by)
}

/// Draws two curves.
fn draw_two<A: Allocator>(path: &mut Path<A>, first: Step, second: Step) -> Result<(), AllocError>
    ensures { OnOk result (path.new ≡ drawn (drawn path.old first) second) }
{
    path.draw(first)?;
    path.draw(second)
}

/// The first curve of `hflex`.
fn flat_start(arguments: &[i32]) -> Step
    ensures { let a = number arguments.now in result ≡ curve (a 0) (pos 0) (a 1) (a 2) (a 3) (pos 0) }
{
    let start = point(number(arguments, 0), 0);
    let end = point(number(arguments, 3), 0);
    curve(start, point_of(arguments, 1), end)
}

/// The second curve of `hflex`.
fn flat_end(arguments: &[i32]) -> Step
    ensures { let a = number arguments.now in result ≡ curve (a 4) (pos 0) (a 5) (back_by (a 2)) (a 6) (pos 0) }
{
    let start = point(number(arguments, 4), 0);
    let middle = point(number(arguments, 5), back_by(number(arguments, 2)));
    curve(start, middle, point(number(arguments, 6), 0))
}

/// Draws two curves that begin and end flat: `hflex`.
fn draw_flat_flex<A: Allocator>(path: &mut Path<A>, arguments: &[i32]) -> Result<(), AllocError>
    ensures { OnOk result (path.new ≡ fold drawn path.old (flat_flex arguments.now)) }
{
    if arguments.len() < 7 {
        return Ok(());
    }
    draw_two(path, flat_start(arguments), flat_end(arguments))
}

/// The first curve of `hflex1`.
fn even_start(arguments: &[i32]) -> Step
    ensures { let a = number arguments.now in result ≡ curve (a 0) (a 1) (a 2) (a 3) (a 4) (pos 0) }
{
    let end = point(number(arguments, 4), 0);
    curve(point_of(arguments, 0), point_of(arguments, 2), end)
}

/// The second curve of `hflex1`.
#[tactic(auto, unfolding(crate::specs::Steps::even_back))]
fn even_end(arguments: &[i32]) -> Step
    ensures { let a = number arguments.now in
        result ≡ curve (a 5) (pos 0) (a 6) (a 7) (a 8) (even_back arguments.now) }
{
    let start = point(number(arguments, 5), 0);
    let up = stepped(number(arguments, 1), number(arguments, 3));
    let back = back_by(stepped(up, number(arguments, 7)));
    let end = point(number(arguments, 8), back);
    curve(start, point_of(arguments, 6), end)
}

/// Draws two curves that meet flat: `hflex1`.
fn draw_even_flex<A: Allocator>(path: &mut Path<A>, arguments: &[i32]) -> Result<(), AllocError>
    ensures { OnOk result (path.new ≡ fold drawn path.old (even_flex arguments.now)) }
{
    if arguments.len() < 9 {
        return Ok(());
    }
    draw_two(path, even_start(arguments), even_end(arguments))
}

/// The end of a curve that is as high or as far right as where the first of two curves begins.
#[tactic(auto, unfolding(crate::specs::Steps::nearer_end))]
fn nearer_end(dx: i32, dy: i32, by: i32) -> FixedPoint
    ensures { result ≡ nearer_end dx dy by }
{
    if dy.unsigned_abs() < dx.unsigned_abs() {
        point(by, back_by(dy))
    } else {
        point(back_by(dx), by)
    }
}

/// The sum of five arguments, every second one from a number on.
#[tactic(auto, unfolding(crate::specs::Steps::sum_of))]
fn sum_at(arguments: &[i32], k: usize) -> i32
    requires { k < 2 ^ 32 }
    ensures { let a = number arguments.now in result ≡ sum_of (a k) (a (k + 2)) (a (k + 4)) (a (k + 6)) (a (k + 8)) }
{
    let two = stepped(number(arguments, k), number(arguments, k + 2));
    let four = stepped(
        stepped(two, number(arguments, k + 4)),
        number(arguments, k + 6),
    );
    stepped(four, number(arguments, k + 8))
}

/// Draws two curves that end as high or as far right as they begin: `flex1`.
fn draw_nearer_flex<A: Allocator>(path: &mut Path<A>, arguments: &[i32]) -> Result<(), AllocError>
    ensures { OnOk result (path.new ≡ fold drawn path.old (nearer_flex arguments.now)) }
{
    if arguments.len() < 11 {
        return Ok(());
    }
    let end = nearer_end(
        sum_at(arguments, 0),
        sum_at(arguments, 1),
        number(arguments, 10),
    );
    let second = curve(point_of(arguments, 6), point_of(arguments, 8), end);
    draw_two(path, curve_of(arguments), second)
}

/// An operator that draws.
#[derive(Clone, Copy)]
pub(crate) enum DrawOperator {
    RLineTo,
    HLineTo,
    VLineTo,
    RRCurveTo,
    RCurveLine,
    RLineCurve,
    VVCurveTo,
    HHCurveTo,
    VHCurveTo,
    HVCurveTo,
    HFlex,
    Flex,
    HFlex1,
    Flex1,
}

/// Draws the steps of an operator.
pub(crate) fn draw_steps<A: Allocator>(
    path: &mut Path<A>,
    operator: DrawOperator,
    arguments: &[i32],
) -> Result<(), AllocError>
    ensures { OnOk result (path.new ≡ fold drawn path.old (steps_of operator arguments.now)) }
{
    match operator {
        DrawOperator::RLineTo => draw_lines(path, arguments),
        DrawOperator::HLineTo => draw_crossed_lines(path, true, arguments),
        DrawOperator::VLineTo => draw_crossed_lines(path, false, arguments),
        DrawOperator::RRCurveTo => draw_curves(path, arguments),
        DrawOperator::RCurveLine => draw_curves_then_line(path, arguments),
        DrawOperator::RLineCurve => draw_lines_then_curve(path, arguments),
        DrawOperator::VVCurveTo => draw_even_curves(path, false, arguments),
        DrawOperator::HHCurveTo => draw_even_curves(path, true, arguments),
        DrawOperator::VHCurveTo => draw_turning_curves(path, false, arguments),
        DrawOperator::HVCurveTo => draw_turning_curves(path, true, arguments),
        DrawOperator::HFlex => draw_flat_flex(path, arguments),
        DrawOperator::Flex => draw_curves(path, arguments),
        DrawOperator::HFlex1 => draw_even_flex(path, arguments),
        DrawOperator::Flex1 => draw_nearer_flex(path, arguments),
    }
}
