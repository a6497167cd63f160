//! The machine that executes a charstring.
ghost use Rattle.std.specs.Prelude.{◌≡◌, ◌+◌, ◌<◌, ◌≤◌, ◌^◌, MatchResult, Ok, IfOk, length};
ghost use Rattle.aat_read_charstrings.specs.Indexes.{IsInside, IsWhole};
ghost use Rattle.aat_read_charstrings.specs.Reading.{Makes, Refuses};
ghost use Rattle.aat_read_charstrings.specs.Machines.{bias_of, drawn_glyph, move_step, subroutine_at};

use crate::index::{Index, Span, fault_of, object_at, past};
use crate::integers::code_at;
use crate::operators::{MoveOperator, Operator, operator_of};
use crate::path::{CubicSegment, FixedPoint, Path, stepped};
use crate::steps::{DrawOperator, draw_steps, number, point};
use crate::tokens::{number_at, token_end};
use aat_bytes::{FaultKind, ReadError};
use std::alloc::Allocator;
use std::marker::Model;

/// How many numbers the stack holds.
pub(crate) const STACK_LIMIT: usize = 48;
/// How many subroutines may be within each other.
pub(crate) const CALL_LIMIT: usize = 10;
/// How many stems may have hints.
pub(crate) const HINT_LIMIT: usize = 96;
/// How many numbers and operators of a charstring and its subroutines are executed.
pub(crate) const TURN_LIMIT: u32 = 200_000;

/// A table, and the subroutines that its charstrings may call. A contract sees the record of these.
#[derive(Drop)]
pub(crate) struct Program<'a> {
    pub(crate) cff: &'a [u8],
    pub(crate) globals: Index,
    pub(crate) locals: Index,
}

impl<'a> Model for Program<'a> {
    ghost use Rattle.aat_read_charstrings.specs.Programs as programs;
    ghost use Rattle.aat_read_charstrings.specs.Indexes.{IsWhole};

    ghost Value = { programs.Program };

    ghost view = { λ m. record { cff = m.cff.now; globals = m.globals; locals = m.locals } };

    ghost invariant = { λ m. IsWhole m.cff.now m.globals × IsWhole m.cff.now m.locals };
}

/// What is added to the number of a subroutine, of so many.
fn bias_of(count: u16) -> i32
    ensures { result ≡ bias_of count }
{
    if count < 1240 {
        107
    } else if count < 33900 {
        1131
    } else {
        32768
    }
}

/// The subroutine of a number in 65536ths.
fn subroutine_at(cff: &[u8], index: Index, number: i32) -> Result<Span, aat_bytes::Fault>
    requires { IsWhole cff.now index }
    ensures { result ≡ subroutine_at cff.now index number }
{
    let object = stepped(number.div_euclid(65536), bias_of(index.count));
    if object < 0 {
        return Err(fault_of(FaultKind::Missing, index.offsets));
    }
    object_at(cff, index, object.unsigned_abs())
}

/// How an operator moves the pen, if its arguments are there.
fn move_step(operator: MoveOperator, arguments: &[i32]) -> Option<FixedPoint>
    ensures { result ≡ move_step operator arguments.now }
{
    let count = arguments.len();
    match operator {
        MoveOperator::RMoveTo => {
            if count < 2 {
                return None;
            }
            Some(point(number(arguments, count - 2), number(arguments, count - 1)))
        }
        MoveOperator::HMoveTo => {
            if count < 1 {
                return None;
            }
            Some(point(number(arguments, count - 1), 0))
        }
        MoveOperator::VMoveTo => {
            if count < 1 {
                return None;
            }
            Some(point(0, number(arguments, count - 1)))
        }
    }
}

/// What is read next, where calls return to, the numbers of the stack, how many stems have hints, and what is drawn. A
/// contract sees it as `Execution`.
#[derive(Drop)]
pub(crate) struct Machine<A: Allocator> {
    at: Span,
    calls: Vec<Span, A>,
    stack: Vec<i32, A>,
    hints: u8,
    path: Path<A>,
    is_done: bool,
}

impl<A: Allocator> Model for Machine<A> {
    ghost use Rattle.aat_read_charstrings.specs.Machines.{Execution};

    ghost Value = { Execution };

    ghost view = { λ m. record {
      at = m.at;
      calls = m.calls.items;
      stack = m.stack.items;
      hints = m.hints;
      drawing = m.path;
      is_done = m.is_done;
    } };
}

impl<A: Allocator> Machine<A> {
    ghost use Rattle.aat_read_charstrings.specs.Machines.{called, counted, finished, mask_skipped, moved_by, performed, pushed, returned, started, steps_drawn, turned};

    /// In front of a charstring.
    fn new(alloc: A, at: Span) -> Machine<A>
    where
        A: Copy,
        ensures { result ≡ started at }
    {
        Machine {
            at,
            calls: Vec::new(alloc),
            stack: Vec::new(alloc),
            hints: 0,
            path: Path::new(alloc),
            is_done: false,
        }
    }

    /// Puts a number on the stack.
    fn push(&mut self, place: usize, number: i32) -> Result<(), ReadError>
        ensures { Makes result (pushed place self.old number) self.new }
    {
        if self.stack.len() >= STACK_LIMIT {
            return Err(ReadError::Fault(past(place)));
        }
        self.stack.push(number)?;
        Ok(())
    }

    /// Counts stems, two numbers each.
    fn count_stems(&mut self, place: usize) -> Result<(), ReadError>
        ensures stems { Makes result (counted place self.old) self.new }
        ensures at { IfOk result (λ _. self.new.at ≡ self.old.at) }
    {
        let hints = self.hints as usize + self.stack.len() / 2;
        if hints > HINT_LIMIT {
            return Err(ReadError::Fault(past(place)));
        }
        self.hints = hints as u8;
        self.stack.clear();
        Ok(())
    }

    /// Passes over a mask, which has a bit for each stem.
    fn skip_mask(&mut self, place: usize) -> Result<(), ReadError>
        requires { self.old.at.start < 2 ^ 63 }
        ensures { Makes result (mask_skipped place self.old) self.new }
    {
        self.count_stems(place)?;
        self.at.start += (self.hints as usize + 7) / 8;
        Ok(())
    }

    /// Moves the pen.
    fn move_pen(&mut self, place: usize, operator: MoveOperator) -> Result<(), ReadError>
        ensures { Makes result (moved_by place self.old operator) self.new }
    {
        let Some(by) = move_step(operator, &self.stack) else {
            return Err(ReadError::Fault(past(place)));
        };
        self.path.move_by(by)?;
        self.stack.clear();
        Ok(())
    }

    /// Draws with an operator.
    fn draw(&mut self, operator: DrawOperator) -> Result<(), ReadError>
        ensures { Makes result (Ok (steps_drawn self.old operator)) self.new }
    {
        draw_steps(&mut self.path, operator, &self.stack)?;
        self.stack.clear();
        Ok(())
    }

    /// Calls the subroutine whose number is the last of the stack.
    fn call(&mut self, place: usize, cff: &[u8], index: Index) -> Result<(), ReadError>
        requires { IsWhole cff.now index }
        ensures { Makes result (called place cff.now index self.old) self.new }
    {
        let Some(number) = self.stack.last().copied() else {
            return Err(ReadError::Fault(past(place)));
        };
        if self.calls.len() >= CALL_LIMIT {
            return Err(ReadError::Fault(past(place)));
        }
        let at = subroutine_at(cff, index, number)?;
        self.calls.push(self.at)?;
        self.at = at;
        self.stack.truncate(self.stack.len() - 1);
        Ok(())
    }

    /// Returns from a subroutine.
    fn return_back(&mut self, place: usize) -> Result<(), ReadError>
        ensures { Makes result (returned place self.old) self.new }
    {
        let Some(at) = self.calls.last().copied() else {
            return Err(ReadError::Fault(fault_of(FaultKind::Missing, place)));
        };
        self.at = at;
        self.calls.truncate(self.calls.len() - 1);
        Ok(())
    }

    /// Ends the glyph.
    fn finish(&mut self, place: usize) -> Result<(), ReadError>
        ensures { Makes result (finished place self.old) self.new }
    {
        if self.stack.len() >= 4 {
            return Err(ReadError::Fault(fault_of(FaultKind::UnknownFormat, place)));
        }
        self.path.close()?;
        self.is_done = true;
        Ok(())
    }

    /// Performs an operator.
    fn perform(
        &mut self,
        place: usize,
        program: &Program<'_>,
        operator: Operator,
    ) -> Result<(), ReadError>
        requires { self.old.at.start < 2 ^ 63 }
        ensures { Makes result (performed place program.now self.old operator) self.new }
    {
        match operator {
            Operator::Stems => self.count_stems(place),
            Operator::Mask => self.skip_mask(place),
            Operator::Move(operator) => self.move_pen(place, operator),
            Operator::Draw(operator) => self.draw(operator),
            Operator::CallLocal => self.call(place, program.cff, program.locals),
            Operator::CallGlobal => self.call(place, program.cff, program.globals),
            Operator::Return => self.return_back(place),
            Operator::End => self.finish(place),
        }
    }

    /// Executes the next number or operator.
    fn turn(&mut self, program: &Program<'_>) -> Result<(), ReadError>
        ensures { Makes result (turned program.now self.old) self.new }
    {
        let place = self.at.start;
        let Some(end) = token_end(program.cff, self.at) else {
            return Err(ReadError::Fault(past(place)));
        };
        self.at.start = end;
        if program.cff[place] >= 32 || program.cff[place] == 28 {
            return self.push(place, number_at(program.cff, place));
        }
        match operator_of(code_at(program.cff, place)) {
            Some(operator) => self.perform(place, program, operator),
            None => Err(ReadError::Fault(fault_of(FaultKind::UnknownFormat, place))),
        }
    }

    /// The segments that are drawn.
    fn into_segments(self) -> Vec<CubicSegment, A>
        ensures { result.items ≡ self.drawing.segments }
    {
        let Machine {
            at: _,
            calls: _,
            stack: _,
            hints: _,
            path,
            is_done: _,
        } = self;
        path.into_segments()
    }
}

/// What a charstring draws.
pub(crate) fn drawn_glyph<A: Allocator + Copy>(
    alloc: A,
    program: &Program<'_>,
    at: Span,
) -> Result<Vec<CubicSegment, A>, ReadError>
    ensures { MatchResult result
        (λ segments. drawn_glyph program.now at ≡ Ok segments.items)
        (λ error. Refuses (drawn_glyph program.now at) error) }
{
    let mut machine = Machine::new(alloc, at);
    for _turn in 0..TURN_LIMIT {
        machine.turn(program)?;
        if machine.is_done {
            return Ok(machine.into_segments());
        }
    }
    Err(ReadError::Fault(past(at.start)))
}
