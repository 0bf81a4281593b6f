//! The steps of a stimulus, read one after another.

use crate::judge::{LineJudge, NextLine};
use crate::piece::Piece;
use crate::reason::Reason;
use bit_ops::Bits;
use io_edge::Source;
use std::alloc::{AllocError, Global};
use std::marker::Model;
use sv_base::Face;

/// What a step sets.
#[derive(Clone, Copy, Debug, PartialEq, Eq)]
pub enum StepKind {
    /// Data inputs, and idle inputs.
    Values,
    /// Clocks, and idle inputs of one bit.
    Clocks,
}

/// Why no step is given.
#[derive(Clone, Copy, Debug, PartialEq, Eq)]
pub enum StepFault {
    /// The line of this number is refused, after which nothing is read.
    Bad { line: u64, reason: Reason },
    /// A read of the source failed.
    ReadFault,
}

/// A reader of the steps of one stimulus file. It reads a piece at a time, and only where its buffer has no whole line.
#[derive(Debug, Drop)]
pub struct StepReader {
    judge: LineJudge,
    piece: Piece,
}

impl Model for StepReader {
    ghost use Rattle.stimulus_reader.specs.Reading.{Reading};

    ghost Value = { Reading };

    ghost use Rattle.stimulus_reader.specs.code.Judging.{reading_with};

    ghost view = { λ reader. reading_with reader.judge reader.piece };
}

impl StepReader {
    ghost use Rattle.std.specs.Prelude.{◌≡◌, ◌≤◌, List, ℕ, length, map, slice_get, slice_index, IfOk, IfErr, IfSome, IfNone, OnErr, None, Some};
    ghost use Rattle.std.specs.List.{AllByRecursion, IsDistinct};
    ghost use Rattle.std.specs.Str.{bytes_eq};
    ghost use Rattle.bit_ops.specs.Width.{IsWidth};
    ghost use Rattle.sv_base.specs.declared.face.Class.TheVariants.{Clock};
    ghost use Rattle.sv_base.specs.Classes.{is_value, is_clock, level_word, words_of_class};
    ghost use Rattle.io_edge.specs.Told.{Took};
    ghost use Rattle.stimulus_reader.specs.Reading.{at_front, Reads, SawEnd, IsTold, IsToldAgain, IsStepCause, IsInputAt, KeepsUnlessStep, word_of};

    /// A reader before the first byte of a stimulus for a design with this face. It reserves its memory here.
    pub fn new(alloc: Global, face: &Face) -> Result<StepReader, AllocError>
        requires widths { AllByRecursion (λ p. IsWidth p.width) face.now.ports }
        requires clocks { AllByRecursion (λ p. p.class ≡ Clock → p.width ≡ 1) face.now.ports }
        requires distinct { IsDistinct bytes_eq (map (λ p. p.name) face.now.ports) }
        ensures { IfOk result (λ reader. reader ≡ at_front face.now.ports) }
    {
        Ok(StepReader {
            judge: LineJudge::new(alloc, face)?,
            piece: Piece::new(alloc)?,
        })
    }

    /// What comes next: a step, whose values the reader then has, or `None` at the end of the bytes, or the first bad
    /// line, which each later call tells again. It reads a piece of the source only where no whole line is in its
    /// buffer, and none after the end. After a read that failed no byte is lost, and the next call reads on.
    pub fn next_step<S: Source>(&mut self, source: &mut S) -> Result<Option<StepKind>, StepFault>
        // What was taken from the source, told or not, and what it makes of the stimulus, whatever may follow.
        ensures reads { (taken : List ℕ) × Took (S.left source.old) (S.left source.new) taken
            × Reads self.old self.new result taken }
        ensures end { SawEnd self.old (S.left source.old) → SawEnd self.new (S.left source.new) }
        ensures ports { self.new.ports ≡ self.old.ports }
        ensures told { IfErr result (IsTold self.new) }
        ensures again { IsToldAgain self.old self.new result }
        ensures untouched { IfSome self.old.bad (λ bad. source.new ≡ source.old) }
        ensures good { IfOk result (λ next. self.new.bad ≡ None) }
        ensures values { KeepsUnlessStep self.old self.new result }
        ensures cause { IfErr result
            (λ fault. IsStepCause fault (S.faults source.old) (S.faults source.new)) }
        ensures ground { S.same_ground source.old source.new }
        ensures later { S.faults source.old ≤ S.faults source.new }
    {
        if let Some(fault) = self.judge.fault() {
            return Err(fault);
        }
        'lines: loop {
            match self.judge.one_line(&mut self.piece, source)? {
                NextLine::Skipped => {}
                NextLine::End => return Ok(None),
                NextLine::Step(kind) => return Ok(Some(kind)),
            }
        }
    }

    /// The number of the line that was given or refused last, counted from 1, and 0 before any.
    pub fn line_number(&self) -> u64
        ensures { result ≡ self.now.last }
    {
        self.judge.line_number()
    }

    /// The value of the input at this place among the ports, counted from 0: zero, before a step sets it.
    pub fn value(&self, port: usize) -> Bits
        requires input { IsInputAt self.now.ports port }
        ensures word { result.word ≡ slice_index self.now.values port }
        ensures width { result.width ≡ slice_index (map (λ p. p.width) self.now.ports) port }
    {
        self.judge.value(port)
    }

    /// The values of the data inputs, in port order.
    pub fn inputs(&self) -> &[Bits]
        ensures words { map (λ v. v.word) result.now
            ≡ words_of_class is_value self.now.ports self.now.values }
        ensures widths { map (λ v. v.width) result.now
            ≡ words_of_class is_value self.now.ports (map (λ p. p.width) self.now.ports) }
    {
        self.judge.inputs()
    }

    /// The levels of the clocks, in port order.
    pub fn levels(&self) -> &[bool]
        ensures words { map level_word result.now
            ≡ words_of_class is_clock self.now.ports self.now.values }
        ensures count { length result.now
            ≡ length (words_of_class is_clock self.now.ports (map (λ p. p.width) self.now.ports)) }
    {
        self.judge.levels()
    }

    /// The word that the message of the bad line names, empty where it names none, and before a bad line was told.
    pub fn word(&self) -> &[u8]
        ensures { result.now ≡ word_of self.now.bad }
    {
        self.judge.word()
    }

    /// Gives that word as the reader's own buffer. Takes no memory.
    pub fn into_word(self) -> Vec<u8>
        ensures { result.items ≡ word_of self.bad }
    {
        self.judge.into_word()
    }
}
