//! Lines of a stimulus, judged one after another.

ghost use Rattle.std.specs.Prelude.{◌≡◌, ◌+◌, ◌-◌, ◌<◌, ◌≤◌, ◌^◌, length, take, drop, if◌then◌else◌};
ghost use Rattle.std.specs.Vec.{vec_capacity};

use crate::found::{Found, LINE_LIMIT, take_line};
use crate::line::{LineVerdict, read_line};
use crate::piece::Piece;
use crate::reason::Reason;
use crate::setting::Setting;
use crate::step::{StepFault, StepKind};
use crate::values::{copy_ports, gather_inputs, gather_levels, set_values, zeros};
use bit_ops::Bits;
use io_edge::{Failed, Source};
use std::alloc::{AllocError, Global};
use std::marker::Model;
use sv_base::{Face, Port};

/// What a line makes of the stimulus.
#[derive(Clone, Copy, Debug, PartialEq, Eq)]
pub enum NextLine {
    Skipped,
    End,
    Step(StepKind),
}

/// A judge of the lines of one stimulus file, which has the line that is read and the values that the steps so far have set.
#[derive(Debug, Drop)]
pub struct LineJudge {
    ports: Vec<Port>,
    // the number of the next line, counted from 1
    number: u64,
    // the place of the file where the next line begins
    at: u64,
    // the number of the line that was given or refused last
    last: u64,
    // the bytes of the next line that were read, and after a refusal the bad word
    line: Vec<u8>,
    // what the last step set
    settings: Vec<Setting>,
    // the value of each port, and of those the data inputs' and the clocks'
    values: Vec<Bits>,
    inputs: Vec<Bits>,
    levels: Vec<bool>,
    // why the last line is refused, where it is; then nothing more is read
    bad: Option<Reason>,
}

impl Model for LineJudge {
    ghost use Rattle.stimulus_reader.specs.Reading.{Reading};

    ghost Value = { Reading };

    ghost use Rattle.stimulus_reader.specs.code.Fields.{judged_of, IsSound};

    ghost view = { judged_of };

    ghost invariant = { IsSound };
}

impl LineJudge {
    ghost use Rattle.std.specs.Prelude.{◌≡◌, ◌+◌, ◌<◌, ◌≤◌, List, ℕ, [], length, map, slice_get, slice_index, IfOk, IfErr, IfSome, OnErr, None, Some};
    ghost use Rattle.std.specs.List.{AllByRecursion, IsDistinct};
    ghost use Rattle.std.specs.Str.{bytes_eq};
    ghost use Rattle.bit_ops.specs.Width.{IsWidth};
    ghost use Rattle.sv_base.specs.declared.face.Class.TheVariants.{Clock};
    ghost use Rattle.sv_base.specs.Classes.{is_value, is_clock, level_word, words_of_class};
    ghost use Rattle.io_edge.specs.Told.{Took};
    ghost use Rattle.stimulus_reader.specs.declared.found.TheConstants.{FILE_LIMIT};
    ghost use Rattle.stimulus_reader.specs.Stimulus.{span};
    ghost use Rattle.stimulus_reader.specs.Reading.{at_front, SawEnd, IsTold, IsStepCause, IsInputAt, word_of};
    ghost use Rattle.stimulus_reader.specs.code.Judging.{reading_with, fault_of, line_in, Judges, GivesLine, KeepsValues};

    /// A judge before the first line of a stimulus for a design with this face. It reserves its memory here.
    pub fn new(alloc: Global, face: &Face) -> Result<LineJudge, AllocError>
        requires widths { AllByRecursion (λ p. IsWidth p.width) face.now.ports }
        requires clocks { AllByRecursion (λ p. p.class ≡ Clock → p.width ≡ 1) face.now.ports }
        requires distinct { IsDistinct bytes_eq (map (λ p. p.name) face.now.ports) }
        ensures { IfOk result (λ judge. judge ≡ at_front face.now.ports) }
    {
        let ports = copy_ports(alloc, face.ports.as_slice())?;
        let values = zeros(alloc, &ports)?;
        let mut inputs = Vec::with_capacity(alloc, ports.len())?;
        gather_inputs(&ports, &values, &mut inputs);
        let mut levels = Vec::with_capacity(alloc, ports.len())?;
        gather_levels(&ports, &values, &mut levels);
        Ok(LineJudge {
            number: 1,
            at: 0,
            last: 0,
            line: Vec::with_capacity(alloc, LINE_LIMIT)?,
            settings: Vec::with_capacity(alloc, ports.len())?,
            ports,
            values,
            inputs,
            levels,
            bad: None,
        })
    }

    /// The fault of the line that was refused, where one was.
    pub fn fault(&self) -> Option<StepFault>
        ensures fault { result ≡ fault_of self.now.bad }
        ensures told { IfSome result (IsTold self.now) }
    {
        let reason = self.bad?;
        Some(StepFault::Bad {
            line: self.last,
            reason,
        })
    }

    /// What the next line makes of the stimulus.
    pub fn one_line<S: Source>(
        &mut self,
        piece: &mut Piece,
        source: &mut S,
    ) -> Result<NextLine, StepFault>
        requires { self.old.bad ≡ None }
        ensures gives { (taken : List ℕ) × Took (S.left source.old) (S.left source.new) taken
            × GivesLine (reading_with self.old piece.old) (reading_with self.new piece.new) result taken }
        ensures end { SawEnd (reading_with self.old piece.old) (S.left source.old)
            → SawEnd (reading_with self.new piece.new) (S.left source.new) }
        ensures ports { self.new.ports ≡ self.old.ports }
        ensures told { IfErr result (IsTold self.new) }
        ensures good { IfOk result (λ next. self.new.bad ≡ None) }
        ensures values { KeepsValues self.old self.new result }
        ensures on { IfOk result (λ next. next ≡ NextLine.Skipped → self.old.at < self.new.at) }
        ensures within { self.new.at ≤ FILE_LIMIT }
        ensures cause { IfErr result
            (λ fault. IsStepCause fault (S.faults source.old) (S.faults source.new)) }
        ensures ground { S.same_ground source.old source.new }
        ensures later { S.faults source.old ≤ S.faults source.new }
    {
        match take_line(self.at, &mut self.line, piece, source) {
            Err(Failed) => Err(StepFault::ReadFault),
            Ok(Found::End) => Ok(NextLine::End),
            Ok(Found::Long(reason)) => {
                let number = self.number;
                self.line.clear();
                self.last = number;
                self.bad = Some(reason);
                Err(StepFault::Bad {
                    line: number,
                    reason,
                })
            }
            Ok(Found::Line { ended }) => self.judge(ended),
        }
    }

    // What the line that is kept makes of the stimulus.
    fn judge(&mut self, ended: bool) -> Result<NextLine, StepFault>
        requires good { self.old.bad ≡ None }
        requires some { 0 < span (line_in self.old ended) }
        requires within { self.old.at + span (line_in self.old ended) ≤ FILE_LIMIT }
        ensures judges { Judges self.old self.new ended result }
        ensures in_file { self.new.at ≤ FILE_LIMIT }
    {
        let number = self.number;
        self.number += 1;
        self.at += bytes_of(self.line.len(), ended);
        match read_line(&self.ports, &self.line, ended, &mut self.settings) {
            LineVerdict::Skip => {
                self.line.clear();
                Ok(NextLine::Skipped)
            }
            LineVerdict::Step(kind) => {
                self.line.clear();
                self.last = number;
                set_values(&self.settings, &mut self.values);
                gather_inputs(&self.ports, &self.values, &mut self.inputs);
                gather_levels(&self.ports, &self.values, &mut self.levels);
                Ok(NextLine::Step(kind))
            }
            LineVerdict::Bad(bad) => {
                let reason = bad.reason;
                let len = bad.word.len();
                let behind = bad.behind;
                keep_word(&mut self.line, len, behind);
                self.last = number;
                self.bad = Some(reason);
                Err(StepFault::Bad {
                    line: number,
                    reason,
                })
            }
        }
    }

    /// The number of the line that was given or refused last, counted from 1, and 0 before any.
    pub fn line_number(&self) -> u64
        ensures { result ≡ self.now.last }
    {
        self.last
    }

    /// The value of the input at this place among the ports, counted from 0: zero, before a step sets it.
    pub fn value(&self, port: usize) -> Bits
        requires input { IsInputAt self.now.ports port }
        ensures word { result.word ≡ slice_index self.now.values port }
        ensures width { result.width ≡ slice_index (map (λ p. p.width) self.now.ports) port }
    {
        self.values[port]
    }

    /// The values of the data inputs, in port order.
    pub fn inputs(&self) -> &[Bits]
        ensures words { map (λ v. v.word) result.now
            ≡ words_of_class is_value self.now.ports self.now.values }
        ensures widths { map (λ v. v.width) result.now
            ≡ words_of_class is_value self.now.ports (map (λ p. p.width) self.now.ports) }
    {
        self.inputs.as_slice()
    }

    /// The levels of the clocks, in port order.
    pub fn levels(&self) -> &[bool]
        ensures words { map level_word result.now
            ≡ words_of_class is_clock self.now.ports self.now.values }
        ensures count { length result.now
            ≡ length (words_of_class is_clock self.now.ports (map (λ p. p.width) self.now.ports)) }
    {
        self.levels.as_slice()
    }

    /// The word that the message of the bad line names, empty where it names none, and before a bad line was told.
    pub fn word(&self) -> &[u8]
        ensures { result.now ≡ word_of self.now.bad }
    {
        match self.bad {
            Some(_) => self.line.as_slice(),
            None => &[],
        }
    }

    /// Gives that word as the judge's own buffer. Takes no memory.
    pub fn into_word(self) -> Vec<u8>
        ensures { result.items ≡ word_of self.bad }
    {
        let LineJudge { mut line, bad, .. } = self;
        if bad.is_none() {
            line.clear();
        }
        line
    }
}

// Leaves of a line only this many bytes, behind which so many stand.
fn keep_word(line: &mut Vec<u8>, len: usize, behind: usize)
    requires { len + behind ≤ length line.old.items }
    ensures word { line.new.items
        ≡ take len (drop (length line.old.items - (len + behind)) line.old.items) }
    ensures capacity { vec_capacity line.new ≡ vec_capacity line.old }
{
    let before = line.len() - (len + behind);
    line.rotate_left(before);
    line.truncate(len);
}

// How many bytes of the file a line takes.
fn bytes_of(len: usize, ended: bool) -> u64
    requires { len < 2 ^ 63 }
    ensures { result ≡ len + (if ended then 1 else 0) }
{
    if ended { len as u64 + 1 } else { len as u64 }
}
