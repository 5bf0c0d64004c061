//! Messages of a source, one after the other.
ghost use Rattle.std.specs.Prelude.{◌≡◌, ◌≤◌, [], drop, length, IfOk, IfErr, slice_range};
ghost use Rattle.lsp_serve.specs.Reading.{coming, NextIs, StopFits, ReadsOn, EndFits};

use crate::front::{Fault, Front, read_front};
use devices::{NoMemory, Source};
use std::alloc::Global;
use std::marker::Model;

/// How many bytes a read asks for.
const CHUNK: usize = 65536;

/// Why there is no next message.
#[derive(Clone, Copy, Debug, PartialEq, Eq)]
pub enum FrameError {
    /// The input does not go on as a message.
    Fault(Fault),
    /// The input ends within a message.
    CutOff,
    /// A read failed.
    ReadFault,
    /// Memory ran out.
    NoMemory,
}

/// Reads messages from a source. It keeps what was read behind the last one.
#[derive(Drop)]
pub struct Frames {
    alloc: Global,
    /// What was read and is no message yet.
    unread: Vec<u8>,
    /// Where reads put their bytes.
    chunk: Vec<u8>,
}

impl Model for Frames {
    ghost use Rattle.std.specs.Prelude.{List, ℕ, ◌<◌, vec_len};

    ghost Value = { List ℕ };

    ghost view = { λ frames. frames.unread.items };

    ghost invariant = { λ frames. 0 < vec_len frames.chunk };
}

impl Frames {
    /// A reader that has read nothing.
    pub fn new(alloc: Global) -> Result<Frames, NoMemory>
        ensures { IfOk result (λ frames. frames ≡ []) }
    {
        Ok(Frames {
            alloc,
            unread: Vec::new(alloc),
            chunk: vec![in alloc; 0u8; CHUNK]?,
        })
    }

    /// The content of the next message, or `None` at the end of the input.
    pub fn next<S: Source>(&mut self, source: &mut S) -> Result<Option<Vec<u8>>, FrameError>
        ensures next { IfOk result (λ message. NextIs message (coming self.old (S.left source.old)) self.new (S.left source.new)) }
        ensures later { S.faults source.old ≤ S.faults source.new }
        ensures stopped { IfErr result (λ e. StopFits e (coming self.old (S.left source.old)) self.new (S.left source.new)
            (S.faults source.old) (S.faults source.new)) }
    {
        'reading: for _turn in 0..u64::MAX {
            match read_front(self.unread.as_slice()) {
                Err(fault) => return Err(FrameError::Fault(fault)),
                Ok(Front::Whole { start, end }) => match self.take(start, end) {
                    Ok(content) => return Ok(Some(content)),
                    Err(_) => return Err(FrameError::NoMemory),
                },
                Ok(Front::Partial) => match self.read_on(source) {
                    Ok(true) => {}
                    Ok(false) => return self.at_end(),
                    Err(error) => return Err(error),
                },
            }
        }
        Err(FrameError::NoMemory)
    }

    /// Takes what lies between two places, and forgets all up to its end.
    fn take(&mut self, start: usize, end: usize) -> Result<Vec<u8>, NoMemory>
        requires order { start ≤ end }
        requires within { end ≤ length self.old }
        ensures content { IfOk result (λ content. content.items ≡ slice_range self.old start end) }
        ensures rest { IfOk result (λ _. self.new ≡ drop end self.old) }
    {
        let content = Vec::from_slice(self.alloc, &self.unread[start..end])?;
        let rest = Vec::from_slice(self.alloc, &self.unread[end..])?;
        self.unread = rest;
        Ok(content)
    }

    /// Reads once, and answers whether bytes came.
    fn read_on<S: Source>(&mut self, source: &mut S) -> Result<bool, FrameError>
        ensures read { IfOk result (λ more. ReadsOn more self.old (S.left source.old) self.new (S.left source.new)) }
        ensures later { S.faults source.old ≤ S.faults source.new }
        ensures stopped { IfErr result (λ e. StopFits e (coming self.old (S.left source.old)) self.new (S.left source.new)
            (S.faults source.old) (S.faults source.new)) }
    {
        match source.read(self.chunk.as_mut_slice()) {
            Ok(0) => Ok(false),
            Ok(count) => match self.unread.extend_from_slice(&self.chunk[..count]) {
                Ok(()) => Ok(true),
                Err(_) => Err(FrameError::NoMemory),
            },
            Err(_) => Err(FrameError::ReadFault),
        }
    }

    /// What the end of the input means.
    fn at_end(&self) -> Result<Option<Vec<u8>>, FrameError>
        ensures { EndFits result self.now }
    {
        if self.unread.is_empty() {
            Ok(None)
        } else {
            Err(FrameError::CutOff)
        }
    }
}
