//! A source and a sink in memory that fail at chosen calls.
ghost use Rattle.std.specs.Prelude.{◌⊎◌, vec_capacity, ◌≡◌, ℕ, ◌+◌, ◌-◌, ◌^◌, ◌<◌, ◌≤◌, ◌↔◌, ◌++◌, List, [], min, length, take, drop, Some, IfOk, IsErr, vec_len};
ghost use Rattle.std.specs.List.{Contains};
ghost use Rattle.std.specs.Io.{ReadsAtMost, WritesAtMost};
ghost use Rattle.std.specs.Io.KnownBytes.{ReadConsumes, WriteAppends};
ghost use Rattle.devices.specs.Faults.{HasCause, faults_after};
ghost use Rattle.devices.specs.MemoryStreams.{SourceInMemory, SinkInMemory, source_over, sink_of, SameSource, SameSink};

use crate::slice::copy_prefix;
use crate::stream::{Failed, Sink, Source};
use std::alloc::Global;
use std::marker::Model;
use text_pos::NoMemory;

/// A source over a copy of given bytes. Each call gives at most `step` bytes, and the calls whose numbers are listed
/// fail, counted from 0.
#[derive(Drop)]
pub struct MemSource {
    bytes: Vec<u8>,
    at: usize,
    step: usize,
    fails: Vec<u32>,
    calls: u32,
    faults: u64,
}

impl Model for MemSource {
    ghost Value = { SourceInMemory };

    ghost view = { λ s. record { left = drop s.at s.bytes.items; step = s.step; fails = s.fails.items; calls = s.calls; faults = s.faults } };

    ghost invariant = { λ s. (s.at ≤ vec_len s.bytes) × (0 < s.step) };
}

impl MemSource {
    /// A source that gives `bytes`. The only refusal comes when memory runs out.
    pub fn new(
        alloc: Global,
        bytes: &[u8],
        step: usize,
        fails: &[u32],
    ) -> Result<MemSource, NoMemory>
        requires { 1 ≤ step }
        ensures { IfOk result (λ s. s ≡ source_over bytes.now step fails.now) }
    {
        Ok(MemSource {
            bytes: Vec::from_slice(alloc, bytes)?,
            at: 0,
            step,
            fails: Vec::from_slice(alloc, fails)?,
            calls: 0,
            faults: 0,
        })
    }
}

impl Source for MemSource {
    ghost left = { λ s. Some s.left };

    ghost faults = { λ s. s.faults };

    fn read(&mut self, buf: &mut [u8]) -> Result<usize, Failed>
        ensures bound { ReadsAtMost result buf.new }
        ensures bytes { ReadConsumes (Some self.old.left) (Some self.new.left) result buf.new }
        ensures cause { HasCause self.old.faults self.new.faults result }

        // What the call gives, when it fails, and what it counts.
        ensures count { IfOk result (λ n. n ≡ min (min (length self.old.left) (length buf.old)) self.old.step) }
        ensures listed { IsErr result ↔ Contains self.old.fails self.old.calls }
        ensures faults { self.new.faults ≡ faults_after result self.old.faults }
        ensures calls { self.new.calls ≡ min (self.old.calls + 1) (2 ^ 32 - 1) }
        ensures same { SameSource self.old self.new }
    {
        let call = self.calls;
        self.calls = call.saturating_add(1);
        if self.fails.contains(&call) {
            self.faults = self.faults.saturating_add(1);
            return Err(Failed);
        }
        let count = copy_prefix(&self.bytes[self.at..], buf, self.step);
        self.at += count;
        Ok(count)
    }
}

/// A sink that holds at most `capacity` bytes. The calls whose numbers are listed fail, counted from 0, and so does a
/// call with a piece that is not empty where the sink is full.
#[derive(Drop)]
pub struct MemSink {
    bytes: Vec<u8>,
    capacity: usize,
    fails: Vec<u32>,
    calls: u32,
    faults: u64,
}

impl Model for MemSink {
    ghost Value = { SinkInMemory };

    ghost view = { λ s. record { held = s.bytes.items; capacity = s.capacity; fails = s.fails.items; calls = s.calls; faults = s.faults } };

    ghost invariant = { λ s. (vec_len s.bytes ≤ s.capacity) × (s.capacity ≤ vec_capacity s.bytes) };
}

impl MemSink {
    /// An empty sink. Its memory is taken here, and no write takes more. The only refusal comes when memory runs out.
    pub fn new(alloc: Global, capacity: usize, fails: &[u32]) -> Result<MemSink, NoMemory>
        ensures { IfOk result (λ s. s ≡ sink_of capacity fails.now) }
    {
        Ok(MemSink {
            bytes: Vec::with_capacity(alloc, capacity)?,
            capacity,
            fails: Vec::from_slice(alloc, fails)?,
            calls: 0,
            faults: 0,
        })
    }

    /// What was written so far.
    pub fn bytes(&self) -> &[u8]
        ensures { result.now ≡ self.now.held }
    {
        self.bytes.as_slice()
    }
}

impl Sink for MemSink {
    ghost held = { λ s. Some s.held };

    ghost faults = { λ s. s.faults };

    fn write(&mut self, piece: &[u8]) -> Result<usize, Failed>
        ensures bound { WritesAtMost result piece.now }
        ensures some { IfOk result (λ n. 0 < length piece.now → 0 < n) }
        ensures bytes { WriteAppends (Some self.old.held) (Some self.new.held) result piece.now }
        ensures cause { HasCause self.old.faults self.new.faults result }

        // What the call takes, when it fails, and what it counts.
        ensures count { IfOk result (λ n. n ≡ min (length piece.now) (self.old.capacity - length self.old.held)) }
        ensures listed { IsErr result ↔ (Contains self.old.fails self.old.calls
            ⊎ ((0 < length piece.now) × (self.old.capacity ≤ length self.old.held))) }
        ensures faults { self.new.faults ≡ faults_after result self.old.faults }
        ensures calls { self.new.calls ≡ min (self.old.calls + 1) (2 ^ 32 - 1) }
        ensures same { SameSink self.old self.new }
    {
        let call = self.calls;
        self.calls = call.saturating_add(1);
        if self.fails.contains(&call) {
            self.faults = self.faults.saturating_add(1);
            return Err(Failed);
        }
        let room = self.capacity - self.bytes.len();
        if room == 0 && !piece.is_empty() {
            self.faults = self.faults.saturating_add(1);
            return Err(Failed);
        }
        let count = piece.len().min(room);
        match self.bytes.extend_from_slice(&piece[..count]) {
            Ok(()) => Ok(count),
            Err(_) => unreachable!(),
        }
    }
}
