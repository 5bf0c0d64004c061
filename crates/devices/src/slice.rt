//! A source over bytes that lie in memory already. It never fails.
ghost use Rattle.std.specs.Prelude.{◌≡◌, ℕ, List, length, take, min, Some, IsSome, IsOkAnd, ◌↔◌};
ghost use Rattle.std.specs.Io.{ReadsAtMost};
ghost use Rattle.std.specs.Io.KnownBytes.{ReadConsumes};
ghost use Rattle.devices.specs.Faults.{HasCause};

use crate::stream::{Failed, Source};
use std::marker::Model;

/// Copies the front of `from` to the front of `to`: as many bytes as both have, and at most `step`.
pub(crate) fn copy_prefix(from: &[u8], to: &mut [u8], step: usize) -> usize
    ensures count { result ≡ min (min (length from.now) (length to.old)) step }
    ensures copied { take result to.new ≡ take result from.now }
{
    let count = from.len().min(to.len()).min(step);
    to[..count].copy_from_slice(&from[..count]);
    count
}

/// The bytes that are left to read. No read fails, so the count of failures is 0.
#[derive(Drop)]
pub struct SliceSource<'a> {
    rest: &'a [u8],
}

impl<'a> Model for SliceSource<'a> {
    ghost Value = { List ℕ };

    ghost view = { λ s. s.rest.now };
}

impl<'a> SliceSource<'a> {
    pub fn new(bytes: &'a [u8]) -> SliceSource<'a>
        ensures { result ≡ bytes.now }
    {
        SliceSource { rest: bytes }
    }
}

impl Source for SliceSource<'_> {
    ghost left = { λ s. Some s };

    ghost faults = { λ _. 0 };

    fn read(&mut self, buf: &mut [u8]) -> Result<usize, Failed>
        ensures bound { ReadsAtMost result buf.new }
        ensures bytes { ReadConsumes (Some self.old) (Some self.new) result buf.new }
        ensures tells { IsSome (Some self.new) ↔ IsSome (Some self.old) }
        ensures cause { HasCause 0 0 result }
        ensures count { IsOkAnd result (λ n. n ≡ min (length self.old) (length buf.old)) }
    {
        let all: &[u8] = self.rest;
        let count = copy_prefix(all, buf, all.len());
        self.rest = &all[count..];
        Ok(count)
    }
}
