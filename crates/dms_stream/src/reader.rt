//! A stream that is read from an input.

ghost use Rattle.std.specs.Prelude.{◌≡◌, ◌≤◌, ◌+◌, ◌<◌, [], length, IfOk, IfErr, OnOk, IsErrOf, None};
ghost use Rattle.dms_audfile.specs.Counting.{CountedAt};
ghost use Rattle.dms_stream.specs.Taking.{Takes, Refuses, next_taken, byte_taken, number_taken, bytes_taken, text_taken, heading_taken, record_taken, last_taken, headed, placed_in, most_bytes};

use crate::numbers::may_begin;
use crate::{Heading, StreamFault};
use dms_feed::Feed;
use dms_site::Source;
use std::alloc::Global;

/// `DMSR`.
const MARK: u32 = 1_145_918_290;

/// So many bytes an input may have.
const MOST_BYTES: u64 = 2_147_483_648;

/// The bytes of a stream, and how many of them were taken.
#[derive(Drop)]
pub struct StreamReader {
    pub feed: Feed,
    pub taken: u64,
}

impl StreamReader {
    /// Nothing taken.
    pub fn new() -> StreamReader
        ensures { (result.feed ≡ []) × (result.taken ≡ 0) }
    {
        StreamReader {
            feed: Feed::new(),
            taken: 0,
        }
    }

    /// The next byte, or none at the end.
    pub(crate) fn next<I: Source>(&mut self, source: &mut I) -> Result<Option<u8>, StreamFault>
        requires few { self.old.taken ≤ most_bytes }
        ensures took { IfOk result (Takes next_taken self.old (I.left source.old) self.new (I.left source.new)) }
        ensures refused { IfErr result (Refuses next_taken self.old (I.left source.old)) }
        ensures few { self.new.taken ≤ most_bytes }
        ensures same { I.same_source source.old source.new }
        ensures input { CountedAt (IsErrOf result StreamFault.Input) (I.faults source.old) (I.faults source.new) }
    {
        match self.feed.next(source) {
            Err(_) => Err(StreamFault::Input),
            Ok(None) => Ok(None),
            Ok(Some(byte)) => {
                if self.taken >= MOST_BYTES {
                    return Err(StreamFault::Bytes);
                }
                self.taken += 1;
                Ok(Some(byte))
            }
        }
    }

    /// The next byte. At the end it is bad at the place behind the last one.
    pub(crate) fn byte<I: Source>(&mut self, source: &mut I) -> Result<u8, StreamFault>
        requires few { self.old.taken ≤ most_bytes }
        ensures took { IfOk result (Takes byte_taken self.old (I.left source.old) self.new (I.left source.new)) }
        ensures refused { IfErr result (Refuses byte_taken self.old (I.left source.old)) }
        ensures few { self.new.taken ≤ most_bytes }
        ensures same { I.same_source source.old source.new }
        ensures input { CountedAt (IsErrOf result StreamFault.Input) (I.faults source.old) (I.faults source.new) }
    {
        match self.next(source) {
            Ok(Some(byte)) => Ok(byte),
            Ok(None) => Err(StreamFault::Bad(self.taken + 1)),
            Err(fault) => Err(fault),
        }
    }

    /// A number of so many bytes from `low` to `high`; bad at the first byte behind which none stands.
    pub fn number<I: Source>(
        &mut self,
        source: &mut I,
        bytes: u32,
        low: u32,
        high: u32,
    ) -> Result<u32, StreamFault>
        requires some { (1 ≤ bytes) × (bytes ≤ 4) }
        requires few { self.old.taken ≤ most_bytes }
        ensures took { IfOk result (Takes (number_taken bytes low high 0) self.old (I.left source.old) self.new (I.left source.new)) }
        ensures refused { IfErr result (Refuses (number_taken bytes low high 0) self.old (I.left source.old)) }
        ensures few { self.new.taken ≤ most_bytes }
        ensures same { I.same_source source.old source.new }
        ensures input { CountedAt (IsErrOf result StreamFault.Input) (I.faults source.old) (I.faults source.new) }
    {
        let mut got: u64 = 0;
        for done in 0..bytes {
            let byte = match self.byte(source) {
                Ok(byte) => byte,
                Err(fault) => return Err(fault),
            };
            got = got * 256 + u64::from(byte);
            if !may_begin(bytes - 1 - done, low, high, got) {
                return Err(StreamFault::Bad(self.taken));
            }
        }
        Ok(got as u32)
    }

    /// Bytes until `into` is full.
    pub fn bytes<I: Source>(&mut self, source: &mut I, into: &mut [u8]) -> Result<(), StreamFault>
        requires few { self.old.taken ≤ most_bytes }
        ensures took { OnOk result (Takes (bytes_taken (length into.old)) self.old (I.left source.old) self.new (I.left source.new) into.new) }
        ensures refused { IfErr result (Refuses (bytes_taken (length into.old)) self.old (I.left source.old)) }
        ensures size { length into.new ≡ length into.old }
        ensures few { self.new.taken ≤ most_bytes }
        ensures same { I.same_source source.old source.new }
        ensures input { CountedAt (IsErrOf result StreamFault.Input) (I.faults source.old) (I.faults source.new) }
    {
        for place in 0..into.len() {
            into[place] = match self.byte(source) {
                Ok(byte) => byte,
                Err(fault) => return Err(fault),
            };
        }
        Ok(())
    }

    /// A length of at most 65,535, and so many bytes.
    fn text<I: Source>(&mut self, alloc: Global, source: &mut I) -> Result<Vec<u8>, StreamFault>
        requires few { self.old.taken ≤ most_bytes }
        ensures took { IfOk result (λ v. Takes text_taken self.old (I.left source.old) self.new (I.left source.new) v.items) }
        ensures refused { IfErr result (Refuses text_taken self.old (I.left source.old)) }
        ensures few { self.new.taken ≤ most_bytes }
        ensures same { I.same_source source.old source.new }
        ensures input { CountedAt (IsErrOf result StreamFault.Input) (I.faults source.old) (I.faults source.new) }
    {
        let size = match self.number(source, 4, 0, 65_535) {
            Ok(size) => size,
            Err(fault) => return Err(fault),
        };
        let Ok(mut text) = Vec::from_elem(alloc, 0u8, size as usize) else {
            return Err(StreamFault::Memory);
        };
        match self.bytes(source, &mut text) {
            Ok(()) => Ok(text),
            Err(fault) => Err(fault),
        }
    }

    /// The head, whose description isn't judged.
    pub fn heading<I: Source>(
        &mut self,
        alloc: Global,
        source: &mut I,
    ) -> Result<Heading, StreamFault>
        requires few { self.old.taken ≤ most_bytes }
        ensures took { IfOk result (λ h. Takes heading_taken self.old (I.left source.old) self.new (I.left source.new) (headed h)) }
        ensures refused { IfErr result (Refuses heading_taken self.old (I.left source.old)) }
        ensures few { self.new.taken ≤ most_bytes }
        ensures same { I.same_source source.old source.new }
        ensures input { CountedAt (IsErrOf result StreamFault.Input) (I.faults source.old) (I.faults source.new) }
    {
        match self.number(source, 4, MARK, MARK) {
            Ok(_) => {}
            Err(fault) => return Err(fault),
        }
        let mut tag = [0u8; 8];
        match self.bytes(source, &mut tag) {
            Ok(()) => {}
            Err(fault) => return Err(fault),
        }
        let total = match self.number(source, 2, 8, 512) {
            Ok(total) => total,
            Err(fault) => return Err(fault),
        };
        match self.text(alloc, source) {
            Ok(description) => Ok(Heading {
                tag: u64::from_be_bytes(tag),
                total,
                description,
            }),
            Err(fault) => Err(fault),
        }
    }

    /// The file of the next block, from `low` to `high`, whose number there is `number`, and its bytes; or none at the end, behind which nothing
    /// stands. Its bytes aren't judged.
    pub fn block<I: Source>(
        &mut self,
        source: &mut I,
        low: u32,
        high: u32,
        number: u32,
        into: &mut [u8],
    ) -> Result<Option<u32>, StreamFault>
        requires size { length into.old ≡ 4096 }
        requires few { self.old.taken ≤ most_bytes }
        ensures took { IfOk result (λ file. Takes (record_taken low high number) self.old (I.left source.old) self.new (I.left source.new) (placed_in file into.new)) }
        ensures refused { IfErr result (Refuses (record_taken low high number) self.old (I.left source.old)) }
        ensures size { length into.new ≡ 4096 }
        ensures few { self.new.taken ≤ most_bytes }
        ensures same { I.same_source source.old source.new }
        ensures input { CountedAt (IsErrOf result StreamFault.Input) (I.faults source.old) (I.faults source.new) }
    {
        let more = match self.number(source, 1, 0, 1) {
            Ok(kind) => kind == 1,
            Err(fault) => return Err(fault),
        };
        if !more {
            return match self.next(source) {
                Ok(None) => Ok(None),
                Ok(Some(_)) => Err(StreamFault::Bad(self.taken)),
                Err(fault) => Err(fault),
            };
        }
        let file = match self.number(source, 4, low, high) {
            Ok(file) => file,
            Err(fault) => return Err(fault),
        };
        match self.number(source, 2, number, number) {
            Ok(_) => {}
            Err(fault) => return Err(fault),
        }
        match self.bytes(source, into) {
            Ok(()) => Ok(Some(file)),
            Err(fault) => Err(fault),
        }
    }

    /// The end, behind which nothing stands.
    pub fn end<I: Source>(&mut self, source: &mut I) -> Result<(), StreamFault>
        requires few { self.old.taken ≤ most_bytes }
        ensures took { IfOk result (λ done. Takes last_taken self.old (I.left source.old) self.new (I.left source.new) None) }
        ensures refused { IfErr result (Refuses last_taken self.old (I.left source.old)) }
        ensures few { self.new.taken ≤ most_bytes }
        ensures same { I.same_source source.old source.new }
        ensures input { CountedAt (IsErrOf result StreamFault.Input) (I.faults source.old) (I.faults source.new) }
    {
        match self.number(source, 1, 0, 0) {
            Ok(_) => {}
            Err(fault) => return Err(fault),
        }
        match self.next(source) {
            Ok(None) => Ok(()),
            Ok(Some(_)) => Err(StreamFault::Bad(self.taken)),
            Err(fault) => Err(fault),
        }
    }
}
