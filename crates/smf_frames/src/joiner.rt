//! Joins the records of a dump that comes in pieces.

ghost use Rattle.std.specs.Prelude.{◌≡◌, ℕ, ◌+◌, ◌-◌, ◌<◌, ◌≤◌, ◌↔◌, false, List, None, Some, Err};
ghost use Rattle.std.specs.Prelude.{IfOk, IfErr, IfSome, OnOk, IsTrue, [], is_some, unwrap_or};
ghost use Rattle.std.specs.Prelude.{length, take};
ghost use Rattle.std.specs.Option.{option_copied};
ghost use Rattle.smf_frames.specs.declared.fault.FrameFault.{FrameFault};
ghost use Rattle.smf_frames.specs.Segment.{descriptor_len, named_len};
ghost use Rattle.smf_frames.specs.Framed.{most_data, IsFramed};
ghost use Rattle.smf_frames.specs.Faults.{is_block_due};
ghost use Rattle.smf_frames.specs.Front.{front, data_len};
ghost use Rattle.smf_frames.specs.Joining.{HasTaken, nothing_joined, nothing_found, released};
ghost use Rattle.smf_frames.specs.Joining.{fault_in, fault_held};
ghost use Rattle.smf_frames.specs.Feeding.{Feeds};
ghost use Rattle.smf_frames.specs.JoinerSteps.{HoldsBlock, HoldsSegment, OnSegment, IsStep};
ghost use Rattle.smf_frames.specs.JoinerSteps.{IsFailed};
ghost use Rattle.smf_frames.specs.JoinerSteps.{holding, past_block, past_segment};

use crate::block::{left_after, left_of_block};
use crate::descriptor::{DESCRIPTOR_LEN, kind_of, named_len};
use crate::dump::Layout;
use crate::fault::{FrameFault, descriptor_fault, end_fault, is_block_due};
use crate::framed::{MAX_DATA, describe};
use std::alloc::{AllocError, Global};
use std::marker::Model;

/// Takes the pieces of a dump one after another, and lends each record once it is whole. It takes
/// all the memory that it ever needs when it is made, and copies each byte of data once.
#[derive(Debug, Drop)]
pub struct Joiner {
    layout: Layout,
    /// What is left of the block that is begun.
    left: Option<usize>,
    /// A record is begun.
    is_begun: bool,
    /// Room for a record's descriptor, the data of the record that is begun, and after the mark
    /// the data of the segment that is begun.
    joined: Vec<u8>,
    data_end: usize,
    /// The descriptor that is coming, and how many of its bytes are there.
    descriptor: [u8; DESCRIPTOR_LEN],
    received: usize,
    /// A record stands: it is what is joined.
    stands: bool,
}

impl Model for Joiner {
    ghost use Rattle.smf_frames.specs.Joining.{Joining};
    ghost use Rattle.smf_frames.specs.JoinerFields.{Fields, joining_in, Invariant};
    ghost use Rattle.std.specs.Prelude.{vec_capacity};

    ghost Value = { Joining };

    ghost view = { λ j. joining_in (record {
      layout = j.layout;
      left = j.left;
      is_begun = j.is_begun;
      joined = j.joined.items;
      data_end = j.data_end;
      descriptor = j.descriptor;
      received = j.received;
      stands = j.stands;
      room = vec_capacity j.joined;
    }) };

    ghost invariant = { λ j. Invariant (record {
      layout = j.layout;
      left = j.left;
      is_begun = j.is_begun;
      joined = j.joined.items;
      data_end = j.data_end;
      descriptor = j.descriptor;
      received = j.received;
      stands = j.stands;
      room = vec_capacity j.joined;
    }) };
}

impl Joiner {
    /// A joiner that has got nothing yet. It takes all the memory that it ever needs.
    pub fn new(alloc: Global, layout: Layout) -> Result<Joiner, AllocError>
        ensures value { IfOk result (λ made. made ≡ nothing_joined layout) }
        ensures stands { IfOk result (λ made. HasTaken [] made) }
        ensures found { OnOk result (front layout [] ≡ nothing_found) }
    {
        let mut joined = Vec::with_capacity(alloc, DESCRIPTOR_LEN + MAX_DATA)?;
        joined.extend_from_slice(&[0; DESCRIPTOR_LEN])?;
        Ok(Joiner {
            layout,
            left: None,
            is_begun: false,
            joined,
            data_end: DESCRIPTOR_LEN,
            descriptor: [0; DESCRIPTOR_LEN],
            received: 0,
            stands: false,
        })
    }

    /// The record that stands, if one does.
    pub fn record(&self) -> Option<&[u8]>
        ensures exact { option_copied result ≡ self.now.ready }
        ensures framed { (text : List ℕ) → HasTaken text self.now
            → IfSome result (λ bytes. IsFramed bytes.now) }
    {
        if self.stands {
            Some(&self.joined)
        } else {
            None
        }
    }

    /// Releases the record that stands, if one does.
    pub fn next(&mut self)
        ensures value { self.new ≡ released self.old }
        ensures stands { (text : List ℕ) → HasTaken text self.old → HasTaken text self.new }
    {
        if self.stands {
            self.joined.truncate(DESCRIPTOR_LEN);
            self.data_end = DESCRIPTOR_LEN;
            self.stands = false;
        }
    }

    /// Takes bytes of a piece up to the end of the next record, which then stands, or all of them;
    /// none while a record stands. A fault is at a descriptor, and is answered for good.
    pub fn feed(&mut self, piece: &[u8]) -> Result<usize, FrameFault>
        ensures { Feeds self.old piece.now result self.new }
    {
        let mut rest = piece;
        while !self.stands() {
            match self.step(rest)? {
                None => return Ok(piece.len()),
                Some(n) => {
                    let (_, later) = rest.split_at(n);
                    rest = later;
                }
            }
        }
        Ok(piece.len() - rest.len())
    }

    /// What the end of the dump leaves undone after the bytes taken, or the fault that stays.
    pub fn finish(&self) -> Result<(), FrameFault>
        ensures exact { (text : List ℕ) → HasTaken text self.now
            → fault_in result ≡ (front self.now.layout text).fault }
        ensures for_good { (fault : FrameFault) → fault_held self.now ≡ Some fault
            → result ≡ Err fault }
    {
        let held = &self.descriptor[..self.received];
        match self.fault().or(end_fault(self.begun(), self.left, held)) {
            Some(fault) => Err(fault),
            None => Ok(()),
        }
    }

    /// A record stands.
    fn stands(&self) -> bool
        ensures { result ≡ is_some self.now.ready }
    {
        self.stands
    }

    /// How much data the record has that is begun.
    fn begun(&self) -> Option<usize>
        ensures exact { result ≡ data_len self.now.position.begun }
        ensures short { unwrap_or result 0 ≤ most_data }
    {
        if self.is_begun {
            Some(self.data_end - DESCRIPTOR_LEN)
        } else {
            None
        }
    }

    /// The fault at the descriptor that is held, if it has one.
    fn fault(&self) -> Option<FrameFault>
        ensures { result ≡ fault_held self.now }
    {
        descriptor_fault(
            self.layout,
            self.begun(),
            self.left,
            &self.descriptor[..self.received],
        )
    }

    /// A descriptor is held.
    fn has_descriptor(&self) -> bool
        ensures { IsTrue result ↔ descriptor_len ≤ length self.now.held }
    {
        self.received == DESCRIPTOR_LEN
    }

    /// The next descriptor is a block's: then no more than that is held.
    fn is_block_due(&self) -> bool
        ensures exact { result ≡ is_block_due self.now.layout self.now.position.left }
        ensures short { IsTrue result → length self.now.held ≤ descriptor_len }
    {
        is_block_due(self.layout, self.left)
    }

    /// How many bytes are missing of the segment that has its descriptor held.
    fn missing(&self) -> usize
        requires { descriptor_len ≤ length self.now.held }
        ensures exact { result ≡ named_len self.now.held - length self.now.held }
        ensures enough { fault_held self.now ≡ None
            → is_block_due self.now.layout self.now.position.left ≡ false
            → length self.now.held ≤ named_len self.now.held }
    {
        named_len(&self.descriptor).saturating_sub(
            DESCRIPTOR_LEN + (self.joined.len() - self.data_end),
        )
    }

    /// Holds as many bytes of the rest of a piece as the descriptor lacks, or all. Gives how many.
    fn hold_descriptor(&mut self, rest: &[u8]) -> usize
        requires { self.old.ready ≡ None }
        ensures within { result ≤ length rest.now }
        ensures value { self.new ≡ holding self.old (take result rest.now) }
        ensures all { length self.new.held < descriptor_len → result ≡ length rest.now }
    {
        let n = rest.len().min(DESCRIPTOR_LEN - self.received);
        let (part, _) = rest.split_at(n);
        self.descriptor[self.received..self.received + n].copy_from_slice(part);
        self.received += n;
        n
    }

    /// Holds bytes of the segment that has its descriptor held.
    fn hold_data(&mut self, part: &[u8])
        requires none { self.old.ready ≡ None }
        requires on { OnSegment self.old }
        requires fit { length self.old.held + length part.now ≤ named_len self.old.held }
        ensures { self.new ≡ holding self.old part.now }
    {
        self.joined.extend_from_slice(part).unwrap();
    }

    /// Continues after the block's descriptor that is held.
    fn pass_block(&mut self)
        requires none { self.old.ready ≡ None }
        requires holds { HoldsBlock self.old }
        ensures { self.new ≡ past_block self.old }
    {
        self.left = left_of_block(named_len(&self.descriptor) - DESCRIPTOR_LEN);
        self.received = 0;
    }

    /// Continues after the segment that is held: its record stands now, or is begun.
    fn pass_segment(&mut self)
        requires none { self.old.ready ≡ None }
        requires holds { HoldsSegment self.old }
        ensures { self.new ≡ past_segment self.old }
    {
        self.left = left_after(self.left, named_len(&self.descriptor));
        self.received = 0;
        self.data_end = self.joined.len();
        self.is_begun = kind_of(&self.descriptor).goes_on();
        if !self.is_begun {
            describe(&mut self.joined);
            self.stands = true;
        }
    }

    /// One step over the rest of a piece: past a block's descriptor or a segment, and how many
    /// bytes of the rest make it; or `None` where all of the rest is held and more is to come.
    fn step(&mut self, rest: &[u8]) -> Result<Option<usize>, FrameFault>
        requires { self.old.ready ≡ None }
        ensures step { IfOk result (λ n. IsStep self.old rest.now n self.new) }
        ensures fault { IfErr result (λ fault. IsFailed self.old rest.now fault self.new) }
    {
        let first = self.hold_descriptor(rest);
        if let Some(fault) = self.fault() {
            return Err(fault);
        }
        if !self.has_descriptor() {
            return Ok(None);
        }
        if self.is_block_due() {
            self.pass_block();
            return Ok(Some(first));
        }
        let (_, later) = rest.split_at(first);
        let missing = self.missing();
        if later.len() < missing {
            self.hold_data(later);
            return Ok(None);
        }
        let (part, _) = later.split_at(missing);
        self.hold_data(part);
        self.pass_segment();
        Ok(Some(first + missing))
    }
}
