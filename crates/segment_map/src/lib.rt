//! The segments of a machine: for each number the segment's kind and its root; and what a change to a segment comes to.
#![tactic(auto)]

mod merged;

ghost use Rattle.std.specs.Prelude.{◌≡◌, ◌<◌, ◌≤◌, Some, length, map, option_map, slice_get, IfOk};
ghost use Rattle.segment_map.specs.Segments.{empty_of, with_root};

use hic_isa::SegKind;
use hic_word::{Root, empty};
pub use merged::Merged;
use std::alloc::{AllocError, Global};
use std::marker::Model;
use std::mem;

/// A segment of the machine.
#[derive(Clone, Copy, Debug, PartialEq, Eq)]
pub struct Segment {
    /// What becomes of a stale commit to it.
    pub kind: SegKind,
    /// Its array.
    pub root: Root,
}

/// At most 256 segments, seen as the list of them: a segment's number is its place, from 0.
///
/// Whoever keeps a map has a hold for each root that names a line.
#[derive(Drop)]
pub struct SegmentMap {
    segments: Vec<Segment>,
}

impl Model for SegmentMap {
    ghost use Rattle.std.specs.Prelude.{◌≤◌, List, length};
    ghost use Rattle.segment_map.specs.declared.Segment.{Segment};

    ghost Value = { List Segment };

    ghost view = { λ m. m.segments.items };

    ghost invariant = { λ m. length m.segments.items ≤ 256 };
}

impl SegmentMap {
    /// A segment of each kind in the list, at most 256, all with the empty array.
    pub fn make(alloc: Global, kinds: &[SegKind]) -> Result<SegmentMap, AllocError>
        requires { length kinds.now ≤ 256 }
        ensures { IfOk result (λ segments. segments ≡ map empty_of kinds.now) }
    {
        let segments = kinds
            .iter()
            .map(|kind| Segment {
                kind: *kind,
                root: empty(),
            })
            .collect(alloc)?;
        Ok(SegmentMap { segments })
    }

    /// The number of segments, 0 to 256.
    pub fn len(&self) -> u16
        ensures { result ≡ length self.now }
    {
        self.segments.len() as u16
    }

    /// A segment, of which there is one of this number.
    pub fn segment(&self, vsid: u16) -> Segment
        requires { vsid < length self.now }
        ensures { slice_get self.now vsid ≡ Some result }
    {
        self.segments[vsid as usize]
    }

    /// The root of a segment. None where there is no segment of this number.
    pub fn root(&self, vsid: u16) -> Option<Root>
        ensures { result ≡ option_map (λ s. s.root) (slice_get self.now vsid) }
    {
        Some(self.get(vsid)?.root)
    }

    /// The kind of a segment. None where there is no segment of this number.
    pub fn kind(&self, vsid: u16) -> Option<SegKind>
        ensures { result ≡ option_map (λ s. s.kind) (slice_get self.now vsid) }
    {
        Some(self.get(vsid)?.kind)
    }

    /// Gives a segment another root, and hands back the one that it had. The holds pass with the words: the map has the new
    /// root's, and the caller the former one's.
    pub fn set(&mut self, vsid: u16, root: Root) -> Root
        requires { vsid < length self.old }
        ensures segments { self.new ≡ with_root self.old vsid root }
        ensures former { option_map (λ s. s.root) (slice_get self.old vsid) ≡ Some result }
    {
        mem::replace(&mut self.segments[vsid as usize].root, root)
    }

    /// The segment of a number.
    fn get(&self, vsid: u16) -> Option<Segment>
        ensures { result ≡ slice_get self.now vsid }
    {
        self.segments.get(vsid as usize).copied()
    }
}
