//! The lists, dictionaries and structures that are open around a place.
ghost use Rattle.std.specs.Prelude.{◌≡◌, ◌≤◌, ◌<◌, ◌-◌, ℕ, List, ◌∷◌, length, take, true, false, is_some};
ghost use Rattle.packstream.specs.Faults.{nests as is_nest};
ghost use Rattle.packstream.specs.Limits.{max_depth};

use crate::head::tiny_front;
use packstream::marker::Marker;
use packstream::{MAX_DEPTH, Reason};

/// So many lists, dictionaries and structures may stand around each other.
pub(crate) const MOST: usize = MAX_DEPTH as usize;

/// An open list, dictionary or structure: what is read of it next, how many members or pairs it still lacks, and where
/// its keys begin among all keys.
#[derive(Clone, Copy)]
pub(crate) struct Level {
    next: Inside,
    lacks: u64,
    keys: usize,
}

/// What is read next of what is open.
#[derive(Clone, Copy)]
pub(crate) enum Inside {
    Member,
    Key,
    ValueOfKey,
}

/// What is open, the outermost first.
#[derive(Clone, Copy)]
pub(crate) struct Open {
    around: [Level; MOST],
    depth: usize,
    is_whole: bool,
    ghost fits: { depth ≤ max_depth },
}

impl Open {
    ghost use Rattle.packstream.specs.Tree.{Tree, Entries};
    ghost use Rattle.packstream.specs.Faults.{Opened, at_key, at_value};
    ghost use Rattle.packstream_incremental.specs.declared.open.Inside.TheVariants as inside;
    ghost use Rattle.packstream_incremental.specs.Heads.{AreTiny};
    ghost use Rattle.packstream_incremental.specs.Frames.{Frame, AreLevels, HasRoom, Passes, ends, IsLeft, next_of, waits, place, head_fault};

    /// Nothing is open, and nothing has been read.
    pub(crate) fn new() -> Open
        ensures depth { result.depth ≡ 0 }
        ensures is_whole { result.is_whole ≡ false }
    {
        Open {
            around: [Level {
                next: Inside::Member,
                lacks: 0,
                keys: 0,
            }; MOST],
            depth: 0,
            is_whole: false,
        }
    }

    /// What is open there is open here.
    #[inline]
    #[tactic(auto, using(crate::proofs::Leveling::levels_alike))]
    pub(crate) fn copy_from(&mut self, other: &Open)
        ensures is_whole { self.new.is_whole ≡ other.now.is_whole }
        ensures levels { (fs : List Frame) → AreLevels fs other.now.depth other.now.around
            → AreLevels fs self.new.depth self.new.around }
    {
        let mut at = 0;
        while at < other.depth {
            self.around[at] = other.around[at];
            at += 1;
        }
        self.depth = other.depth;
        self.is_whole = other.is_whole;
    }

    /// Whether the value is whole.
    pub(crate) fn is_whole(&self) -> bool
        ensures { result ≡ self.now.is_whole }
    {
        self.is_whole
    }

    /// Whether a key stands next.
    #[inline]
    pub(crate) fn waits_for_key(&self) -> bool
        ensures { (fs : List Frame) → AreLevels fs self.now.depth self.now.around
            → result ≡ is_some (place fs).key }
    {
        if self.depth == 0 {
            return false;
        }
        match self.around[self.depth - 1].next {
            Inside::Key => true,
            Inside::Member => false,
            Inside::ValueOfKey => false,
        }
    }

    /// What a head that announces this breaks here.
    #[inline]
    pub(crate) fn refuses(&self, announced: Marker) -> Option<Reason>
        ensures { (fs : List Frame) → AreLevels fs self.now.depth self.now.around
            → result ≡ head_fault (place fs) announced }
    {
        if let Marker::Text(_) = announced {
            return None;
        }
        if self.waits_for_key() {
            return Some(Reason::KeyKind);
        }
        if !nests(announced) {
            return None;
        }
        if self.depth == MOST {
            return Some(Reason::Depth);
        }
        None
    }

    /// Where the keys of the innermost dictionary begin.
    #[inline]
    pub(crate) fn keys(&self) -> usize
        ensures { (f : Frame) (fs : List Frame) → AreLevels (f ∷ fs) self.now.depth self.now.around
            → result ≡ f.first }
    {
        if self.depth == 0 {
            return 0;
        }
        self.around[self.depth - 1].keys
    }

    /// A list or a structure opens, to have so many members.
    #[inline]
    pub(crate) fn open(&mut self, members: u64)
        requires { self.old.depth < max_depth }
        ensures frames { (fs : List Frame) (f : Opened)
            → AreLevels fs self.old.depth self.old.around → next_of f ≡ inside.Member
            → AreLevels (waits f members 0 ∷ fs) self.new.depth self.new.around }
        ensures is_whole { self.new.is_whole ≡ self.old.is_whole }
    {
        self.enter(Inside::Member, members, 0);
    }

    /// A dictionary opens, to have so many pairs, its keys to begin here.
    #[inline]
    pub(crate) fn open_dict(&mut self, pairs: u64, keys: usize)
        requires { self.old.depth < max_depth }
        ensures frames { (fs : List Frame) (f : Opened)
            → AreLevels fs self.old.depth self.old.around → next_of f ≡ inside.Key
            → AreLevels (waits f pairs keys ∷ fs) self.new.depth self.new.around }
        ensures is_whole { self.new.is_whole ≡ self.old.is_whole }
    {
        self.enter(Inside::Key, pairs, keys);
    }

    #[inline]
    #[tactic(auto, using(crate::proofs::Leveling::level_opens))]
    fn enter(&mut self, next: Inside, lacks: u64, keys: usize)
        requires { self.old.depth < max_depth }
        ensures frames { (fs : List Frame) (f : Opened)
            → AreLevels fs self.old.depth self.old.around → next_of f ≡ next
            → AreLevels (waits f lacks keys ∷ fs) self.new.depth self.new.around }
        ensures is_whole { self.new.is_whole ≡ self.old.is_whole }
    {
        let level = Level { next, lacks, keys };
        self.around[self.depth] = level;
        self.depth += 1;
    }

    /// A key is whole.
    #[inline]
    #[tactic(auto, using(crate::proofs::Leveling::key_stands))]
    pub(crate) fn key_ends(&mut self)
        requires { 0 < self.old.depth }
        ensures frames { (fs : List Frame) (es : Entries) (k : List ℕ) (n first : ℕ)
            → AreLevels (waits (at_key es) n first ∷ fs) self.old.depth self.old.around
            → AreLevels (waits (at_value es k) n first ∷ fs) self.new.depth self.new.around }
        ensures is_whole { self.new.is_whole ≡ self.old.is_whole }
    {
        let at = self.depth - 1;
        let inner = self.around[at];
        self.around[at] = Level {
            next: Inside::ValueOfKey,
            lacks: inner.lacks,
            keys: inner.keys,
        };
    }

    /// How many members of the innermost list or structure the bytes begin with, each an integer of one byte, the last
    /// that it waits for left out.
    #[inline]
    pub(crate) fn tiny_members(&self, bytes: &[u8]) -> usize
        ensures within { result ≤ length bytes.now }
        ensures tiny { AreTiny (take result bytes.now) }
        ensures room { 0 < result → HasRoom self.now result }
    {
        if self.is_whole || self.depth == 0 {
            return 0;
        }
        let inner = self.around[self.depth - 1];
        let Inside::Member = inner.next else {
            return 0;
        };
        tiny_front(bytes, inner.lacks)
    }

    /// So many members of the innermost list or structure are whole, and others are still missing.
    #[inline]
    pub(crate) fn pass(&mut self, members: u64)
        requires { HasRoom self.old members }
        ensures is_whole { self.new.is_whole ≡ self.old.is_whole }
        ensures frames { (f : Frame) (fs : List Frame)
            → AreLevels (f ∷ fs) self.old.depth self.old.around → Passes f fs members self.new }
    {
        let at = self.depth - 1;
        let inner = self.around[at];
        self.around[at] = Level {
            next: Inside::Member,
            lacks: inner.lacks - members,
            keys: inner.keys,
        };
    }

    /// A value is whole, and with it each that was waiting for it alone.
    #[inline]
    pub(crate) fn value_ends(&mut self)
        ensures { (fs : List Frame) (t : Tree) → AreLevels fs self.old.depth self.old.around
            → self.old.is_whole ≡ false → IsLeft (ends fs t) self.new }
    {
        while self.depth > 0 {
            let at = self.depth - 1;
            let inner = self.around[at];
            if inner.lacks > 1 {
                self.around[at] = inner.with_member();
                return;
            }
            self.depth = at;
        }
        self.is_whole = true;
    }
}

/// Whether it begins a list, a dictionary or a structure.
fn nests(announced: Marker) -> bool
    ensures { result ≡ is_nest announced }
{
    match announced {
        Marker::List(_) => true,
        Marker::Dict(_) => true,
        Marker::Struct(_) => true,
        _ => false,
    }
}

impl Level {
    ghost use Rattle.packstream_incremental.specs.Frames.{after_value};

    /// One member or pair more.
    fn with_member(self) -> Level
        requires { 0 < self.lacks }
        ensures { result ≡ record self { next = after_value self.next; lacks = self.lacks - 1 } }
    {
        let next = match self.next {
            Inside::ValueOfKey => Inside::Key,
            Inside::Key => Inside::Key,
            Inside::Member => Inside::Member,
        };
        Level {
            next,
            lacks: self.lacks - 1,
            keys: self.keys,
        }
    }
}
