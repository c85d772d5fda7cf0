//! The arena in which rounds are played.

ghost use Rattle.std.specs.Prelude.{◌≡◌, ◌+◌, ◌-◌, ◌*◌, ◌<◌, ◌≤◌, Bool, true, false, Option, Some, length, slice_get, All, IfOk, IfSome, MatchOption};
ghost use Rattle.mars_core.specs.{Queue.front, Whole.whole, Round.{is_empty, is_over, queue_of, reach_of, after_turn, turned, after_turns, outcome, fresh, opening, IsRound, CanBegin}, Touched.AreSameBut};

use crate::limits::{Limits, Whole, Within};
use crate::load::load;
use crate::pass::passes;
use crate::round::{Outcome, Side, Turned};
use crate::touchable::touchable;
use crate::turn::turns;
use mars_operations::{Core, Queue};
use mars_words::Size;
use std::alloc::{AllocError, Allocator};
use std::marker::Model;
use war_types::{Instr, Settings, Warrior};

/// A core and the processes of two sides, under settings that stay. Only `new` takes memory.
#[derive(Drop)]
pub struct Arena<A: Allocator> {
    settings: Settings,
    core: Core<A>,
    first: Queue<A>,
    second: Queue<A>,
    to_move: Side,
    used: u32,
}

impl<A: Allocator> Model for Arena<A> {
    ghost use Rattle.std.specs.Prelude.{◌≡◌};
    ghost use Rattle.mars_core.specs.Round.{Round};

    ghost Value = { Round };

    ghost use Rattle.mars_core.specs.Arena.{round_in, IsArena};

    ghost view = { λ a. round_in a.settings a.core a.first.addresses a.second.addresses a.to_move a.used };

    ghost invariant = { λ a. IsArena (round_in a.settings a.core a.first.addresses a.second.addresses a.to_move a.used)
        a.first.limit a.second.limit };
}

impl<A: Allocator + Copy> Arena<A> {
    /// An arena under these settings, with nothing loaded and no process. It takes all memory that a round needs.
    pub fn new(alloc: A, settings: &Settings) -> Result<Arena<A>, AllocError>
        ensures { IfOk result (λ a. a ≡ fresh settings.now) }
    {
        let core = Core::new(alloc, settings.core())?;
        let first = Queue::new(alloc, settings.processes())?;
        let second = Queue::new(alloc, settings.processes())?;
        Ok(Arena {
            settings: *settings,
            core,
            first,
            second,
            to_move: Side::First,
            used: 0,
        })
    }
}

impl<A: Allocator> Arena<A> {
    /// Begins a round: clears the core, loads the first warrior at address 0 and the second at `position`, and
    /// gives each one process, at its start.
    pub fn begin<B: Allocator, C: Allocator>(
        &mut self,
        w0: &Warrior<B>,
        w1: &Warrior<C>,
        position: u16,
        first: Side,
    )
        requires { CanBegin self.old.settings w0.now w1.now position }
        ensures opening { self.new ≡ opening self.old.settings w0.now w1.now position first }
        ensures round { IsRound self.new }
    {
        load(
            &mut self.core,
            Size::of(self.settings.core()),
            w0.code(),
            w1.code(),
            position,
        );
        self.first.restart(w0.start());
        self.second.restart(position + w1.start());
        self.to_move = first;
        self.used = 0;
    }

    /// Makes one turn of the side that is to move, unless the round is over; the other side is next.
    pub fn turn(&mut self) -> Turned
        ensures turned { result ≡ turned self.old }
        ensures after { self.new ≡ after_turn self.old }
        ensures round { IsRound self.new }
    {
        if self.is_over() {
            return Turned::Over;
        }
        self.turns(1)
    }

    /// Makes turns until the round is over, at most twice the cycles, and answers who won.
    pub fn play(&mut self) -> Outcome
        ensures over { is_over self.new ≡ true }
        ensures after { self.new ≡ after_turns (2 * self.old.settings.cycles - self.old.used) self.old }
        ensures outcome { result ≡ outcome self.new }
        ensures round { IsRound self.new }
    {
        if !self.is_over() {
            let left = 2 * self.settings.cycles() - self.used;
            self.turns(left);
        }
        self.outcome()
    }

    /// Makes `most` turns, or fewer if the round is over before, and answers how the last one went.
    fn turns(&mut self, most: u32) -> Turned
        requires on { is_over self.old ≡ false }
        requires most { self.old.used + most ≤ 2 * self.old.settings.cycles }
        ensures after { self.new ≡ after_turns most self.old }
        ensures last { most ≡ 1 → result ≡ turned self.old }
        ensures round { IsRound self.new }
    {
        let size = Size::of(self.settings.core());
        let (read, write) = (self.settings.read_limit(), self.settings.write_limit());
        if read == self.settings.core() && write == self.settings.core() {
            self.whole_turns(size, most)
        } else {
            self.turns_under(Within::of(size, read, write), most)
        }
    }

    /// Makes them without limits: an odd one first, and then passes.
    fn whole_turns(&mut self, size: Size, most: u32) -> Turned
        requires on { is_over self.old ≡ false }
        requires most { self.old.used + most ≤ 2 * self.old.settings.cycles }
        requires limits { reach_of self.old.settings ≡ whole size }
        ensures after { self.new ≡ after_turns most self.old }
        ensures last { most ≡ 1 → result ≡ turned self.old }
        ensures round { IsRound self.new }
    {
        if most % 2 == 0 {
            self.passes(size, most / 2);
            return Turned::Went;
        }
        let last = self.turns_under(Whole { size }, 1);
        if most > 1 && !self.is_over() {
            self.passes(size, most / 2);
        }
        last
    }

    /// Makes `most` passes without limits, or fewer if the round is over before.
    fn passes(&mut self, size: Size, most: u32)
        requires on { is_over self.old ≡ false }
        requires most { self.old.used + 2 * most ≤ 2 * self.old.settings.cycles }
        requires limits { reach_of self.old.settings ≡ whole size }
        ensures after { self.new ≡ after_turns (2 * most) self.old }
        ensures round { IsRound self.new }
    {
        let (left, to_move) = passes(
            &mut self.core,
            size,
            &mut self.first,
            &mut self.second,
            self.to_move,
            most,
        );
        self.to_move = to_move;
        self.used += 2 * most - left;
    }

    /// Makes them under the settings' limits. Each kind of limits has its loop in a function of its own. In one
    /// function, the two loops would share the processor's registers.
    #[inline(never)]
    fn turns_under<L: Limits>(&mut self, limits: L, most: u32) -> Turned
        requires on { is_over self.old ≡ false }
        requires most { self.old.used + most ≤ 2 * self.old.settings.cycles }
        requires limits { reach_of self.old.settings ≡ L.reach limits }
        ensures after { self.new ≡ after_turns most self.old }
        ensures last { most ≡ 1 → result ≡ turned self.old }
        ensures round { IsRound self.new }
    {
        let played = turns(
            &mut self.core,
            Size::of(self.settings.core()),
            limits,
            &mut self.first,
            &mut self.second,
            self.to_move,
            most,
        );
        self.to_move = played.to_move;
        self.used += most - played.left;
        played.last
    }

    /// The addresses of the cells that the next turn may change, some maybe twice. All other cells keep what they hold.
    /// `None` if the round is over.
    pub fn touchable(&self) -> Option<[u16; 8]>
        ensures same { MatchOption result (is_over self.now ≡ true)
            (λ addresses. (is_over self.now ≡ false) × AreSameBut addresses self.now.core (after_turn self.now).core) }
        ensures addresses { IfSome result (λ addresses. All (λ a. a < self.now.settings.core) addresses) }
    {
        if self.is_over() {
            return None;
        }
        let size = Size::of(self.settings.core());
        let write = u32::from(self.settings.write_limit());
        Some(touchable(&self.core, size, write, self.front()))
    }

    /// The process that is executed in the next turn.
    fn front(&self) -> u32
        requires on { is_over self.now ≡ false }
        ensures value { front (queue_of self.now.to_move self.now) ≡ Some result }
        ensures below { result < self.now.settings.core }
    {
        match self.to_move {
            Side::First => self.first.front(),
            Side::Second => self.second.front(),
        }
    }

    /// The instruction in a cell, or `None` at or past the core size.
    pub fn cell(&self, at: u16) -> Option<Instr>
        ensures value { result ≡ slice_get self.now.core at }
        ensures round { IsRound self.now }
    {
        if at < self.settings.core() {
            let size = Size::of(self.settings.core());
            Some(self.core.cell(size, u32::from(at)).instr())
        } else {
            None
        }
    }

    /// The number of a side's processes, at most the settings' limit.
    pub fn processes(&self, side: Side) -> u32
        ensures value { result ≡ length (queue_of side self.now) }
        ensures round { IsRound self.now }
    {
        match side {
            Side::First => self.first.len() as u32,
            Side::Second => self.second.len() as u32,
        }
    }

    /// The address of the process at index `i` of a side's queue, counted from the front.
    pub fn process(&self, side: Side, i: u32) -> Option<u16>
        ensures value { result ≡ slice_get (queue_of side self.now) i }
        ensures round { IsRound self.now }
    {
        match side {
            Side::First => self.first.get(i as usize),
            Side::Second => self.second.get(i as usize),
        }
    }

    /// How many turns were made in the round.
    pub fn used(&self) -> u32
        ensures value { result ≡ self.now.used }
        ensures round { IsRound self.now }
    {
        self.used
    }

    fn is_over(&self) -> bool
        ensures value { result ≡ is_over self.now }
        ensures round { IsRound self.now }
    {
        self.first.is_empty() || self.second.is_empty() || self.used >= 2 * self.settings.cycles()
    }

    fn outcome(&self) -> Outcome
        ensures { result ≡ outcome self.now }
    {
        match (self.first.is_empty(), self.second.is_empty()) {
            (false, true) => Outcome::First,
            (true, false) => Outcome::Second,
            _ => Outcome::Tie,
        }
    }
}
