//! Queues of processes.

ghost use Rattle.std.specs.Prelude.{◌≡◌, ℕ, ◌<◌, ◌≤◌, false, [], ◌∷◌, ◌++◌, ◌+◌, ◌-◌, List, Option, length, take, slice_get, IfOk};
ghost use Rattle.{circular_buffer.specs.Buffer.buffer, mars_operations.specs.Queue.{front, processes, queued, is_empty, behind_front, waiting}};

use circular_buffer::HeapCircularBuffer;
use std::alloc::{AllocError, Allocator};
use std::marker::Model;

/// The number of places of an array next to a queue.
pub const PLACES: usize = 1024;
/// The place of the first process that is fetched from a queue.
pub const MIDDLE: usize = 512;

/// The processes of a side, by their addresses: first in, first out, in memory that is taken once. The front process
/// is next to a ring of the others. While many turns are made, an array next to the queue holds some of these.
#[derive(Drop)]
pub struct Queue<A: Allocator> {
    /// The front process, if there is one.
    front: u32,
    has_front: bool,
    /// The processes after the front one: at most one fewer than the queue may hold.
    rest: HeapCircularBuffer<u16, A>,
}

impl<A: Allocator> Model for Queue<A> {
    ghost use Rattle.mars_operations.specs.Queue.{Processes, processes_in, AreQueueParts};

    ghost Value = { Processes };

    ghost view = { λ q. processes_in q.has_front q.front q.rest };

    ghost invariant = { λ q. AreQueueParts q.has_front q.front q.rest };
}

impl<A: Allocator> Queue<A> {
    /// A queue that holds at most `limit` processes, and none yet.
    pub fn new(alloc: A, limit: u16) -> Result<Queue<A>, AllocError>
        requires { 1 ≤ limit }
        ensures { IfOk result (λ q. q ≡ processes limit []) }
    {
        let rest = HeapCircularBuffer::with_capacity(alloc, usize::from(limit - 1))?;
        Ok(Queue {
            front: 0,
            has_front: false,
            rest,
        })
    }

    /// The number of processes, at most 65,535.
    pub fn len(&self) -> usize
        ensures value { result ≡ length self.now.addresses }
        ensures small { result ≤ 65535 }
    {
        if self.has_front {
            1 + self.rest.len()
        } else {
            0
        }
    }

    /// Whether it holds no process.
    #[inline(always)]
    pub fn is_empty(&self) -> bool
        ensures { result ≡ is_empty self.now.addresses }
    {
        !self.has_front
    }

    /// The address of the process at index `i`, counted from the front.
    pub fn get(&self, i: usize) -> Option<u16>
        ensures { result ≡ slice_get self.now.addresses i }
    {
        if !self.has_front {
            None
        } else if i == 0 {
            Some(self.front as u16)
        } else {
            self.rest.get(i - 1).copied()
        }
    }

    /// The address of the front process.
    #[inline(always)]
    pub fn front(&self) -> u32
        requires { is_empty self.now.addresses ≡ false }
        ensures { front self.now.addresses ≡ Some result }
    {
        self.front
    }

    /// Takes the front process, and answers whether none is left.
    #[inline(always)]
    pub fn end(&mut self) -> bool
        requires { is_empty self.old.addresses ≡ false }
        ensures value { self.new ≡ processes self.old.limit (behind_front self.old.addresses) }
        ensures empty { result ≡ is_empty self.new.addresses }
    {
        match self.rest.pop_front() {
            None => {
                self.has_front = false;
                true
            }
            Some(front) => {
                self.front = u32::from(front);
                false
            }
        }
    }

    /// Takes the front process, and queues another one after the others: there is room then.
    #[inline(always)]
    pub fn follow(&mut self, address: u32)
        requires some { is_empty self.old.addresses ≡ false }
        requires small { address ≤ 65535 }
        ensures value { self.new ≡ queued (processes self.old.limit (behind_front self.old.addresses)) (address ∷ []) }
        ensures some { is_empty self.new.addresses ≡ false }
    {
        match self.rest.pop_front() {
            None => self.front = address,
            Some(front) => {
                self.front = u32::from(front);
                let _queued = self.rest.try_push_back(address as u16);
            }
        }
    }

    /// Takes the front process, and queues two after the others: the second one only if there is room.
    #[inline(always)]
    pub fn split(&mut self, address: u32, behind: u32)
        requires some { is_empty self.old.addresses ≡ false }
        requires small { address ≤ 65535 }
        requires small_behind { behind ≤ 65535 }
        ensures value { self.new ≡ queued (processes self.old.limit (behind_front self.old.addresses))
            (address ∷ behind ∷ []) }
        ensures some { is_empty self.new.addresses ≡ false }
    {
        self.follow(address);
        let _queued = self.rest.try_push_back(behind as u16);
    }

    /// Leaves one process.
    pub fn restart(&mut self, address: u16)
        ensures { self.new ≡ processes self.old.limit (address ∷ []) }
    {
        self.rest.clear();
        self.front = u32::from(address);
        self.has_front = true;
    }

    /// How many more processes it may hold.
    pub fn room(&self) -> usize
        requires { is_empty self.now.addresses ≡ false }
        ensures value { result ≡ self.now.limit - length self.now.addresses }
        ensures within { length self.now.addresses ≤ self.now.limit }
    {
        self.rest.capacity() - self.rest.len()
    }

    /// Queues the first `count` places, and then moves the next processes after the front one to the places from the
    /// middle on, as many as fit. Answers how many.
    #[cold]
    #[inline(never)]
    pub fn exchange(&mut self, places: &mut [u16; PLACES], count: usize) -> usize
        requires lives { is_empty self.old.addresses ≡ false }
        requires places { length places.old ≡ 1024 }
        requires count { count ≤ 1024 }
        requires room { count + length self.old.addresses ≤ self.old.limit }
        ensures value { waiting 512 result places.new (behind_front self.new.addresses)
            ≡ waiting 1024 count places.old (behind_front self.old.addresses) }
        ensures places { length places.new ≡ 1024 }
        ensures count { result ≤ 512 }
        ensures full { 1 < length self.new.addresses → result ≡ 512 }
        ensures all { length self.new.addresses + result ≡ length self.old.addresses + count }
        ensures limit { self.new.limit ≡ self.old.limit }
        ensures lives { is_empty self.new.addresses ≡ false }
    {
        self.rest.fill_from_slice(&places[..count]);
        self.rest.read_into(&mut places[MIDDLE..])
    }

    /// Queues `behind` after the `count` addresses that are in the places from `head` on, if there is room: first
    /// those that are round their end. Answers how many stay there.
    #[cold]
    #[inline(never)]
    pub fn take_in(
        &mut self,
        places: &[u16; PLACES],
        head: usize,
        count: usize,
        behind: u32,
    ) -> usize
        requires lives { is_empty self.old.addresses ≡ false }
        requires places { length places.now ≡ 1024 }
        requires head { head ≤ 1024 }
        requires count { count ≤ 1023 }
        requires past { 1024 ≤ head + count }
        requires room { count + length self.old.addresses ≤ self.old.limit }
        requires small { behind ≤ 65535 }
        ensures value { waiting head result places.now (behind_front self.new.addresses)
            ≡ take (self.old.limit - 1) (waiting head count places.now (behind_front self.old.addresses) ++ behind
            ∷ []) }
        ensures count { result ≤ count }
        ensures past { 1024 ≤ head + result }
        ensures room { result + length self.new.addresses ≤ self.new.limit }
        ensures limit { self.new.limit ≡ self.old.limit }
        ensures lives { is_empty self.new.addresses ≡ false }
    {
        if count >= self.room() {
            return count;
        }
        let past = head + count - PLACES;
        self.rest.fill_from_slice(&places[..past]);
        let _queued = self.rest.try_push_back(behind as u16);
        count - past
    }

    /// Puts back what a window took: the front process, and `count` others that are in the places from `head` on.
    pub fn put_back(&mut self, places: &[u16; PLACES], front: u32, head: usize, count: usize)
        requires lives { is_empty self.old.addresses ≡ false }
        requires places { length places.now ≡ 1024 }
        requires head { head ≤ 1024 }
        requires count { count ≤ 1024 }
        requires room { count + length self.old.addresses ≤ self.old.limit }
        requires small { front ≤ 65535 }
        ensures { self.new ≡ processes self.old.limit
            (front ∷ waiting head count places.now (behind_front self.old.addresses)) }
    {
        let end = (head + count).min(PLACES);
        self.rest.fill_from_slice(&places[..head + count - end]);
        put_first(&mut self.rest, &places[head..end]);
        self.front = front;
    }
}

/// Puts addresses before a ring's, where there is room for them.
fn put_first<A: Allocator>(ring: &mut HeapCircularBuffer<u16, A>, addresses: &[u16])
    requires { length addresses.now + length ring.old.items ≤ ring.old.capacity }
    ensures { ring.new ≡ buffer (addresses.now ++ ring.old.items) ring.old.capacity }
{
    let mut at = addresses.len();
    while at > 0 {
        at -= 1;
        let _put = ring.try_push_front(addresses[at]);
    }
}
