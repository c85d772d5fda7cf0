//! Windows before queues.

ghost use Rattle.std.specs.Prelude.{◌≡◌, ℕ, ◌+◌, ◌-◌, ◌<◌, ◌≤◌, min, true, false, List, [], ◌∷◌, length};
ghost use Rattle.mars_core.specs.{Queue.{processes, queued, behind_front}, Round.is_empty, Window.{held, IsWindow}};

use mars_operations::{MIDDLE, PLACES, Queue};
use std::alloc::Allocator;

/// The front process of a side while many turns are made, and how its `places`, an array, hold `count` others. The
/// first of these are from `head` on to the end of the places, the last ones from the beginning of the places on. All
/// between them are in the side's queue, which is touched only where `head` is at the end or the places are full.
#[derive(Clone, Copy)]
pub(crate) struct Window {
    front: u32,
    head: usize,
    count: usize,
    /// How many the places may hold, by their number and by the queue's limit.
    room: usize,
}

impl Window {
    /// The places of a window that is to be made.
    #[inline(always)]
    pub(crate) fn places() -> [u16; PLACES]
        ensures { length result ≡ 1024 }
    {
        [0; PLACES]
    }

    /// An empty window before a queue.
    pub(crate) fn before<A: Allocator>(queue: &Queue<A>) -> Window
        requires { is_empty queue.now.addresses ≡ false }
        ensures window { (places : List ℕ) → length places ≡ 1024 → IsWindow result places queue.now }
        ensures value { (places : List ℕ) → length places ≡ 1024 → held result places queue.now ≡ queue.now }
    {
        let front = match queue.get(0) {
            Some(address) => u32::from(address),
            None => 0,
        };
        Window {
            front,
            head: PLACES,
            count: 0,
            room: Window::room_before(queue),
        }
    }

    /// The address of the front process.
    #[inline(always)]
    pub(crate) fn front(&self) -> u32
        ensures { result ≡ self.now.front }
    {
        self.front
    }

    /// Takes the front process, and queues another one after the others.
    #[inline(always)]
    pub(crate) fn follow<A: Allocator>(
        &mut self,
        places: &mut [u16; PLACES],
        queue: &mut Queue<A>,
        address: u32,
    )
        requires window { IsWindow self.old places.old queue.old }
        requires small { address ≤ 65535 }
        ensures window { IsWindow self.new places.new queue.new }
        ensures past { 1 ≤ self.new.head }
        ensures value { held self.new places.new queue.new
            ≡ queued (processes queue.old.limit (behind_front (held self.old places.old queue.old).addresses))
            (address ∷ []) }
    {
        self.reach(places, queue);
        places[(self.head + self.count) & (PLACES - 1)] = address as u16;
        self.front = u32::from(places[self.head]);
        self.head += 1;
    }

    /// Takes the front process, and queues two after the others: the second one only if there is room.
    #[inline(always)]
    pub(crate) fn split<A: Allocator>(
        &mut self,
        places: &mut [u16; PLACES],
        queue: &mut Queue<A>,
        address: u32,
        behind: u32,
    )
        requires window { IsWindow self.old places.old queue.old }
        requires small { address ≤ 65535 }
        requires small_behind { behind ≤ 65535 }
        ensures window { IsWindow self.new places.new queue.new }
        ensures value { held self.new places.new queue.new
            ≡ queued (processes queue.old.limit (behind_front (held self.old places.old queue.old).addresses))
            (address ∷ behind ∷ []) }
    {
        self.follow(places, queue, address);
        if self.count < self.room {
            places[(self.head + self.count) & (PLACES - 1)] = behind as u16;
            self.count += 1;
        } else if self.room == PLACES - 1 {
            self.count = queue.take_in(places, self.head, self.count, behind);
            self.room = Window::room_before(queue);
        }
    }

    /// Takes the front process, or answers that it is the last one and keeps it.
    #[inline(always)]
    pub(crate) fn end<A: Allocator>(
        &mut self,
        places: &mut [u16; PLACES],
        queue: &mut Queue<A>,
    ) -> bool
        requires { IsWindow self.old places.old queue.old }
        ensures window { IsWindow self.new places.new queue.new }
        ensures last { result ≡ is_empty (behind_front (held self.old places.old queue.old).addresses) }
        ensures kept { result ≡ true → held self.new places.new queue.new ≡ held self.old places.old queue.old }
        ensures value { result ≡ false → held self.new places.new queue.new
            ≡ processes queue.old.limit (behind_front (held self.old places.old queue.old).addresses) }
    {
        self.reach(places, queue);
        if self.count == 0 {
            return true;
        }
        self.front = u32::from(places[self.head]);
        self.head += 1;
        self.count -= 1;
        false
    }

    /// Leaves all processes in the queue.
    pub(crate) fn close<A: Allocator>(self, places: &[u16; PLACES], queue: &mut Queue<A>)
        requires { IsWindow self places.now queue.old }
        ensures { queue.new ≡ held self places.now queue.old }
    {
        queue.put_back(places, self.front, self.head, self.count);
    }

    /// If the head is at the end of the places, fetches the next processes from the queue.
    #[inline(always)]
    fn reach<A: Allocator>(&mut self, places: &mut [u16; PLACES], queue: &mut Queue<A>)
        requires { IsWindow self.old places.old queue.old }
        ensures window { IsWindow self.new places.new queue.new }
        ensures inside { self.new.head < 1024 }
        ensures value { held self.new places.new queue.new ≡ held self.old places.old queue.old }
        ensures limit { queue.new.limit ≡ queue.old.limit }
    {
        if self.head == PLACES {
            self.count = queue.exchange(places, self.count);
            self.head = MIDDLE;
            self.room = Window::room_before(queue);
        }
    }

    /// How many processes the places may hold before a queue.
    #[inline(always)]
    fn room_before<A: Allocator>(queue: &Queue<A>) -> usize
        requires { is_empty queue.now.addresses ≡ false }
        ensures value { result ≡ min 1023 (queue.now.limit - length queue.now.addresses) }
        ensures within { length queue.now.addresses ≤ queue.now.limit }
    {
        queue.room().min(PLACES - 1)
    }
}
