//! How one connection of a browser moves on: what comes of its request, and how its answer goes out.
#![tactic(auto, using(crate::proofs::Told::stays))]

ghost use Rattle.std.specs.Prelude.{◌≡◌, ℕ, Some, false, true};
ghost use Rattle.{hill_store.specs.Seen.Seen, koth_service.specs.Connections.{MovesOn, ShownOn, is_answered, stage_after}};
ghost use Rattle.koth_service.specs.declared.connections.Stage.TheVariants as stages;

use crate::answering::answer_visit;
use crate::connections::Stage;
use crate::host::{Host, WhyUnasked};
use crate::reading::CHUNK;
use crate::sockets::{Came, Sockets, Went};
use crate::unsent::Unsent;
use hill_store::Store;
use koth_http::Visit;
use sector_disk::Device;
use std::alloc::{AllocError, Allocator};

/// What became of a connection.
#[derive(Drop)]
pub(crate) enum Moved<A: Allocator> {
    /// What came is answered so, and none of that went out yet.
    Answered(Visit<A>, Unsent<A>),
    /// It went on to its next stage.
    Next(Stage<A>),
    /// It is at the same stage, and something came or went.
    On(Stage<A>),
    /// It is at the same stage, and nothing came or went.
    Still(Stage<A>),
    /// It has ended.
    Over,
}

impl<A: Allocator> Moved<A> {
    /// Whether the browser was answered.
    pub(crate) fn is_answered(&self) -> bool
        ensures { result ≡ is_answered self.now }
    {
        matches!(self, Moved::Answered(_, _))
    }

    /// Why a connection whose request isn't whole ends now, if it does.
    pub(crate) fn why_unasked(&self) -> WhyUnasked {
        match self {
            Moved::Over => WhyUnasked::Gone,
            _ => WhyUnasked::Late,
        }
    }
}

/// What becomes of a connection at this stage. A request is answered only if one may be.
pub(crate) fn after_stage<S: Sockets, D: Device, A: Allocator + Copy, H: Host<D, A>>(
    alloc: A,
    sockets: &mut S,
    store: &Store<D, A>,
    host: &H,
    number: usize,
    stage: Stage<A>,
    may_answer: bool,
) -> Moved<A>
    ensures { ShownOn S.happened D.facts (H.shows host.now) store.now may_answer number sockets.old (Some stage)
        (is_answered result) sockets.new (Some (stage_after result)) }
{
    match stage {
        Stage::Asking(visit, since) => read::<S, D, A, H>(sockets, host, number, visit, since),
        Stage::Asked(visit) => {
            if may_answer {
                answer::<S, D, A, H>(alloc, store, host, visit)
            } else {
                Moved::Still(Stage::Asked(visit))
            }
        }
        Stage::Answering(unsent) => write::<S, D, A, H>(sockets, number, unsent),
        Stage::Parting => drain::<S, D, A, H>(sockets, number),
    }
}

/// Reads what comes of a request, until it is whole.
fn read<S: Sockets, D: Device, A: Allocator, H: Host<D, A>>(
    sockets: &mut S,
    host: &H,
    number: usize,
    visit: Visit<A>,
    since: u64,
) -> Moved<A>
    ensures quiet { is_answered result ≡ false }
    ensures moves { (store : Seen D) (host : H)
        → MovesOn S.happened D.facts (H.shows host) store number sockets.old
        (Some (stages.Asking visit since)) sockets.new (Some (stage_after result)) }
{
    let mut visit = visit;
    let mut chunk = [0; CHUNK];
    let bytes = &mut chunk[..visit.room().min(CHUNK)];
    match sockets.read_browser(number, bytes) {
        Came::Bytes(count) => {
            visit.take(&bytes[..count]);
            match visit.asked(host.names()) {
                Some(_) => Moved::Next(Stage::Asked(visit)),
                None => Moved::On(Stage::Asking(visit, since)),
            }
        }
        Came::Nothing => Moved::Still(Stage::Asking(visit, since)),
        Came::End | Came::Gone => Moved::Over,
    }
}

/// Answers a request that is whole. The connection ends if there is no memory for the answer.
fn answer<S: Sockets, D: Device, A: Allocator + Copy, H: Host<D, A>>(
    alloc: A,
    store: &Store<D, A>,
    host: &H,
    visit: Visit<A>,
) -> Moved<A>
    ensures { (sockets : S) (n : ℕ) → ShownOn S.happened D.facts (H.shows host.now) store.now true n sockets
        (Some (stages.Asked visit)) (is_answered result) sockets (Some (stage_after result)) }
{
    match answer_visit(alloc, store, host, &visit) {
        Ok(Some(answer)) => Moved::Answered(visit, Unsent::new(answer)),
        Ok(None) => Moved::Still(Stage::Asked(visit)),
        Err(AllocError) => Moved::Over,
    }
}

/// Sends what the browser takes of its answer.
fn write<S: Sockets, D: Device, A: Allocator, H: Host<D, A>>(
    sockets: &mut S,
    number: usize,
    unsent: Unsent<A>,
) -> Moved<A>
    ensures quiet { is_answered result ≡ false }
    ensures moves { (store : Seen D) (host : H)
        → MovesOn S.happened D.facts (H.shows host) store number sockets.old
        (Some (stages.Answering unsent)) sockets.new (Some (stage_after result)) }
{
    let mut unsent = unsent;
    let bytes = unsent.as_slice();
    if bytes.is_empty() {
        sockets.shut_browser(number);
        return Moved::Next(Stage::Parting);
    }
    match sockets.write_browser(number, bytes) {
        Went::Bytes(count) => {
            unsent.pass(count);
            Moved::On(Stage::Answering(unsent))
        }
        Went::Nothing => Moved::Still(Stage::Answering(unsent)),
        Went::Gone => Moved::Over,
    }
}

/// Throws away what still comes.
fn drain<S: Sockets, D: Device, A: Allocator, H: Host<D, A>>(
    sockets: &mut S,
    number: usize,
) -> Moved<A>
    ensures quiet { is_answered result ≡ false }
    ensures moves { (store : Seen D) (host : H)
        → MovesOn S.happened D.facts (H.shows host) store number sockets.old (Some stages.Parting) sockets.new
        (Some (stage_after result)) }
{
    let mut chunk = [0; CHUNK];
    match sockets.read_browser(number, &mut chunk) {
        Came::Bytes(_) | Came::Nothing => Moved::Still(Stage::Parting),
        Came::End | Came::Gone => Moved::Over,
    }
}
