//! The pages that browsers ask for: the hill's page, its object for programs, its health, and pages of rounds on it.

ghost use Rattle.std.specs.Prelude.{◌≡◌, IfOk, IfNone, IfSome, MatchOption};
ghost use Rattle.{war_types.specs.Warrior.Fits, koth_page.specs.Sign.sign_parts};
ghost use Rattle.koth_server.specs.Pages.{health_text, hill_data, links_for, HasPage, HasRound, HasWarrior, IsOnHill, IsRoundOf, IsShown, TakesWarriors};

use hill_store::Store;
use koth_hill::Hill;
use koth_http::Page;
use koth_json::data_text;
use koth_page::{Links, Sign, hill_page};
use koth_rounds::{has_round, round_text};
use koth_text::Piece::{Number, Text};
use koth_text::put_all;
use koth_words::given_as;
use sector_disk::Device;
use std::alloc::{AllocError, Allocator};
use war_types::Warrior;

/// Programs that follow links are not to ask for rounds: there are many, and each takes long.
const ROBOTS: &[u8] = b"User-agent: *\nDisallow: /replay/\n";

/// What the page of a hill leads to in a service that serves replays, or doesn't.
pub(crate) fn links_for(replays: bool) -> Links
    ensures { result ≡ links_for replays }
{
    if replays { Links::Rounds } else { Links::None }
}

/// The text of a page of a store's hill with this sign, or none if the hill has no such page. Without links to rounds it
/// has no page of a round. `AllocError` comes if memory ran out.
pub(crate) fn page_shown<D: Device, A: Allocator + Copy>(
    alloc: A,
    store: &Store<D, A>,
    page: Page,
    sign: &Sign<'_>,
    links: Links,
) -> Result<Option<Vec<u8, A>>, AllocError>
    ensures { IfOk result (λ found. MatchOption found (¬ (HasPage links store.now.hill page))
        (λ text. IsShown (sign_parts sign.now) links store.now.hill page text.items)) }
{
    match (page, links) {
        (Page::Hill, _) => Ok(Some(hill_page(alloc, store.hill(), sign, links)?)),
        (Page::Data, _) => Ok(Some(data_shown(alloc, store.hill())?)),
        (Page::Health, _) => health_shown(alloc, store.hill()),
        (Page::Robots, _) => Ok(Some(copied(alloc, ROBOTS)?)),
        (Page::Icon, _) => Ok(Some(Vec::new(alloc))),
        (Page::Round { .. }, Links::None) => Ok(None),
        (
            Page::Round {
                older,
                younger,
                round,
            },
            Links::Rounds,
        ) => round_shown(alloc, store.hill(), older, younger, round),
    }
}

/// The hill as an object for programs.
fn data_shown<A: Allocator + Copy>(alloc: A, hill: &Hill<A>) -> Result<Vec<u8, A>, AllocError>
    ensures { IfOk result (λ text. text.items ≡ hill_data hill.now) }
{
    data_text(alloc, hill, given_as(hill.settings()))
}

/// How many warriors the hill has judged, or none if it takes no more.
fn health_shown<A: Allocator + Copy>(
    alloc: A,
    hill: &Hill<A>,
) -> Result<Option<Vec<u8, A>>, AllocError>
    ensures { IfOk result (λ found. MatchOption found (¬ (TakesWarriors hill.now))
        (λ text. TakesWarriors hill.now × (text.items ≡ health_text hill.now.counter))) }
{
    let judged = hill.counter();
    if judged == u64::MAX {
        return Ok(None);
    }
    let mut text = Vec::new(alloc);
    put_all(&mut text, &[Text(b"judged "), Number(judged), Text(b"\n")])?;
    Ok(Some(text))
}

fn copied<A: Allocator + Copy>(alloc: A, text: &[u8]) -> Result<Vec<u8, A>, AllocError>
    ensures { IfOk result (λ copy. copy.items ≡ text.now) }
{
    let mut copy = Vec::new(alloc);
    copy.extend_from_slice(text)?;
    Ok(copy)
}

/// The page of a round, counted from 1, of the match of the warriors with these entries, or none if the hill has no
/// such round.
fn round_shown<A: Allocator + Copy>(
    alloc: A,
    hill: &Hill<A>,
    older: u64,
    younger: u64,
    round: u32,
) -> Result<Option<Vec<u8, A>>, AllocError>
    ensures { IfOk result (λ found. MatchOption found (¬ (HasRound hill.now older younger round))
        (λ text. IsRoundOf hill.now older younger round text.items)) }
{
    let settings = hill.settings();
    if older >= younger || !has_round(settings, round) {
        return Ok(None);
    }
    match (warrior_of(hill, older), warrior_of(hill, younger)) {
        (Some(older), Some(younger)) => {
            Ok(Some(round_text(alloc, settings, older, younger, round)?))
        }
        _ => Ok(None),
    }
}

/// The warrior with this entry, if it is on the hill.
fn warrior_of<'h, A: Allocator>(hill: &'h Hill<A>, entry: u64) -> Option<&'h Warrior<A>>
    ensures fits { IfSome result (λ w. Fits hill.now.settings w.now) }
    ensures has { IfSome result (λ w. HasWarrior hill.now.members entry w.now) }
    ensures nobody { IfNone result (¬ (IsOnHill hill.now.members entry)) }
{
    for place in 0..hill.len() {
        if let Some(member) = hill.member(place) {
            if member.entry == entry {
                return Some(member.warrior);
            }
        }
    }
    None
}
