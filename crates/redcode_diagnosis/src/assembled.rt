//! An assembly whose refusal is told from what it wrote out.

ghost use Rattle.std.specs.Prelude.{◌≡◌, IfErr, IfOk, IfSome};
ghost use Rattle.{war_types.specs.Warrior.Fits, redcode_lines.specs.Place.{IsPlaceIn, line_text}, redcode_asm.specs.Assembly.{Assembles, assembly}};

use crate::diagnosis::{Diagnosis, told};
use bumpalo::Bump;
use redcode_asm::warrior_from;
use redcode_blame::Scene;
use redcode_expand::{Expanded, expand};
use std::alloc::Allocator;
use war_types::{AsmFault, Settings, Warrior};

/// Assembles a source as `redcode_asm::assemble` does. The refusal of one that is refused is told beside it, unless memory runs out. The
/// source is written out once for both.
pub fn assemble_told<A: Allocator + Copy>(
    alloc: A,
    source: &[u8],
    settings: &Settings,
) -> (Result<Warrior<A>, AsmFault>, Option<Diagnosis<A>>)
    ensures assembled { Assembles result.0 (assembly settings.now source.now) }
    ensures fits { IfOk result.0 (Fits settings.now) }
    ensures told { IfSome result.1 (λ d. IfErr result.0 (λ fault. d.fault ≡ fault)) }
    ensures placed { IfSome result.1 (λ d. IsPlaceIn (line_text source.now d.fault.line) d.column d.width) }
{
    let region = Bump::new(alloc);
    assemble_in(alloc, &region, source, settings)
}

/// The same, with this region for what is written out.
fn assemble_in<'s, A: Allocator + Copy>(
    alloc: A,
    region: &'s Bump<A>,
    source: &'s [u8],
    settings: &'s Settings,
) -> (Result<Warrior<A>, AsmFault>, Option<Diagnosis<A>>)
    ensures assembled { Assembles result.0 (assembly settings.entry.now source.entry.now) }
    ensures fits { IfOk result.0 (Fits settings.entry.now) }
    ensures told { IfSome result.1 (λ d. IfErr result.0 (λ fault. d.fault ≡ fault)) }
    ensures placed { IfSome result.1 (λ d. IsPlaceIn (line_text source.entry.now d.fault.line) d.column d.width) }
{
    match expand(alloc, region, source, settings) {
        Ok(expanded) => match warrior_from(alloc, &expanded, settings) {
            Ok(warrior) => (Ok(warrior), None),
            Err(fault) => {
                let told = first_told(alloc, source, settings, Some(expanded), fault);
                (Err(fault), told)
            }
        },
        Err(fault) => (Err(fault), first_told(alloc, source, settings, None, fault)),
    }
}

/// The refusal of a source for this fault, with its lines written out.
fn first_told<'s, A: Allocator + Copy>(
    alloc: A,
    source: &'s [u8],
    settings: &'s Settings,
    expanded: Option<Expanded<'s, A>>,
    fault: AsmFault,
) -> Option<Diagnosis<A>>
    ensures told { IfSome result (λ d. d.fault ≡ fault) }
    ensures placed { IfSome result (λ d. IsPlaceIn (line_text source.entry.now d.fault.line) d.column d.width) }
{
    match Scene::of(alloc, source, settings, expanded) {
        Ok(scene) => told(&scene, source, fault).ok(),
        Err(_) => None,
    }
}
