//! The settings of a hill or a ranking.

ghost use Rattle.std.specs.Prelude.{◌≡◌, ◌==◌, if◌then◌else◌, ◌++◌, [], codes, OnOk};
ghost use Rattle.koth_page.specs.Settings.{hill_line, limit_text, limits_text, machine_text, orders_text, ranking_line, ranking_settings, rules_text, setting_text, settings_text};

use crate::parts::{MEANINGS, RANKING_RULES, RULES};
use koth_text::Piece::{Number, Text};
use koth_text::put_all;
use std::alloc::{AllocError, Allocator};
use war_types::Settings;

/// Puts the settings of a hill in a line that opens what they mean. Limits are among them where they are on, and the
/// seed stays secret.
#[tactic(auto, unfolding(crate::specs::Settings::settings_text))]
pub(crate) fn put_settings<A: Allocator>(
    page: &mut Vec<u8, A>,
    settings: &Settings,
) -> Result<(), AllocError>
    ensures { OnOk result (page.new.items ≡ page.old.items ++ settings_text settings.now) }
{
    put_hill_line(page, settings)?;
    page.extend_from_slice(RULES)?;
    page.extend_from_slice(MEANINGS)
}

#[tactic(auto, unfolding(crate::specs::Settings::hill_line))]
fn put_hill_line<A: Allocator>(page: &mut Vec<u8, A>, settings: &Settings) -> Result<(), AllocError>
    ensures { OnOk result (page.new.items ≡ page.old.items ++ hill_line settings.now) }
{
    put_machine(page, settings)?;
    put_rules(page, settings)?;
    put_setting(page, b", places ", u64::from(settings.capacity()))?;
    put_limits(page, settings)
}

/// Puts the settings of a ranking in a line that opens what they mean, as those of a hill: it has no places, and each
/// match is in both orders or in one.
#[tactic(auto, unfolding(crate::specs::Settings::ranking_settings))]
pub(crate) fn put_ranking_settings<A: Allocator>(
    page: &mut Vec<u8, A>,
    settings: &Settings,
    both: bool,
) -> Result<(), AllocError>
    ensures { OnOk result (page.new.items ≡ page.old.items ++ ranking_settings settings.now both) }
{
    put_ranking_line(page, settings, both)?;
    page.extend_from_slice(RANKING_RULES)?;
    page.extend_from_slice(MEANINGS)
}

#[tactic(auto, unfolding(crate::specs::Settings::ranking_line))]
fn put_ranking_line<A: Allocator>(
    page: &mut Vec<u8, A>,
    settings: &Settings,
    both: bool,
) -> Result<(), AllocError>
    ensures { OnOk result (page.new.items ≡ page.old.items ++ ranking_line settings.now both) }
{
    put_machine(page, settings)?;
    put_rules(page, settings)?;
    page.extend_from_slice(orders(both))?;
    put_limits(page, settings)
}

/// What is said of the orders in which each match is fought.
fn orders(both: bool) -> &'static [u8]
    ensures { result.now ≡ orders_text both }
{
    if both { b" in both orders" } else { b"" }
}

#[tactic(auto, unfolding(crate::specs::Settings::machine_text))]
fn put_machine<A: Allocator>(page: &mut Vec<u8, A>, settings: &Settings) -> Result<(), AllocError>
    ensures { OnOk result (page.new.items ≡ page.old.items ++ machine_text settings.now) }
{
    put_setting(
        page,
        b"<details>\n<summary>Settings: core ",
        u64::from(settings.core()),
    )?;
    put_setting(page, b", cycles ", u64::from(settings.cycles()))?;
    put_setting(page, b", processes ", u64::from(settings.processes()))
}

#[tactic(auto, unfolding(crate::specs::Settings::rules_text))]
fn put_rules<A: Allocator>(page: &mut Vec<u8, A>, settings: &Settings) -> Result<(), AllocError>
    ensures { OnOk result (page.new.items ≡ page.old.items ++ rules_text settings.now) }
{
    put_setting(page, b", length ", u64::from(settings.length()))?;
    put_setting(page, b", distance ", u64::from(settings.distance()))?;
    put_setting(page, b", rounds ", u64::from(settings.rounds()))
}

#[tactic(auto, unfolding(crate::specs::Settings::limits_text))]
fn put_limits<A: Allocator>(page: &mut Vec<u8, A>, settings: &Settings) -> Result<(), AllocError>
    ensures { OnOk result (page.new.items ≡ page.old.items ++ limits_text settings.now) }
{
    let core = u64::from(settings.core());
    put_limit(
        page,
        b", read limit ",
        u64::from(settings.read_limit()),
        core,
    )?;
    put_limit(
        page,
        b", write limit ",
        u64::from(settings.write_limit()),
        core,
    )
}

/// Puts a limit in a core of this size, if it is on.
#[tactic(auto, unfolding(crate::specs::Settings::limit_text))]
fn put_limit<A: Allocator>(
    page: &mut Vec<u8, A>,
    name: &[u8],
    limit: u64,
    core: u64,
) -> Result<(), AllocError>
    ensures { OnOk result (page.new.items ≡ page.old.items ++ limit_text name.now limit core) }
{
    if limit == core {
        return Ok(());
    }
    put_setting(page, name, limit)
}

#[tactic(auto, unfolding(crate::specs::Settings::setting_text))]
fn put_setting<A: Allocator>(
    page: &mut Vec<u8, A>,
    name: &[u8],
    number: u64,
) -> Result<(), AllocError>
    ensures { OnOk result (page.new.items ≡ page.old.items ++ setting_text name.now number) }
{
    put_all(page, &[Text(name), Number(number)])
}
